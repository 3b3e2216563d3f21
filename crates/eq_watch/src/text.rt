// The pieces of a report.
ghost use Rattle.std.specs.Prelude.{◌≡◌, ◌++◌, decimal, OnOk};
ghost use Rattle.eq_watch.specs.Watching.{Grew};

use eq_base::{NoMemory, push_numeral};

/// Appends words and behind them a number in decimal digits.
pub fn push_counted(into: &mut Vec<u8>, words: &str, number: u64) -> Result<(), NoMemory>
    ensures ok { OnOk result (into.new.items ≡ into.old.items ++ words.now ++ decimal number) }
    ensures front { Grew into.old.items into.new.items }
{
    into.extend_from_slice(words.as_bytes())?;
    push_numeral(into, i128::from(number))?;
    Ok(())
}
