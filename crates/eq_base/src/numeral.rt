// The text of numerals.
ghost use Rattle.std.specs.Prelude.{◌≡◌, ◌++◌, OnOk, OnErr};
ghost use Rattle.std.specs.Fmt.{signed_decimal};
ghost use Rattle.eq_base.specs.Decimal.{IsDecimal};

use crate::NoMemory;
use itoa::Buffer;

/// Appends the decimal text of a number: its digits with no leading zero, behind `-` if it is negative.
///
/// # Errors
///
/// Out of memory; `into` is then unchanged.
#[tactic(auto, using(crate::proofs::Decimals::is_decimal))]
pub fn push_numeral(into: &mut Vec<u8>, value: i128) -> Result<(), NoMemory>
    ensures ok { OnOk result (into.new.items ≡ into.old.items ++ signed_decimal value) }
    ensures decimal { IsDecimal value (signed_decimal value) }
    ensures err { OnErr result (into.new.items ≡ into.old.items) }
{
    let mut buffer = Buffer::new();
    into.extend_from_slice(buffer.format(value).as_bytes())?;
    Ok(())
}
