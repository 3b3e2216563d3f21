ghost use Rattle.std.specs.Prelude.{◌≡◌, ◌++◌, [], Some, IsOk, OnOk, OnErr};
ghost use Rattle.eq_watch.specs.Watching.{Grew, moved};
ghost use Rattle.eq_watch.specs.Sizing.{sized, sizes_with, sizes_line, sizes_text};
ghost use Rattle.eq_watch.specs.Summing.{numbers_of};

use crate::event::Event;
use crate::text::push_counted;
use crate::watch::Watch;
use eq_base::NoMemory;
use std::marker::Model;

/// What the replacements made in all.
#[derive(Drop)]
struct Sums {
    replaced: u64,
    made: u64,
    last: u64,
}

/// The watch `sizes`, which sums up what the replacements made, and takes no memory. Its sums stop at
/// 2^64 - 1.
#[derive(Drop)]
pub struct Sizes {
    sums: Option<Sums>,
}

impl Model for Sizes {
    ghost use Rattle.std.specs.Prelude.{List, ℕ};

    ghost Value = { List ℕ };

    ghost use Rattle.eq_watch.specs.Summing.{numbers_of};

    ghost view = { λ s. numbers_of s.sums };
}

impl Sizes {
    /// A watch that was told of nothing.
    pub fn new() -> Sizes
        ensures { result ≡ [] }
    {
        Sizes { sums: None }
    }
}

/// The sums after an event.
fn sums_after(sums: &Option<Sums>, event: Event) -> Sums
    ensures { numbers_of (Some result) ≡ sized (numbers_of sums.now) event }
{
    let (replaced, made) = match sums {
        Some(sums) => (sums.replaced, sums.made),
        None => (0, 0),
    };
    Sums {
        replaced: replaced.saturating_add(1),
        made: made.saturating_add(event.made as u64),
        last: (event.first_made as u64).saturating_add(event.made as u64),
    }
}

/// Appends the line of these sums.
fn write_line(replaced: u64, made: u64, last: u64, into: &mut Vec<u8>) -> Result<(), NoMemory>
    ensures ok { OnOk result (into.new.items ≡ into.old.items ++ sizes_line replaced made last) }
    ensures front { Grew into.old.items into.new.items }
{
    push_counted(into, "replaced ", replaced)?;
    push_counted(into, " made ", made)?;
    push_counted(into, " last ", last)?;
    into.push(b'\n')?;
    Ok(())
}

/// Appends the line of the sums.
fn write_sums(sums: &Option<Sums>, into: &mut Vec<u8>) -> Result<(), NoMemory>
    ensures ok { OnOk result (into.new.items ≡ into.old.items ++ sizes_text (numbers_of sums.now)) }
    ensures front { Grew into.old.items into.new.items }
{
    match sums {
        Some(sums) => write_line(sums.replaced, sums.made, sums.last, into),
        None => write_line(0, 0, 0, into),
    }
}

impl Watch for Sizes {
    ghost state = { sizes_with };

    fn name_is(&self, name: &str) -> bool {
        name == "sizes"
    }

    fn clear(&mut self) {
        self.sums = None;
    }

    // Takes no memory, so it always answers `Ok`.
    fn seen(&mut self, event: Event) -> Result<(), NoMemory>
        ensures always { IsOk result }
        ensures moved { self.new ≡ sized self.old event }

        // The trait's clauses.
        ensures ok { OnOk result (sizes_with self.new ≡ moved (sizes_with self.old) event) }
        ensures err { OnErr result (sizes_with self.new ≡ sizes_with self.old) }
    {
        self.sums = Some(sums_after(&self.sums, event));
        Ok(())
    }

    fn report(&self, into: &mut Vec<u8>) -> Result<(), NoMemory> {
        write_sums(&self.sums, into)
    }
}
