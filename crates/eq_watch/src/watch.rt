ghost use Rattle.std.specs.Prelude.{◌≡◌, ◌++◌, OnOk, OnErr};
ghost use Rattle.eq_watch.specs.Watching.{WatchState, cleared, moved, reported, Grew};

use crate::event::Event;
use eq_base::NoMemory;

/// An object that is told of the replacements of a run, one after the other, and reports of them.
pub trait Watch: Drop {
    /// What the watch is seen as: its numbers, and how they move, what is reported of them, and its names.
    ghost state: { Self → WatchState };

    /// Whether the watch is turned on by a name.
    fn name_is(&self, name: &str) -> bool
        ensures { result ≡ (state self.now).is_name name.now };

    /// Forgets all that was seen.
    fn clear(&mut self)
        ensures { state self.new ≡ cleared (state self.old) };

    /// Takes note of a replacement.
    ///
    /// # Errors
    ///
    /// Out of memory; the watch is then as it was.
    fn seen(&mut self, event: Event) -> Result<(), NoMemory>
        ensures ok { OnOk result (state self.new ≡ moved (state self.old) event) }
        ensures err { OnErr result (state self.new ≡ state self.old) };

    /// Appends the report of what was seen: whole lines.
    ///
    /// # Errors
    ///
    /// Out of memory; the old bytes are then the first of `into`.
    fn report(&self, into: &mut Vec<u8>) -> Result<(), NoMemory>
        ensures ok { OnOk result (into.new.items ≡ into.old.items ++ reported (state self.now)) }
        ensures err { OnErr result (Grew into.old.items into.new.items) };
}
