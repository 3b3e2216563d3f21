ghost use Rattle.std.specs.Prelude.{◌≡◌, ℕ, List, None};
ghost use Rattle.std.specs.Io.{ReadsAtMost};
ghost use Rattle.std.specs.Io.KnownBytes.{ReadConsumes};
ghost use Rattle.std.specs.declared.option.Option.{Option};
ghost use base.Fml.{GName};
ghost use Rattle.eq_ports.specs.Causes.{HasCause};
ghost use Rattle.eq_ports.specs.Moves.{Named};

use crate::failed::Failed;

/// Where bytes come from.
pub trait Source {
    /// The bytes that are left, where they are known.
    ghost left: { Self → Option (List ℕ) };

    /// The fault count.
    ghost faults: { Self → ℕ };

    /// The loan of the files that the source reads through, where it holds one, and the bytes of these files.
    ghost through: { Self → Option (GName × Named) } = { λ _. None };

    /// Puts bytes at the front of `into`, and answers how many.
    ///
    /// Where the bytes left are known, these are the first of them, and are then no longer left. An answer of 0
    /// for a slice that is not empty is the end: nothing is left.
    ///
    /// # Errors
    ///
    /// Only where the fault count rose; the known bytes are then left as they were. After an answer of `Ok` the
    /// count is as it was.
    fn read(&mut self, into: &mut [u8]) -> Result<usize, Failed>
        ensures bound { ReadsAtMost result into.new }
        ensures bytes { ReadConsumes (left self.old) (left self.new) result into.new }
        ensures cause { HasCause (faults self.old) (faults self.new) result }
        ensures through { through self.new ≡ through self.old };
}
