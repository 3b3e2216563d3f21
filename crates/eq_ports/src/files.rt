ghost use Rattle.std.specs.Prelude.{◌≡◌, ◌↔◌, ℕ, List, Bool, IsTrue, IsOk, OnOk, IfSome};
ghost use Rattle.std.specs.Io.{ReadsAtMost};
ghost use Rattle.std.specs.Io.KnownBytes.{ReadConsumes};
ghost use Rattle.std.specs.declared.option.Option.{Option};
ghost use Rattle.eq_ports.specs.Causes.{HasCause};
ghost use Rattle.eq_ports.specs.Moves.{BeginsAt, Named};

use crate::failed::Failed;

/// Files under their names, one of which may be chosen.
pub trait Files {
    /// The bytes under each name, where they are known. No call changes these.
    ghost named: { Self → Named };

    /// Whether a file is chosen.
    ghost is_chosen: { Self → Bool };

    /// What is left of the chosen file, where it is known.
    ghost rest: { Self → Option (List ℕ) };

    /// The fault count.
    ghost faults: { Self → ℕ };

    /// Goes to the beginning of the named file, all of whose bytes are then left.
    ///
    /// # Errors
    ///
    /// Only where the fault count rose, as it does where no file has the name. No file is then chosen.
    fn choose(&mut self, name: &str) -> Result<(), Failed>
        ensures kept { named self.new ≡ named self.old }
        ensures chosen { IsTrue (is_chosen self.new) ↔ IsOk result }
        ensures begins { OnOk result
            (IfSome (named self.old) (λ look_up. BeginsAt (look_up name.now) (rest self.new))) }
        ensures cause { HasCause (faults self.old) (faults self.new) result };

    /// Reads what is left of the chosen file, as a `Source` is read.
    ///
    /// # Errors
    ///
    /// Only where the fault count rose, as it does where no file is chosen. The known bytes are then left as they
    /// were, and the same file is chosen.
    fn read(&mut self, into: &mut [u8]) -> Result<usize, Failed>
        ensures kept { named self.new ≡ named self.old }
        ensures chosen { is_chosen self.new ≡ is_chosen self.old }
        ensures unchosen { IsOk result → IsTrue (is_chosen self.old) }
        ensures bound { ReadsAtMost result into.new }
        ensures bytes { ReadConsumes (rest self.old) (rest self.new) result into.new }
        ensures cause { HasCause (faults self.old) (faults self.new) result };
}
