ghost use Rattle.std.specs.Prelude.{◌≡◌, [], ℕ, List, IsOk, OnOk};
ghost use Rattle.std.specs.Io.{WritesAtMost};
ghost use Rattle.std.specs.Io.KnownBytes.{WriteAppends, Appends};
ghost use Rattle.std.specs.declared.option.Option.{Option};
ghost use Rattle.eq_ports.specs.Causes.{HasCause};
ghost use Rattle.eq_ports.specs.Moves.{TakesSome, AppendsFront};

use crate::failed::Failed;

/// Where bytes go.
pub trait Sink {
    /// The bytes that were taken, where they are known.
    ghost taken: { Self → Option (List ℕ) };

    /// The fault count.
    ghost faults: { Self → ℕ };

    /// Takes a front of `piece`, and answers its length: at least 1 where `piece` is not empty.
    ///
    /// # Errors
    ///
    /// Only where the fault count rose; nothing was then taken. After an answer of `Ok` the count is as it was.
    fn write(&mut self, piece: &[u8]) -> Result<usize, Failed>
        ensures bound { WritesAtMost result piece.now }
        ensures some { TakesSome result piece.now }
        ensures bytes { WriteAppends (taken self.old) (taken self.new) result piece.now }
        ensures cause { HasCause (faults self.old) (faults self.new) result };
}

/// Writes all bytes in order, by at most as many calls as there are bytes, and no call where there are none.
///
/// # Errors
///
/// At the first `write` that fails; the sink has then taken a front of the bytes.
pub fn write_whole<K: Sink>(sink: &mut K, bytes: &[u8]) -> Result<(), Failed>
    ensures whole { OnOk result (Appends (K.taken sink.old) (K.taken sink.new) bytes.now) }
    ensures front { AppendsFront (K.taken sink.old) (K.taken sink.new) bytes.now }
    ensures cause { HasCause (K.faults sink.old) (K.faults sink.new) result }

    // Where there is no byte, no call is made.
    ensures no_byte { bytes.now ≡ [] → IsOk result × (sink.new ≡ sink.old) }
{
    let mut rest = bytes;
    while !rest.is_empty() {
        let count = sink.write(rest)?;
        rest = &rest[count..];
    }
    Ok(())
}
