ghost use Rattle.std.specs.Prelude.{◌≡◌, ◌≤◌, ◌<◌, ◌++◌, ℕ, List, length, take, drop, min, IsOk, IfOk, Some};
ghost use Rattle.std.specs.Prelude.{vec_items};
ghost use Rattle.std.specs.Io.{ReadsAtMost};
ghost use Rattle.std.specs.Io.KnownBytes.{ReadConsumes};
ghost use Rattle.eq_ports.specs.Causes.{HasCause};

use crate::failed::Failed;
use crate::memory_source::read_from;
use crate::source::Source;
use std::marker::Model;

/// Bytes in memory, given without a failure: its fault count is always 0. Contracts see the bytes that are left.
#[derive(Drop)]
pub struct SureSource {
    bytes: Vec<u8>,
    at: usize,
}

impl Model for SureSource {
    ghost use Rattle.std.specs.Prelude.{◌≤◌, ℕ, List, drop, vec_len};

    ghost Value = { List ℕ };

    ghost view = { λ s. drop s.at s.bytes.items };

    ghost invariant = { λ s. s.at ≤ vec_len s.bytes };
}

impl SureSource {
    /// A source of these bytes.
    pub fn new(bytes: Vec<u8>) -> SureSource
        ensures { result ≡ bytes.items }
    {
        SureSource { bytes, at: 0 }
    }
}

impl Source for SureSource {
    ghost left = { λ s. Some s };

    ghost faults = { λ _. 0 };

    // Gives as many bytes as the slice and the rest allow.
    fn read(&mut self, into: &mut [u8]) -> Result<usize, Failed>
        ensures sure { IsOk result }
        ensures gives { IfOk result (λ n. (n ≡ min (length into.old) (length self.old))
            × (self.new ≡ drop n self.old)) }

        // The trait's clauses.
        ensures bound { ReadsAtMost result into.new }
        ensures bytes { ReadConsumes (Some self.old) (Some self.new) result into.new }
        ensures cause { HasCause 0 0 result }
    {
        let count = read_from(&self.bytes, self.at, into, usize::MAX);
        self.at += count;
        Ok(count)
    }
}
