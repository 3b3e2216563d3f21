ghost use Rattle.std.specs.Prelude.{◌≡◌, ◌≤◌, ◌+◌, ◌-◌, ◌++◌, ◌↔◌, ℕ, List, length, take, drop, min, IsErr};
ghost use Rattle.std.specs.Prelude.{IfOk, OnErr, Some, vec_items};
ghost use Rattle.std.specs.Io.{ReadsAtMost};
ghost use Rattle.std.specs.Io.KnownBytes.{ReadConsumes};
ghost use Rattle.eq_ports.specs.Causes.{HasCause};
ghost use Rattle.eq_ports.specs.Plan.{NextFails};
ghost use Rattle.eq_ports.specs.Memory.{given_count, supplied, supply_failed};

use crate::failed::Failed;
use crate::schedule::Schedule;
use crate::source::Source;
use std::marker::Model;

/// Bytes in memory, given in pieces, with the numbers of the calls that fail.
#[derive(Drop)]
pub struct MemorySource {
    bytes: Vec<u8>,
    at: usize,
    schedule: Schedule,
}

impl Model for MemorySource {
    ghost use Rattle.std.specs.Prelude.{◌≤◌, drop, vec_len};
    ghost use Rattle.eq_ports.specs.Memory.{Supply};

    ghost Value = { Supply };

    ghost view = { λ s. record { left = drop s.at s.bytes.items; plan = s.schedule } };

    ghost invariant = { λ s. s.at ≤ vec_len s.bytes };
}

impl MemorySource {
    /// A source of these bytes, at most `piece` at a time. The calls whose numbers, counted from 1, stand in
    /// `failing` fail, and no others. The number of a call stops at 2^64 - 1.
    pub fn new(bytes: Vec<u8>, piece: usize, failing: Vec<u64>) -> MemorySource
        requires { 1 ≤ piece }
        ensures { result ≡ record {
          left = bytes.items;
          plan = record { piece = piece; failing = failing.items; calls = 0; faults = 0 };
        } }
    {
        MemorySource {
            bytes,
            at: 0,
            schedule: Schedule::new(piece, failing),
        }
    }
}

/// Reads from an index on, as much as the bytes and `into` allow, and `most` at most. Time: the bytes read.
pub fn read_from(bytes: &[u8], at: usize, into: &mut [u8], most: usize) -> usize
    requires { at ≤ length bytes.now }
    ensures count { result ≡ min (length into.old) (min most (length bytes.now - at)) }
    ensures within { at + result ≤ length bytes.now }
    ensures read { drop at bytes.now ≡ take result into.new ++ drop (at + result) bytes.now }
{
    let count = into.len().min(most.min(bytes.len() - at));
    into[..count].copy_from_slice(&bytes[at..at + count]);
    count
}

impl Source for MemorySource {
    ghost left = { λ s. Some s.left };

    ghost faults = { λ s. s.plan.faults };

    // Gives as many bytes as the slice, the number `piece` and the rest allow.
    fn read(&mut self, into: &mut [u8]) -> Result<usize, Failed>
        ensures fails { IsErr result ↔ NextFails self.old.plan }
        ensures gives { IfOk result (λ n. (n ≡ given_count self.old.left self.old.plan (length into.old))
            × (self.new ≡ supplied self.old n)) }
        ensures failed { OnErr result (self.new ≡ supply_failed self.old) }

        // The trait's clauses.
        ensures bound { ReadsAtMost result into.new }
        ensures bytes { ReadConsumes (Some self.old.left) (Some self.new.left) result into.new }
        ensures cause { HasCause self.old.plan.faults self.new.plan.faults result }
    {
        if self.schedule.next_fails() {
            return Err(self.schedule.fail());
        }
        let count = read_from(&self.bytes, self.at, into, self.schedule.piece());
        self.at += count;
        Ok(count)
    }
}
