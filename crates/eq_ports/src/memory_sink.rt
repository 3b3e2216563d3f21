ghost use Rattle.std.specs.Prelude.{◌≡◌, ◌≤◌, ◌<◌, ◌↔◌, ◌⊎◌, ℕ, [], List, length, take, IsErr, IfOk, OnErr};
ghost use Rattle.std.specs.Prelude.{Some, vec_items, vec_len, vec_capacity};
ghost use Rattle.std.specs.Io.{WritesAtMost};
ghost use Rattle.std.specs.Io.KnownBytes.{WriteAppends};
ghost use Rattle.eq_ports.specs.Causes.{HasCause};
ghost use Rattle.eq_ports.specs.Moves.{TakesSome};
ghost use Rattle.eq_ports.specs.Plan.{NextFails};
ghost use Rattle.eq_ports.specs.Memory.{taken_count, stored, store_failed};

use crate::failed::Failed;
use crate::schedule::Schedule;
use crate::sink::Sink;
use std::marker::Model;

/// A sink over room in memory, which takes bytes in pieces, with the numbers of the calls that fail.
#[derive(Drop)]
pub struct MemorySink {
    taken: Vec<u8>,
    room: usize,
    schedule: Schedule,
}

impl Model for MemorySink {
    ghost use Rattle.std.specs.Prelude.{◌≤◌, ◌+◌, vec_len, vec_capacity};
    ghost use Rattle.eq_ports.specs.Memory.{Store};

    ghost Value = { Store };

    ghost view = { λ s. record { taken = s.taken.items; room = s.room; plan = s.schedule } };

    ghost invariant = { λ s. vec_len s.taken + s.room ≤ vec_capacity s.taken };
}

impl MemorySink {
    /// A sink with the room of an empty vector, which takes at most `piece` bytes at a time and no memory. The
    /// calls whose numbers, counted from 1, stand in `failing` fail, and those that find no room for a byte. The
    /// number of a call stops at 2^64 - 1.
    pub fn new(room: Vec<u8>, piece: usize, failing: Vec<u64>) -> MemorySink
        requires some { 1 ≤ piece }
        requires empty { vec_len room ≡ 0 }
        ensures { result ≡ record {
          taken = [];
          room = vec_capacity room;
          plan = record { piece = piece; failing = failing.items; calls = 0; faults = 0 };
        } }
    {
        MemorySink {
            room: room.capacity(),
            taken: room,
            schedule: Schedule::new(piece, failing),
        }
    }

    /// The bytes that the sink has taken.
    pub fn written(&self) -> &[u8]
        ensures { result.now ≡ self.now.taken }
    {
        &self.taken
    }
}

impl Sink for MemorySink {
    ghost taken = { λ s. Some s.taken };

    ghost faults = { λ s. s.plan.faults };

    // Takes as many bytes as it is given and as the number `piece` and the room allow.
    fn write(&mut self, piece: &[u8]) -> Result<usize, Failed>
        ensures fails { IsErr result
            ↔ (NextFails self.old.plan ⊎ ((0 < length piece.now) × (self.old.room ≡ 0))) }
        ensures takes { IfOk result (λ n. (n ≡ taken_count self.old piece.now)
            × (self.new ≡ stored self.old (take n piece.now))) }
        ensures failed { OnErr result (self.new ≡ store_failed self.old) }

        // The trait's clauses.
        ensures bound { WritesAtMost result piece.now }
        ensures some { TakesSome result piece.now }
        ensures bytes { WriteAppends (Some self.old.taken) (Some self.new.taken) result piece.now }
        ensures cause { HasCause self.old.plan.faults self.new.plan.faults result }
    {
        let fails = self.schedule.next_fails();
        if fails || (!piece.is_empty() && self.room == 0) {
            return Err(self.schedule.fail());
        }
        let count = piece.len().min(self.schedule.piece().min(self.room));
        match self.taken.extend_from_slice(&piece[..count]) {
            Ok(()) => {}
            Err(_) => unreachable!(),
        }
        self.room -= count;
        Ok(count)
    }
}
