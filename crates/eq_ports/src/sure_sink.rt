ghost use Rattle.std.specs.Prelude.{◌≡◌, ◌≤◌, ◌<◌, ◌-◌, ◌↔◌, [], ℕ, List, length, take, min, IsErr, IfOk};
ghost use Rattle.std.specs.Prelude.{OnErr, Some, vec_items, vec_len, vec_capacity};
ghost use Rattle.std.specs.Io.{WritesAtMost};
ghost use Rattle.std.specs.Io.KnownBytes.{WriteAppends};
ghost use Rattle.eq_ports.specs.Causes.{HasCause};
ghost use Rattle.eq_ports.specs.Moves.{TakesSome};
ghost use Rattle.eq_ports.specs.Memory.{filled, vessel_failed};

use crate::failed::Failed;
use crate::fault_count::FaultCount;
use crate::sink::Sink;
use std::marker::Model;

/// A sink over room in memory, which fails only where no room is left.
#[derive(Drop)]
pub struct SureSink {
    taken: Vec<u8>,
    room: usize,
    faults: FaultCount,
}

impl Model for SureSink {
    ghost use Rattle.std.specs.Prelude.{◌≤◌, ◌+◌, vec_len, vec_capacity};
    ghost use Rattle.eq_ports.specs.Memory.{Vessel};

    ghost Value = { Vessel };

    ghost view = { λ s. record { taken = s.taken.items; room = s.room; faults = s.faults } };

    ghost invariant = { λ s. vec_len s.taken + s.room ≤ vec_capacity s.taken };
}

impl SureSink {
    /// A sink with the room of an empty vector. It takes no memory.
    pub fn new(room: Vec<u8>) -> SureSink
        requires { vec_len room ≡ 0 }
        ensures { result ≡ record { taken = []; room = vec_capacity room; faults = 0 } }
    {
        SureSink {
            room: room.capacity(),
            taken: room,
            faults: FaultCount::new(),
        }
    }

    /// The bytes that the sink has taken.
    pub fn written(&self) -> &[u8]
        ensures { result.now ≡ self.now.taken }
    {
        &self.taken
    }
}

impl Sink for SureSink {
    ghost taken = { λ s. Some s.taken };

    ghost faults = { λ s. s.faults };

    // Takes as much of the piece as the room holds.
    fn write(&mut self, piece: &[u8]) -> Result<usize, Failed>
        ensures fails { IsErr result ↔ ((0 < length piece.now) × (self.old.room ≡ 0)) }
        ensures takes { IfOk result (λ n. (n ≡ min (length piece.now) self.old.room)
            × (self.new ≡ filled self.old (take n piece.now))) }
        ensures failed { OnErr result (self.new ≡ vessel_failed self.old) }

        // The trait's clauses.
        ensures bound { WritesAtMost result piece.now }
        ensures some { TakesSome result piece.now }
        ensures bytes { WriteAppends (Some self.old.taken) (Some self.new.taken) result piece.now }
        ensures cause { HasCause self.old.faults self.new.faults result }
    {
        if !piece.is_empty() && self.room == 0 {
            return Err(self.faults.fail());
        }
        let count = piece.len().min(self.room);
        match self.taken.extend_from_slice(&piece[..count]) {
            Ok(()) => {}
            Err(_) => unreachable!(),
        }
        self.room -= count;
        Ok(count)
    }
}
