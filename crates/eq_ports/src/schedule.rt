ghost use Rattle.std.specs.Prelude.{◌≡◌, ◌≤◌, ◌↔◌, IsTrue, vec_items};
ghost use Rattle.eq_ports.specs.Causes.{raised};
ghost use Rattle.eq_ports.specs.Plan.{NextFails};

use crate::failed::Failed;
use crate::fault_count::FaultCount;
use std::marker::Model;

/// How the calls of a port in memory go: which of them fail, and how many bytes one moves at most.
#[derive(Drop)]
pub struct Schedule {
    piece: usize,
    failing: Vec<u64>,
    calls: u64,
    faults: FaultCount,
}

impl Model for Schedule {
    ghost use Rattle.std.specs.Prelude.{◌≤◌};
    ghost use Rattle.eq_ports.specs.Plan.{Plan};

    ghost Value = { Plan };

    ghost view = { λ s. record {
      piece = s.piece;
      failing = s.failing.items;
      calls = s.calls;
      faults = s.faults;
    } };

    ghost invariant = { λ s. 1 ≤ s.piece };
}

impl Schedule {
    /// No call made so far.
    pub fn new(piece: usize, failing: Vec<u64>) -> Schedule
        requires { 1 ≤ piece }
        ensures { result ≡ record { piece = piece; failing = failing.items; calls = 0; faults = 0 } }
    {
        Schedule {
            piece,
            failing,
            calls: 0,
            faults: FaultCount::new(),
        }
    }

    /// The most bytes that a call moves.
    pub fn piece(&self) -> usize
        ensures piece { result ≡ self.now.piece }
        ensures some { 1 ≤ result }
    {
        self.piece
    }

    /// Counts a call, and says whether it is to fail. The count stops at 2^64 - 1. Time: the failing numbers.
    pub fn next_fails(&mut self) -> bool
        ensures fails { IsTrue result ↔ NextFails self.old }
        ensures counted { self.new ≡ record self.old { calls = raised self.old.calls } }
    {
        self.calls = self.calls.saturating_add(1);
        self.failing.contains(&self.calls)
    }

    /// Counts a failure, and gives it.
    pub fn fail(&mut self) -> Failed
        ensures counted { self.new ≡ record self.old { faults = raised self.old.faults } }
        ensures later { self.old.faults ≤ self.new.faults }
    {
        self.faults.fail()
    }
}
