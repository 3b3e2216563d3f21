ghost use Rattle.std.specs.Prelude.{◌≡◌, ◌≤◌};
ghost use Rattle.eq_ports.specs.Causes.{raised};

use crate::failed::Failed;
use std::marker::Model;

/// How often an object has failed. A count of 2^64 - 1 stays as it is.
#[derive(Drop)]
pub struct FaultCount {
    count: u64,
}

impl Model for FaultCount {
    ghost use Rattle.std.specs.Prelude.{ℕ};

    ghost Value = { ℕ };

    ghost view = { λ s. s.count };
}

impl FaultCount {
    /// No failure so far.
    pub fn new() -> FaultCount
        ensures { result ≡ 0 }
    {
        FaultCount { count: 0 }
    }

    /// Counts one failure, and gives it.
    pub fn fail(&mut self) -> Failed
        ensures counted { self.new ≡ raised self.old }
        ensures later { self.old ≤ self.new }
    {
        self.count = self.count.saturating_add(1);
        Failed
    }
}
