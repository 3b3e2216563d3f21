ghost use Rattle.std.specs.Prelude.{◌≡◌, ℕ, None, false};

use crate::failed::Failed;
use crate::fault_count::FaultCount;
use crate::files::Files;
use std::fs::File;
use std::io::Read;
use std::marker::Model;
use std::rt;

/// The files of the system. Of their bytes nothing is known; contracts see whether one is chosen, and the fault
/// count.
#[derive(Drop)]
pub struct StdFiles<R: rt::Files> {
    system: R,
    chosen: Option<R::File>,
    faults: FaultCount,
}

impl<R: rt::Files> Model for StdFiles<R> {
    ghost use Rattle.std.specs.Prelude.{is_some};
    ghost use Rattle.eq_ports.specs.Moves.{Folder};

    ghost Value = { Folder };

    ghost view = { λ s. record { is_chosen = is_some s.chosen; faults = s.faults } };
}

impl<R: rt::Files> StdFiles<R> {
    /// The files of a system: none is chosen, and none has failed.
    pub fn new(system: R) -> StdFiles<R>
        ensures { result ≡ record { is_chosen = false; faults = 0 } }
    {
        StdFiles {
            system,
            chosen: None,
            faults: FaultCount::new(),
        }
    }
}

impl<R: rt::Files> Files for StdFiles<R> {
    ghost named = { λ _. None };

    ghost is_chosen = { λ s. s.is_chosen };

    ghost rest = { λ _. None };

    ghost faults = { λ s. s.faults };

    fn choose(&mut self, name: &str) -> Result<(), Failed> {
        match File::open(&self.system, name) {
            Ok(file) => {
                self.chosen = Some(file);
                Ok(())
            }
            Err(_) => {
                self.chosen = None;
                Err(self.faults.fail())
            }
        }
    }

    fn read(&mut self, into: &mut [u8]) -> Result<usize, Failed> {
        if let Some(file) = &mut self.chosen {
            if let Ok(count) = file.read(into) {
                return Ok(count);
            }
        }
        Err(self.faults.fail())
    }
}
