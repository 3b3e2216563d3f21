ghost use Rattle.std.specs.Prelude.{◌≡◌, ◌≤◌, ◌<◌, ◌↔◌, ◌⊎◌, ℕ, List, length, drop, map, bytes_eq, is_some};
ghost use Rattle.std.specs.Prelude.{IsTrue, IsErr, IsOk, IfOk, IfSome, IfNone, OnOk, OnErr, IsNone, Some};
ghost use Rattle.std.specs.Prelude.{None, vec_items};
ghost use Rattle.std.specs.List.{IsDistinct};
ghost use Rattle.std.specs.Io.{ReadsAtMost};
ghost use Rattle.std.specs.Io.KnownBytes.{ReadConsumes};
ghost use Rattle.eq_ports.specs.Causes.{HasCause};
ghost use Rattle.eq_ports.specs.Moves.{BeginsAt};
ghost use Rattle.eq_ports.specs.Plan.{NextFails};
ghost use Rattle.eq_ports.specs.Memory.{given_count, look_up, cabinet_failed, cabinet_at};
ghost use Rattle.eq_ports.specs.Entries.{entries, bytes_at};

use crate::failed::Failed;
use crate::files::Files;
use crate::memory_source::read_from;
use crate::schedule::Schedule;
use std::marker::Model;

/// Where the reading of a file stands: the file's index in the list, and that of its next byte.
#[derive(Clone, Copy)]
struct Place {
    file: usize,
    at: usize,
}

/// Files in memory, given in pieces, with the numbers of the calls that fail.
#[derive(Drop)]
pub struct MemoryFiles {
    list: Vec<(String, Vec<u8>)>,
    chosen: Option<Place>,
    schedule: Schedule,
}

impl Model for MemoryFiles {
    ghost use Rattle.eq_ports.specs.Memory.{Cabinet};

    ghost Value = { Cabinet };

    ghost use Rattle.eq_ports.specs.Entries.{entries, rest_from, IsPlace};

    ghost view = { λ s. record {
      files = entries s.list.items;
      rest = rest_from (entries s.list.items) s.chosen;
      plan = s.schedule;
    } };

    ghost invariant = { λ s. IsPlace (entries s.list.items) s.chosen };
}

impl MemoryFiles {
    /// Files by their names, none chosen, read at most `piece` bytes at a time. The calls of `choose` and `read`
    /// are counted together, from 1 on; those whose numbers stand in `failing` fail, and those that find no file.
    /// The number of a call stops at 2^64 - 1.
    pub fn new(list: Vec<(String, Vec<u8>)>, piece: usize, failing: Vec<u64>) -> MemoryFiles
        requires some { 1 ≤ piece }
        requires distinct { IsDistinct bytes_eq (map (λ file. file.0) (entries list.items)) }
        ensures { result ≡ record {
          files = entries list.items;
          rest = None;
          plan = record { piece = piece; failing = failing.items; calls = 0; faults = 0 };
        } }
    {
        MemoryFiles {
            list,
            chosen: None,
            schedule: Schedule::new(piece, failing),
        }
    }
}

/// The index of the first file with the name. Time: all names at most.
fn find_file(list: &[(String, Vec<u8>)], name: &str) -> Option<usize>
    ensures none { IfNone result (look_up (entries list.now) name.now ≡ None) }
    ensures found { IfSome result (λ i. (i < length list.now)
        × (look_up (entries list.now) name.now ≡ Some (bytes_at (entries list.now) i))) }
{
    for (i, file) in list.iter().enumerate() {
        if file.0.as_str() == name {
            return Some(i);
        }
    }
    None
}

impl Files for MemoryFiles {
    ghost named = { λ s. Some (look_up s.files) };

    ghost is_chosen = { λ s. is_some s.rest };

    ghost rest = { λ s. s.rest };

    ghost faults = { λ s. s.plan.faults };

    fn choose(&mut self, name: &str) -> Result<(), Failed>
        ensures fails { IsErr result ↔ (NextFails self.old.plan ⊎ IsNone (look_up self.old.files name.now)) }
        ensures goes { OnOk result
            (IfSome (look_up self.old.files name.now) (λ bytes. self.new ≡ cabinet_at self.old bytes)) }
        ensures failed { OnErr result (self.new ≡ cabinet_failed self.old None) }

        // The trait's clauses.
        ensures kept { Some (look_up self.new.files) ≡ Some (look_up self.old.files) }
        ensures chosen { IsTrue (is_some self.new.rest) ↔ IsOk result }
        ensures begins { OnOk result (BeginsAt (look_up self.old.files name.now) self.new.rest) }
        ensures cause { HasCause self.old.plan.faults self.new.plan.faults result }
    {
        self.chosen = None;
        if self.schedule.next_fails() {
            return Err(self.schedule.fail());
        }
        match find_file(&self.list, name) {
            Some(file) => {
                self.chosen = Some(Place { file, at: 0 });
                Ok(())
            }
            None => Err(self.schedule.fail()),
        }
    }

    // Gives as many bytes as the slice, the number `piece` and the rest allow.
    fn read(&mut self, into: &mut [u8]) -> Result<usize, Failed>
        ensures fails { IsErr result ↔ (NextFails self.old.plan ⊎ IsNone self.old.rest) }
        ensures gives { IfOk result (λ n. IfSome self.old.rest (λ rest.
            (n ≡ given_count rest self.old.plan (length into.old))
            × (self.new ≡ cabinet_at self.old (drop n rest)))) }
        ensures failed { OnErr result (self.new ≡ cabinet_failed self.old self.old.rest) }

        // The trait's clauses.
        ensures kept { Some (look_up self.new.files) ≡ Some (look_up self.old.files) }
        ensures chosen { is_some self.new.rest ≡ is_some self.old.rest }
        ensures unchosen { IsOk result → IsTrue (is_some self.old.rest) }
        ensures bound { ReadsAtMost result into.new }
        ensures bytes { ReadConsumes self.old.rest self.new.rest result into.new }
        ensures cause { HasCause self.old.plan.faults self.new.plan.faults result }
    {
        let fails = self.schedule.next_fails();
        match self.chosen {
            Some(place) if !fails => {
                let bytes = &self.list[place.file].1;
                let count = read_from(bytes, place.at, into, self.schedule.piece());
                self.chosen = Some(Place {
                    file: place.file,
                    at: place.at + count,
                });
                Ok(count)
            }
            _ => Err(self.schedule.fail()),
        }
    }
}
