ghost use Rattle.std.specs.Prelude.{◌≡◌, ◌≤◌, ◌++◌, [], length, OnOk};
ghost use Rattle.eq_watch.specs.Watching.{Grew};
ghost use Rattle.eq_watch.specs.Profiling.{profile_with};
ghost use Rattle.eq_watch.specs.Using.{IsInOrder, IsPlaceOf, used_line};

use crate::event::Event;
use crate::text::push_counted;
use crate::watch::Watch;
use eq_base::NoMemory;
use std::alloc::Global;
use std::marker::Model;

/// An equation that was used, and how often.
#[derive(Clone, Copy)]
struct Used {
    equation: usize,
    times: u64,
}

/// The watch `profile`, which counts how often each equation is used. Its counts stop at 2^64 - 1.
#[derive(Drop)]
pub struct Profile {
    used: Vec<Used>,
}

impl Model for Profile {
    ghost use Rattle.std.specs.Prelude.{List, ℕ};

    ghost Value = { List ℕ };

    ghost use Rattle.eq_watch.specs.Using.{counts_of, IsInOrder};

    ghost view = { λ p. counts_of p.used.items };

    ghost invariant = { λ p. IsInOrder p.used.items };
}

impl Profile {
    /// A watch that was told of nothing.
    pub fn new(alloc: Global) -> Profile
        ensures { result ≡ [] }
    {
        Profile {
            used: Vec::new(alloc),
        }
    }
}

/// Where an equation stands, or would stand.
fn place_of(equation: usize, all: &[Used]) -> usize
    requires { IsInOrder all.now }
    ensures bound { result ≤ length all.now }
    ensures place { IsPlaceOf equation all.now result }
{
    all.partition_point(|used| used.equation < equation)
}

/// Appends the line of an equation.
fn write_used(used: &Used, into: &mut Vec<u8>) -> Result<(), NoMemory>
    ensures ok { OnOk result (into.new.items ≡ into.old.items ++ used_line used.now) }
    ensures front { Grew into.old.items into.new.items }
{
    push_counted(into, "equation ", used.equation as u64)?;
    push_counted(into, " used ", used.times)?;
    into.push(b'\n')?;
    Ok(())
}

impl Watch for Profile {
    ghost state = { profile_with };

    fn name_is(&self, name: &str) -> bool {
        name == "profile"
    }

    fn clear(&mut self) {
        self.used.clear();
    }

    fn seen(&mut self, event: Event) -> Result<(), NoMemory> {
        let equation = event.equation;
        let at = place_of(equation, &self.used);
        if at < self.used.len() && self.used[at].equation == equation {
            let times = self.used[at].times.saturating_add(1);
            self.used[at] = Used { equation, times };
        } else {
            self.used.insert(at, Used { equation, times: 1 })?;
        }
        Ok(())
    }

    fn report(&self, into: &mut Vec<u8>) -> Result<(), NoMemory> {
        for used in &self.used {
            write_used(used, into)?;
        }
        Ok(())
    }
}
