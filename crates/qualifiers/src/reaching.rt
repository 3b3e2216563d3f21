// Whether a place of a graph can be reached from itself.
ghost use Rattle.std.specs.Prelude.{◌<◌, ◌↔◌, length, All, IfOk, OnOk, IsTrue};
ghost use Rattle.qualifiers.specs.Graphs.{IsWithin, LeadsOn, Sees};

use eq_base::NoMemory;
use std::alloc::Global;

/// The places that were seen, and those of them whose followers are still to be looked at.
#[derive(Drop)]
struct Search {
    seen: Vec<bool>,
    pending: Vec<usize>,
}

impl Search {
    /// Sees the places; those that were not seen before are to be looked at.
    fn see(&mut self, places: &[usize]) -> Result<(), NoMemory>
        requires { All (λ j. j < length self.old.seen.items) places.now }
        ensures { OnOk result (Sees places.now self.old.seen.items self.new.seen.items self.old.pending.items
            self.new.pending.items) }
    {
        for place in places {
            if self.seen[*place] {
                continue;
            }
            self.seen[*place] = true;
            self.pending.push(*place)?;
        }
        Ok(())
    }
}

/// Whether edges lead from the place back to itself. Linear in the places and the edges.
pub fn leads_back(alloc: Global, graph: &[Vec<usize>], start: usize) -> Result<bool, NoMemory>
    requires within { IsWithin graph.now }
    requires start { start < length graph.now }
    ensures { IfOk result (λ leads. IsTrue leads ↔ LeadsOn graph.now start start) }
{
    let mut search = Search {
        seen: vec![in alloc; false; graph.len()]?,
        pending: Vec::new(alloc),
    };
    search.see(&graph[start])?;
    while let Some(place) = search.pending.pop() {
        search.see(&graph[place])?;
    }
    Ok(search.seen[start])
}
