// Levels of a graph's places that do not grow along edges, so that a circle stays on one level.
ghost use Rattle.std.specs.Prelude.{◌≡◌, ◌<◌, ◌≤◌, ◌↔◌, All, IfOk, IsTrue};
ghost use Rattle.qualifiers.specs.Graphs.{level_at, AreFalling};

use eq_base::NoMemory;
use std::alloc::Global;

/// More steps than twice the places and the edges: a file has fewer bytes.
const STEPS: usize = 67_108_864;

/// The number at the place, as its level, and 0 past the end.
pub fn number_at(levels: &[usize], place: usize) -> usize
    ensures { result ≡ level_at levels.now place }
{
    match levels.get(place) {
        Some(level) => *level,
        None => 0,
    }
}

/// Whether the places are all on lower levels than that.
pub fn are_lower(places: &[usize], levels: &[usize], level: usize) -> bool
    ensures { IsTrue result ↔ All (λ j. level_at levels.now j < level) places.now }
{
    places.iter().all(|place| number_at(levels, *place) < level)
}

/// Whether none of the places is on a higher level than that.
fn are_not_higher(places: &[usize], levels: &[usize], level: usize) -> bool
    ensures { IsTrue result ↔ All (λ j. level_at levels.now j ≤ level) places.now }
{
    places
        .iter()
        .all(|place| number_at(levels, *place) <= level)
}

/// Whether the levels do not grow along the graph's edges.
fn are_falling(graph: &[Vec<usize>], levels: &[usize]) -> bool
    ensures { IsTrue result ↔ AreFalling graph.now levels.now }
{
    for place in 0..graph.len() {
        if !are_not_higher(&graph[place], levels, number_at(levels, place)) {
            return false;
        }
    }
    true
}

/// A walk along the edges, which numbers the components in which edges lead from each place to each other one. What it
/// answers is checked, so nothing is promised of it.
#[derive(Drop)]
struct Walk {
    /// How many places were met.
    met: usize,
    /// At each place, its number in the order in which they were met, from 1 on; 0 before that.
    order: Vec<usize>,
    /// At each place, the least of these numbers that is known in its component; the most there is, once it is complete.
    least: Vec<usize>,
    /// The places that were met and whose component is not complete.
    open: Vec<usize>,
    /// How many components are complete.
    complete: usize,
    /// At each place, how many components were complete before its own one.
    levels: Vec<usize>,
}

/// Puts the number in the place, if there is such a place.
fn put(numbers: &mut [usize], place: usize, number: usize) {
    if let Some(kept) = numbers.get_mut(place) {
        *kept = number;
    }
}

impl Walk {
    /// A walk that met none of so many places.
    fn new(alloc: Global, places: usize) -> Result<Walk, NoMemory> {
        Ok(Walk {
            met: 0,
            order: vec![in alloc; 0; places]?,
            least: vec![in alloc; 0; places]?,
            open: Vec::new(alloc),
            complete: 0,
            levels: vec![in alloc; 0; places]?,
        })
    }

    /// Meets the place, and lays it on the way.
    fn meet(&mut self, place: usize, way: &mut Vec<(usize, usize)>) -> Result<(), NoMemory> {
        self.met = self.met.saturating_add(1);
        put(&mut self.order, place, self.met);
        put(&mut self.least, place, self.met);
        self.open.push(place)?;
        way.push((place, 0))?;
        Ok(())
    }

    /// Takes over the least number of a place that follows.
    fn join(&mut self, place: usize, follower: usize) {
        let least = number_at(&self.least, place).min(number_at(&self.least, follower));
        put(&mut self.least, place, least);
    }

    /// Leaves the place, whose edges were all walked along. Where it is the first of its component that was met, the
    /// component is complete: it and what is open over it.
    fn leave(&mut self, place: usize) {
        if number_at(&self.least, place) != number_at(&self.order, place) {
            return;
        }
        while let Some(member) = self.open.pop() {
            put(&mut self.least, member, usize::MAX);
            put(&mut self.levels, member, self.complete);
            if member == place {
                break;
            }
        }
        self.complete = self.complete.saturating_add(1);
    }

    /// Goes along the edge with the number, or leaves the place behind its last one. A place that is met comes back to
    /// the same edge, and is joined then.
    fn step(
        &mut self,
        followers: &[usize],
        place: usize,
        edge: usize,
        way: &mut Vec<(usize, usize)>,
    ) -> Result<(), NoMemory> {
        let Some(follower) = followers.get(edge) else {
            self.leave(place);
            return Ok(());
        };
        if number_at(&self.order, *follower) == 0 {
            way.push((place, edge))?;
            return self.meet(*follower, way);
        }
        self.join(place, *follower);
        way.push((place, edge + 1))?;
        Ok(())
    }

    /// Walks from the place along all edges to places that were not met before.
    fn walk_from(
        &mut self,
        alloc: Global,
        graph: &[Vec<usize>],
        start: usize,
    ) -> Result<(), NoMemory> {
        if number_at(&self.order, start) != 0 {
            return Ok(());
        }
        let mut way = Vec::new(alloc);
        self.meet(start, &mut way)?;
        for _ in 0..STEPS {
            let Some((place, edge)) = way.pop() else {
                return Ok(());
            };
            let Some(followers) = graph.get(place) else {
                return Ok(());
            };
            self.step(followers, place, edge, &mut way)?;
        }
        Ok(())
    }
}

/// A guess: the numbers of the places' components, as Tarjan finds them (Depth-first search and linear graph algorithms,
/// 1972), those that edges lead to first. Linear in the places and the edges.
fn guessed_levels(alloc: Global, graph: &[Vec<usize>]) -> Result<Vec<usize>, NoMemory> {
    let mut walk = Walk::new(alloc, graph.len())?;
    for start in 0..graph.len() {
        walk.walk_from(alloc, graph, start)?;
    }
    let Walk { levels, .. } = walk;
    Ok(levels)
}

/// Levels that do not grow along the graph's edges: those that are guessed, if they do not, and else 0 for each place.
pub fn levels_of(alloc: Global, graph: &[Vec<usize>]) -> Result<Vec<usize>, NoMemory>
    ensures { IfOk result (λ levels. AreFalling graph.now levels.items) }
{
    let levels = guessed_levels(alloc, graph)?;
    if are_falling(graph, &levels) {
        return Ok(levels);
    }
    Ok(Vec::new(alloc))
}
