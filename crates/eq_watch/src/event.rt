/// A replacement, as a watch is told of it.
#[derive(Clone, Copy)]
pub struct Event {
    /// Its number among the replacements of the term, from 1.
    pub number: u64,
    /// The equation that was used, by its place in the list of equations, from 1.
    pub equation: usize,
    /// The node that was replaced.
    pub node: usize,
    /// The number of nodes before it, which is that of the first new node.
    pub first_made: usize,
    /// The number of nodes that it added.
    pub made: usize,
}
