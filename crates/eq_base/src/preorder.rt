// Trees as vectors of their cells in preorder.
ghost use Rattle.std.specs.Prelude.{◌≡◌};
ghost use Rattle.eq_base.specs.Preorder.{labels, IsWhole, EndsFrom};

/// A cell of a preorder vector.
#[derive(Clone, Copy)]
pub struct Node<T> {
    /// What stands in the cell.
    pub item: T,
    /// How many arguments it has.
    pub arity: u8,
    /// The number after the last cell of its subtree.
    pub end: usize,
}

/// Stores each cell's end, from the last cell to the first: it is where the last argument ends.
pub fn fill_ends<T>(nodes: &mut [Node<T>])
    requires { IsWhole (labels nodes.old) }
    ensures labels { labels nodes.new ≡ labels nodes.old }
    ensures ends { EndsFrom 0 nodes.new }
{
    for at in (0..nodes.len()).rev() {
        let mut next = at + 1;
        for _ in 0..nodes[at].arity {
            next = nodes[next].end;
        }
        nodes[at].end = next;
    }
}
