// Terms by their nodes, whatever holds them.
ghost use Rattle.std.specs.Prelude.{◌≡◌, ◌<◌, length};
ghost use Rattle.eq_base.specs.Tree.{head_of, arity_of};
ghost use Rattle.eq_base.specs.View.{tree_at, IsArgument};
ghost use Rattle.eq_base.specs.Cells.{TakesArguments};

use crate::head::Head;

/// A list of nodes, each of which stands for a ground term.
pub trait TermView {
    ghost use Rattle.std.specs.Prelude.{List};
    ghost use Rattle.eq_base.specs.Tree.{Tree};
    ghost use Rattle.eq_base.specs.declared.head.Head.{Head};

    // The trees of the nodes.
    ghost trees: { Self → List (Tree Head) };

    /// The head of a node.
    fn head(&self, node: usize) -> Head
        requires { node < length (trees self.now) }
        ensures { result ≡ head_of (tree_at (trees self.now) node) };

    /// The number of arguments of a node. It is 0 unless the head is a symbol.
    fn arity(&self, node: usize) -> u8
        requires { node < length (trees self.now) }
        ensures value { result ≡ arity_of (tree_at (trees self.now) node) }
        ensures taken { TakesArguments (head_of (tree_at (trees self.now) node)) result };

    /// The node of an argument, counted from 0.
    fn arg(&self, node: usize, i: usize) -> usize
        requires node { node < length (trees self.now) }
        requires arity { i < arity_of (tree_at (trees self.now) node) }
        ensures { IsArgument (trees self.now) node i result };
}
