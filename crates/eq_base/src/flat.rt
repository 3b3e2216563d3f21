// Ground terms as vectors in preorder.
ghost use Rattle.std.specs.Prelude.{◌≡◌, ◌+◌, ◌<◌, [], ◌∷◌, ◌++◌, ◌↔◌, IsTrue, OnOk, OnErr};
ghost use Rattle.eq_base.specs.Tree.{head_of, arity_of, size, cells, nth_subtree};
ghost use Rattle.eq_base.specs.Building.{missing_of};
ghost use Rattle.eq_base.specs.Cells.{TakesArguments};

use crate::head::{Head, NoMemory};
use crate::making::Begun;
use crate::preorder::Node;
use crate::view::TermView;
use std::alloc::Global;
use std::marker::Model;

/// A ground term, as the vector of its nodes in preorder.
#[derive(Drop)]
pub struct Flat {
    nodes: Vec<Node<Head>>,
}

impl Model for Flat {
    ghost use Rattle.eq_base.specs.Tree.{Tree};
    ghost use Rattle.eq_base.specs.Storing.{tree_code};
    ghost use Rattle.eq_base.specs.contracts.head.Head as head_type;
    ghost use Rattle.eq_base.specs.Vectors.{term_of, IsTermVector};
    ghost use Rattle.eq_base.specs.declared.head.Head.{Head};

    ghost Value = { Tree Head };

    ghost coded = { tree_code head_type.the_row.coded };

    ghost view = { λ f. term_of f.nodes.items };

    ghost invariant = { λ f. IsTermVector f.nodes.items };
}

impl Flat {
    /// The number of nodes, at least 1.
    pub fn len(&self) -> usize
        ensures { result ≡ size self.now }
    {
        self.nodes.len()
    }

    /// The head of a node.
    pub fn head(&self, at: usize) -> Head
        requires { at < size self.now }
        ensures { result ≡ head_of (nth_subtree self.now at) }
    {
        self.nodes[at].item
    }

    /// The number of arguments of a node. It is 0 unless the head is a symbol.
    pub fn arity(&self, at: usize) -> u8
        requires { at < size self.now }
        ensures value { result ≡ arity_of (nth_subtree self.now at) }
        ensures taken { TakesArguments (head_of (nth_subtree self.now at)) result }
    {
        self.nodes[at].arity
    }

    /// The number after the last node of the subterm at a node, in constant time.
    pub fn end_of(&self, at: usize) -> usize
        requires { at < size self.now }
        ensures { result ≡ at + size (nth_subtree self.now at) }
    {
        self.nodes[at].end
    }
}

impl TermView for Flat {
    ghost use Rattle.eq_base.specs.Tree.{subtrees};

    ghost trees = { λ t. subtrees t };

    fn head(&self, node: usize) -> Head {
        self.nodes[node].item
    }

    fn arity(&self, node: usize) -> u8 {
        self.nodes[node].arity
    }

    fn arg(&self, node: usize, i: usize) -> usize {
        let nodes = self.nodes.as_slice();
        let mut at = node + 1;
        for _ in 0..i {
            at = nodes[at].end;
        }
        at
    }
}

/// Builds a ground term from its heads in preorder.
#[derive(Drop)]
pub struct FlatMaker {
    begun: Begun<Head>,
}

impl Model for FlatMaker {
    ghost use Rattle.std.specs.Prelude.{ℕ, List};
    ghost use Rattle.eq_base.specs.Vectors.{TakeArguments};
    ghost use Rattle.eq_base.specs.declared.head.Head.{Head};

    ghost Value = { List (Head × ℕ) };

    ghost view = { λ m. m.begun };

    ghost invariant = { λ m. TakeArguments m.begun };
}

impl FlatMaker {
    /// A maker with one term missing. It takes no memory.
    pub fn new(alloc: Global) -> FlatMaker
        ensures { result ≡ [] }
    {
        FlatMaker {
            begun: Begun::new(alloc),
        }
    }

    /// How many terms are missing.
    pub fn missing(&self) -> u128
        ensures { result ≡ missing_of self.now }
    {
        self.begun.missing()
    }

    /// Fills the first missing term by a head over as many missing terms as it has arguments,
    /// in amortised constant time.
    pub fn push_cell(&mut self, head: Head, arity: u8) -> Result<(), NoMemory>
        requires missing { 0 < missing_of self.old }
        requires taken { TakesArguments head arity }
        ensures ok { OnOk result (self.new ≡ self.old ++ (head, arity) ∷ []) }
        ensures err { OnErr result (self.new ≡ self.old) }
    {
        self.begun.push(head, arity)?;
        Ok(())
    }

    /// The term, where none is missing, in linear time and with no more memory.
    pub fn finish(self) -> Flat
        requires { missing_of self ≡ 0 }
        ensures { cells result ≡ self }
    {
        let FlatMaker { begun } = self;
        Flat {
            nodes: begun.finish(),
        }
    }
}

/// Whether two terms have the same heads, compared by their numbers, at the same positions.
pub fn same_tree(one: &Flat, other: &Flat) -> bool
    ensures { IsTrue result ↔ (one.now ≡ other.now) }
{
    if one.len() != other.len() {
        return false;
    }
    for at in 0..one.len() {
        if one.head(at) != other.head(at) || one.arity(at) != other.arity(at) {
            return false;
        }
    }
    true
}
