// Vectors of cells in preorder that are being filled.
ghost use Rattle.std.specs.Prelude.{◌≡◌, ◌<◌, [], ◌∷◌, ◌++◌, OnOk, OnErr};
ghost use Rattle.eq_base.specs.Preorder.{labels, tree_of, IsPreorder};
ghost use Rattle.eq_base.specs.Building.{missing_of};

use crate::head::NoMemory;
use crate::preorder::{Node, fill_ends};
use std::alloc::Global;
use std::marker::Model;

/// The cells of a tree so far, in preorder.
#[derive(Drop)]
pub struct Begun<T: Copy> {
    nodes: Vec<Node<T>>,
    missing: u128,
}

impl<T: Copy> Model for Begun<T> {
    ghost use Rattle.std.specs.Prelude.{ℕ, List};
    ghost use Rattle.eq_base.specs.Preorder.{labels, IsBegun};

    ghost Value = { List (T × ℕ) };

    ghost view = { λ b. labels b.nodes.items };

    ghost invariant = { λ b. IsBegun (labels b.nodes.items) b.missing };
}

impl<T: Copy> Begun<T> {
    /// No cells, with one tree missing. It takes no memory.
    pub fn new(alloc: Global) -> Begun<T>
        ensures { result ≡ [] }
    {
        Begun {
            nodes: Vec::new(alloc),
            missing: 1,
        }
    }

    /// How many trees are missing.
    pub fn missing(&self) -> u128
        ensures { result ≡ missing_of self.now }
    {
        self.missing
    }

    /// Fills the first missing tree by a cell over as many missing trees as it has arguments, in
    /// amortised constant time.
    pub fn push(&mut self, item: T, arity: u8) -> Result<(), NoMemory>
        requires { 0 < missing_of self.old }
        ensures ok { OnOk result (self.new ≡ self.old ++ (item, arity) ∷ []) }
        ensures err { OnErr result (self.new ≡ self.old) }
    {
        let node = Node {
            item,
            arity,
            end: 0,
        };
        self.nodes.push(node)?;
        self.missing = self.missing - 1 + u128::from(arity);
        Ok(())
    }

    /// The vector of the tree, where none is missing, in linear time and with no more memory.
    pub fn finish(self) -> Vec<Node<T>>
        requires { missing_of self ≡ 0 }
        ensures labels { labels result.items ≡ self }
        ensures whole { (default : T) → IsPreorder (tree_of default result.items) result.items }
    {
        let Begun {
            mut nodes,
            missing: _,
        } = self;
        fill_ends(&mut nodes);
        nodes
    }
}
