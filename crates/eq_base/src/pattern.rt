// Patterns as vectors in preorder.
ghost use Rattle.std.specs.Prelude.{◌≡◌, ◌+◌, ◌<◌, [], ◌∷◌, ◌++◌, map, OnOk, OnErr};
ghost use Rattle.eq_base.specs.Tree.{arity_of, size, cells, nth_subtree};
ghost use Rattle.eq_base.specs.Building.{missing_of};
ghost use Rattle.eq_base.specs.Cells.{arity_in, root_cell, tree_cell, with_arity, CellTakesArguments};

use crate::head::{Cell, NoMemory};
use crate::kind::Kind;
use crate::making::Begun;
use crate::preorder::Node;
use std::alloc::Global;
use std::marker::Model;

/// A term in which variables may stand, as the vector of its cells in preorder.
#[derive(Drop)]
pub struct Pattern {
    nodes: Vec<Node<Kind>>,
}

impl Model for Pattern {
    ghost use Rattle.eq_base.specs.Tree.{Tree};
    ghost use Rattle.eq_base.specs.Pattern.{PatternCell};
    ghost use Rattle.eq_base.specs.Storing.{tree_code, cell_code};
    ghost use Rattle.eq_base.specs.Vectors.{pattern_of, IsPatternVector};
    ghost use Rattle.eq_base.specs.contracts.head.Head as head_type;
    ghost use Rattle.eq_base.specs.declared.head.Head.{Head};

    ghost Value = { Tree (PatternCell Head) };

    ghost coded = { tree_code (cell_code head_type.the_row.coded) };

    ghost view = { λ p. pattern_of p.nodes.items };

    ghost invariant = { λ p. IsPatternVector p.nodes.items };
}

impl Pattern {
    /// The number of cells, at least 1.
    pub fn len(&self) -> usize
        ensures { result ≡ size self.now }
    {
        self.nodes.len()
    }

    /// The cell with a number in preorder. It has arguments only where its head is a symbol.
    pub fn cell(&self, at: usize) -> Cell
        requires { at < size self.now }
        ensures value { result ≡ root_cell (nth_subtree self.now at) }
        ensures arity { arity_in result ≡ arity_of (nth_subtree self.now at) }
        ensures taken { CellTakesArguments result }
    {
        let node = &self.nodes[at];
        node.item.cell(node.arity)
    }

    /// The number after the last cell of the part at a cell, in constant time.
    pub fn end_of(&self, at: usize) -> usize
        requires { at < size self.now }
        ensures { result ≡ at + size (nth_subtree self.now at) }
    {
        self.nodes[at].end
    }
}

/// Builds a pattern from its cells in preorder.
#[derive(Drop)]
pub struct PatternMaker {
    begun: Begun<Kind>,
}

impl Model for PatternMaker {
    ghost use Rattle.std.specs.Prelude.{List, map};
    ghost use Rattle.eq_base.specs.Kinds.{cell_of};
    ghost use Rattle.eq_base.specs.Vectors.{AreProper};
    ghost use Rattle.eq_base.specs.declared.head.Cell.{Cell};

    ghost Value = { List Cell };

    ghost view = { λ m. map cell_of m.begun };

    ghost invariant = { λ m. AreProper m.begun };
}

impl PatternMaker {
    /// A maker with one pattern missing. It takes no memory.
    pub fn new(alloc: Global) -> PatternMaker
        ensures { result ≡ [] }
    {
        PatternMaker {
            begun: Begun::new(alloc),
        }
    }

    /// How many patterns are missing.
    pub fn missing(&self) -> u128
        ensures { result ≡ missing_of (map with_arity self.now) }
    {
        self.begun.missing()
    }

    /// Fills the first missing pattern by a cell over as many missing patterns as it has arguments,
    /// in amortised constant time.
    pub fn push_cell(&mut self, cell: Cell) -> Result<(), NoMemory>
        requires missing { 0 < missing_of (map with_arity self.old) }
        requires taken { CellTakesArguments cell }
        ensures ok { OnOk result (self.new ≡ self.old ++ cell ∷ []) }
        ensures err { OnErr result (self.new ≡ self.old) }
    {
        self.begun.push(Kind::of(cell), cell.arity())?;
        Ok(())
    }

    /// The pattern, where none is missing, in linear time and with no more memory.
    pub fn finish(self) -> Pattern
        requires { missing_of (map with_arity self) ≡ 0 }
        ensures { cells result ≡ map tree_cell self }
    {
        let PatternMaker { begun } = self;
        Pattern {
            nodes: begun.finish(),
        }
    }
}
