// The nodes of a store.
ghost use Rattle.std.specs.Prelude.{◌≡◌, ℕ, ◌+◌, ◌<◌, ◌≤◌, Bool, true, List, length, set, slice_index_or, OnOk};
ghost use Rattle.eq_base.specs.Tree.{head_of, arity_of};
ghost use Rattle.eq_base.specs.Cells.{TakesArguments};
ghost use Rattle.graph_laws.specs.Numbered.{AreShared, root_number};
ghost use Rattle.term_graph.specs.Graph.{numbered_at, terms_of, term_at, IsFollowed, LeadsTo, IsNumberedArgument};
ghost use Rattle.graph_laws.specs.Runs.{IsPut};

use crate::content::{Content, Met, follow};
use eq_base::{Flat, Head, NoMemory, TermView};
use std::alloc::Global;
use std::marker::Model;

/// Terms as a graph whose nodes are shared and overwritten in place. Contracts see the numbered trees of the
/// nodes.
#[derive(Drop)]
pub struct Store {
    pub(crate) nodes: Vec<Content>,
    pub(crate) args: Vec<usize>,
    pub(crate) marks: Vec<bool>,
    // Nodes that wait while a side is walked.
    pub(crate) pending: Vec<usize>,
    // What the variables of a left side met.
    pub(crate) met: Vec<Met>,
}

impl Model for Store {
    ghost use Rattle.std.specs.Prelude.{◌-◌, min, vec_len, vec_capacity};
    ghost use Rattle.eq_base.specs.contracts.head.Head as head_type;
    ghost use Rattle.term_graph.specs.Graph.{Graph, graph_code};
    ghost use Rattle.term_graph.specs.Contents.{trees_of, IsStore};

    ghost Value = { Graph };

    ghost coded = { graph_code head_type.the_row.coded };

    ghost view = { λ s. record {
      trees = trees_of s.args.items s.nodes.items;
      marks = s.marks.items;
      spare = min
          (min (vec_capacity s.nodes - vec_len s.nodes) (vec_capacity s.args - vec_len s.args))
          (min (vec_capacity s.marks - vec_len s.marks) (vec_capacity s.pending));
    } };

    ghost invariant = { λ s. IsStore s.args.items s.nodes.items s.marks.items
        (vec_capacity s.pending) (vec_capacity s.met) };
}

/// What a replacement made.
#[derive(Clone, Copy, PartialEq, Eq, Debug)]
pub struct Made {
    /// The number of the first new node: the length before.
    pub first: usize,
    /// How many nodes are new.
    pub made: usize,
}

impl Store {
    /// The number of nodes.
    pub fn len(&self) -> usize
        ensures value { result ≡ length self.now.trees }
        ensures shared { AreShared self.now.trees }
        ensures marks { length self.now.marks ≡ length self.now.trees }
    {
        self.nodes.len()
    }

    /// Makes room for replacements by right sides of so many cells together.
    ///
    /// # Errors
    ///
    /// Out of memory; the room does not shrink.
    pub fn reserve(&mut self, cells: usize) -> Result<(), NoMemory>
        ensures trees { self.new.trees ≡ self.old.trees }
        ensures marks { self.new.marks ≡ self.old.marks }
        ensures spare { self.old.spare ≤ self.new.spare }
        ensures ok { OnOk result (cells ≤ self.new.spare) }
    {
        self.nodes.reserve(cells)?;
        self.args.reserve(cells)?;
        self.marks.reserve(cells)?;
        self.pending.reserve(cells)?;
        Ok(())
    }

    /// The node to which indirections lead.
    pub fn follow(&self, node: usize) -> usize
        requires { node < length self.now.trees }
        ensures number { result ≡ root_number (numbered_at self.now node) }
        ensures leads { LeadsTo self.now node result }
    {
        follow(&self.nodes, node)
    }

    /// The head of the term for which a node stands.
    pub fn head(&self, node: usize) -> Head
        requires { node < length (terms_of self.now) }
        ensures { result ≡ head_of (term_at self.now node) }
    {
        self.nodes[follow(&self.nodes, node)].head()
    }

    /// The number of arguments. It is 0 unless the head is a symbol.
    pub fn arity(&self, node: usize) -> u8
        requires { node < length (terms_of self.now) }
        ensures value { result ≡ arity_of (term_at self.now node) }
        ensures taken { TakesArguments (head_of (term_at self.now node)) result }
    {
        self.nodes[follow(&self.nodes, node)].arity()
    }

    /// The node of an argument, counted from 0. It is no indirection.
    pub fn arg(&self, node: usize, i: usize) -> usize
        requires node { node < length (terms_of self.now) }
        requires arity { i < arity_of (term_at self.now node) }
        ensures { IsNumberedArgument self.now node i result }
    {
        let at = follow(&self.nodes, node);
        let first = self.nodes[at].first();
        follow(&self.nodes, self.args[first + i])
    }

    /// Whether a node is marked.
    pub fn is_marked(&self, node: usize) -> bool
        requires { node < length self.now.trees }
        ensures { (d : Bool) → result ≡ slice_index_or self.now.marks node d }
    {
        self.marks[node]
    }

    /// Marks a node.
    pub fn mark(&mut self, node: usize)
        requires { node < length self.old.trees }
        ensures trees { self.new.trees ≡ self.old.trees }
        ensures marks { self.new.marks ≡ set self.old.marks node true }
        ensures spare { self.new.spare ≡ self.old.spare }
    {
        self.marks[node] = true;
    }

    /// Overwrites a node by a constant.
    pub fn put(&mut self, node: usize, head: Head) -> Made
        requires { IsFollowed self.old node }
        ensures trees { IsPut head node self.old.trees self.new.trees }
        ensures marks { self.new.marks ≡ self.old.marks }
        ensures spare { self.new.spare ≡ self.old.spare }
        ensures first { result.first ≡ length self.old.trees }
        ensures made { result.made ≡ 0 }
    {
        self.nodes[node] = Content::of(head, 0, 0);
        Made {
            first: self.nodes.len(),
            made: 0,
        }
    }
}

impl TermView for Store {
    ghost use Rattle.term_graph.specs.Graph.{terms_of};

    ghost trees = { terms_of };

    fn head(&self, node: usize) -> Head {
        Store::head(self, node)
    }

    fn arity(&self, node: usize) -> u8 {
        Store::arity(self, node)
    }

    fn arg(&self, node: usize, i: usize) -> usize {
        Store::arg(self, node, i)
    }
}
