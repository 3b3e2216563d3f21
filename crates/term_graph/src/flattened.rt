// Stores of one term.
ghost use Rattle.std.specs.Prelude.{◌≡◌, ◌+◌, ◌<◌, ◌^◌, ◌++◌, false, length, replicate, IfOk, OnOk};
ghost use Rattle.eq_base.specs.Tree.{size, args_of, subtrees, nth_subtree};
ghost use Rattle.term_graph.specs.Flattening.{number_from, root_numbers};

use crate::content::Content;
use crate::store::Store;
use eq_base::{Flat, NoMemory};
use std::alloc::Global;

// How many cells a left side has at most.
const LEFT_CELLS: usize = 255;

impl Store {
    /// The store of a term: its nodes have the numbers of the term's cells in preorder, and none is marked.
    /// It takes
    /// linear time.
    ///
    /// # Errors
    ///
    /// Out of memory.
    pub fn from_flat(alloc: Global, flat: &Flat) -> Result<Store, NoMemory>
        ensures trees { IfOk result (λ store. store.trees ≡ subtrees (number_from 0 flat.now)) }
        ensures marks { IfOk result (λ store. store.marks ≡ replicate (size flat.now) false) }
    {
        let mut nodes = Vec::with_capacity(alloc, flat.len())?;
        let mut args = Vec::with_capacity(alloc, flat.len())?;
        let mut marks = Vec::with_capacity(alloc, flat.len())?;
        for at in 0..flat.len() {
            nodes.push(Content::of(flat.head(at), flat.arity(at), args.len()))?;
            push_numbers(&mut args, flat, at)?;
            marks.push(false)?;
        }
        let pending = Vec::with_capacity(alloc, LEFT_CELLS)?;
        let met = Vec::with_capacity(alloc, LEFT_CELLS)?;
        Ok(Store {
            nodes,
            args,
            marks,
            pending,
            met,
        })
    }
}

// Pushes the numbers of a node's arguments.
fn push_numbers(args: &mut Vec<usize>, flat: &Flat, at: usize) -> Result<(), NoMemory>
    requires there { at < size flat.now }
    requires fits { at + 1 < 2 ^ 64 }
    ensures { OnOk result (args.new.items
        ≡ args.old.items ++ root_numbers (at + 1) (args_of (nth_subtree flat.now at))) }
{
    let mut child = at + 1;
    for _ in 0..flat.arity(at) {
        args.push(child)?;
        child = flat.end_of(child);
    }
    Ok(())
}
