// The sizes of trees.
ghost use Rattle.std.specs.Prelude.{◌≡◌, ◌<◌, ◌≤◌, ◌^◌, min, length, slice_index_or, take, MatchOption, IfOk};
ghost use Rattle.std.specs.List.{AllByRecursion};
ghost use Rattle.eq_base.specs.Tree.{size};
ghost use Rattle.term_graph.specs.declared.content.Content.TheVariants.{Symbol};
ghost use Rattle.term_graph.specs.Graph.{term_at};
ghost use Rattle.term_graph.specs.Shapes.{references};
ghost use Rattle.term_graph.specs.Contents.{shape_of, AreNodes, HasArgumentsWithin};
ghost use Rattle.term_graph.specs.Binding.{node_tree};
ghost use Rattle.term_graph.specs.Sizes.{capped, size_by, AreKnown, IsNextUnknown};

use crate::content::Content;
use crate::store::Store;
use eq_base::NoMemory;
use std::alloc::Global;

// The most nodes that are counted.
const MOST: u64 = 1 << 40;

impl Store {
    /// The number of nodes of the tree for which a node stands, or 2^40 where it is larger. Each node of the
    /// store is
    /// counted once, however often it is shared.
    ///
    /// # Errors
    ///
    /// Out of memory.
    pub fn tree_size(&self, alloc: Global, node: usize) -> Result<u64, NoMemory>
        requires { node < length self.now.trees }
        ensures { IfOk result (λ n. n ≡ capped (size (term_at self.now node))) }
    {
        count(alloc, &self.nodes, &self.args, node)
    }
}

// A node whose size waits for those of the nodes to which it leads: those before the next one are known.
#[derive(Clone, Copy)]
struct Waiting {
    node: usize,
    next: usize,
}

// The size of a node's tree. Each node is weighed once, and each argument is looked at twice at most.
fn count(alloc: Global, nodes: &[Content], args: &[usize], node: usize) -> Result<u64, NoMemory>
    requires kept { AreNodes args.now nodes.now }
    requires there { node < length nodes.now }
    ensures { IfOk result (λ n. n ≡ capped (size (node_tree args.now nodes.now node))) }
{
    let mut sizes: Vec<u64> = Vec::new(alloc);
    sizes.resize(nodes.len(), 0)?;
    let mut waiting = Vec::new(alloc);
    waiting.push(Waiting { node, next: 0 })?;
    while let Some(last) = waiting.pop() {
        let at = last.node;
        match next_unknown(args, nodes[at], &sizes, last.next) {
            Some(next) => {
                let other = reference(args, nodes[at], next);
                waiting.push(Waiting { node: at, next })?;
                waiting.push(Waiting {
                    node: other,
                    next: 0,
                })?;
            }
            None => sizes[at] = size_of_node(args, nodes[at], &sizes),
        }
    }
    Ok(sizes[node])
}

// How many nodes a node leads to.
fn reference_count(args: &[usize], content: Content) -> usize
    requires { HasArgumentsWithin (length args.now) content }
    ensures { result ≡ length (references (shape_of args.now content)) }
{
    match content {
        Content::Same(_) => 1,
        _ => usize::from(content.arity()),
    }
}

// One of the nodes to which a node leads.
fn reference(args: &[usize], content: Content, k: usize) -> usize
    requires within { HasArgumentsWithin (length args.now) content }
    requires there { k < length (references (shape_of args.now content)) }
    ensures { result ≡ slice_index_or (references (shape_of args.now content)) k 0 }
{
    match content {
        Content::Same(other) => other,
        _ => args[content.first() + k],
    }
}

// Which of the nodes to which a node leads is the first whose size is unknown, where those before one are
// known.
fn next_unknown(args: &[usize], content: Content, sizes: &[u64], from: usize) -> Option<usize>
    requires within { HasArgumentsWithin (length args.now) content }
    requires there { AllByRecursion (λ m. m < length sizes.now) (references (shape_of args.now content)) }
    requires passed { AreKnown sizes.now (take from (references (shape_of args.now content))) }
    ensures { MatchOption result (AreKnown sizes.now (references (shape_of args.now content)))
        (IsNextUnknown sizes.now (references (shape_of args.now content))) }
{
    for k in from..reference_count(args, content) {
        if sizes[reference(args, content, k)] == 0 {
            return Some(k);
        }
    }
    None
}

// The size of a node's tree by those of the nodes to which it leads.
fn size_of_node(args: &[usize], content: Content, sizes: &[u64]) -> u64
    requires within { HasArgumentsWithin (length args.now) content }
    requires there { AllByRecursion (λ m. m < length sizes.now) (references (shape_of args.now content)) }
    ensures { result ≡ size_by sizes.now (shape_of args.now content) }
{
    if let Content::Same(other) = content {
        return sizes[other];
    }
    let mut total = 1;
    for k in 0..reference_count(args, content) {
        let size = sizes[reference(args, content, k)];
        total = if size < MOST - total {
            total + size
        } else {
            MOST
        };
    }
    total
}
