// What the variables of a left side meet in a graph.
ghost use Rattle.std.specs.Prelude.{◌≡◌, ℕ, ◌+◌, ◌<◌, ◌≤◌, take, drop, length, slice_index_or, vec_len, vec_capacity};
ghost use Rattle.std.specs.List.{AllByRecursion};
ghost use Rattle.eq_base.specs.Tree.{size};
ghost use Rattle.eq_base.specs.Pattern.{Substitution, variables};
ghost use Rattle.eq_base.specs.declared.head.Head.{Head};
ghost use Rattle.regularity.specs.WellFormed.{HasSymbolRoot};
ghost use Rattle.term_graph.specs.declared.content.Content.TheVariants.{Symbol};
ghost use Rattle.graph_laws.specs.Replacing.{MeetsWith};
ghost use Rattle.term_graph.specs.Contents.{IsOwn, HasArgumentsWithin, IsChained, AreNodes, arity_of_content, first_in};
ghost use Rattle.term_graph.specs.Binding.{node_tree, met_node, IsBound, ArePushed};

use crate::content::{Content, Met, follow};
use eq_base::Pattern;

/// Finds the nodes that the variables of a left side meet at a node, where the left side fits. It takes no
/// memory.
pub fn bind(
    nodes: &[Content],
    args: &[usize],
    left: &Pattern,
    node: usize,
    pending: &mut Vec<usize>,
    met: &mut Vec<Met>,
)
    requires kept { AreNodes args.now nodes.now }
    requires there { node < length nodes.now }
    requires own { IsOwn (slice_index_or nodes.now node (Symbol 0 0 0)) }
    requires root { HasSymbolRoot left.now }
    requires fits { (σ : Substitution (Head × ℕ)) × MeetsWith σ left.now (node_tree args.now nodes.now node) }
    requires pending { size left.now ≤ vec_capacity pending.old }
    requires met { size left.now ≤ vec_capacity met.old }
    ensures bound { (σ : Substitution (Head × ℕ)) → MeetsWith σ left.now (node_tree args.now nodes.now node)
        → AllByRecursion (IsBound args.now nodes.now node σ met.new.items) (variables left.now) }
    ensures pending { vec_capacity pending.new ≡ vec_capacity pending.old }
    ensures met { vec_capacity met.new ≡ vec_capacity met.old }
{
    pending.clear();
    met.clear();
    push_arguments(nodes, args, nodes[node], pending);
    for i in 1..left.len() {
        let Some(at) = pending.pop() else {
            unreachable!()
        };
        match left.cell(i).variable() {
            None => push_arguments(nodes, args, nodes[at], pending),
            Some(variable) => met.push_reserved(Met { variable, node: at }),
        }
    }
}

// Pushes the nodes of a node's arguments, the first one last.
fn push_arguments(nodes: &[Content], args: &[usize], content: Content, pending: &mut Vec<usize>)
    requires chained { IsChained nodes.now }
    requires within { HasArgumentsWithin (length args.now) content }
    requires there { AllByRecursion (λ m. m < length nodes.now)
        (take (arity_of_content content) (drop (first_in content) args.now)) }
    requires room { vec_len pending.old + arity_of_content content ≤ vec_capacity pending.old }
    ensures pushed { ArePushed nodes.now (take (arity_of_content content) (drop (first_in content) args.now))
        pending.old.items pending.new.items }
    ensures capacity { vec_capacity pending.new ≡ vec_capacity pending.old }
{
    let first = content.first();
    let mut k = usize::from(content.arity());
    while k > 0 {
        k -= 1;
        pending.push_reserved(follow(nodes, args[first + k]));
    }
}

/// The node that a variable met, or 0 where it met none.
pub fn met_by(met: &[Met], variable: u32) -> usize
    ensures { result ≡ met_node met.now variable }
{
    for entry in met {
        if entry.variable == variable {
            return entry.node;
        }
    }
    0
}
