// The nodes of a right side.
ghost use Rattle.std.specs.Prelude.{◌≡◌, ℕ, ◌+◌, ◌-◌, ◌<◌, ◌≤◌, ◌++◌, false, take, drop, reverse, length, replicate, vec_len, vec_capacity};
ghost use Rattle.eq_base.specs.Tree.{size, args_of};
ghost use Rattle.eq_base.specs.Cells.{TakesArguments};
ghost use Rattle.graph_laws.specs.Replacing.{all_head_count};
ghost use Rattle.term_graph.specs.Binding.{met_node};
ghost use Rattle.term_graph.specs.Making.{AreBuilt, heads_upto};

use crate::binding::met_by;
use crate::content::{Content, Met};
use eq_base::{Cell, Pattern};

/// Adds the nodes of a right side but for its root, with numbers in preorder, and answers what the root
/// holds. It takes no memory.
pub fn build(
    nodes: &mut Vec<Content>,
    args: &mut Vec<usize>,
    pending: &mut Vec<usize>,
    met: &[Met],
    right: &Pattern,
) -> Content
    requires nodes { vec_len nodes.old + size right.now ≤ vec_capacity nodes.old }
    requires args { vec_len args.old + size right.now ≤ vec_capacity args.old }
    requires pending { size right.now ≤ vec_capacity pending.old }
    ensures built { AreBuilt (met_node met.now) right.now args.old.items args.new.items
        nodes.old.items nodes.new.items result }
    ensures nodes { vec_capacity nodes.new ≡ vec_capacity nodes.old }
    ensures args { vec_capacity args.new ≡ vec_capacity args.old }
    ensures pending { vec_capacity pending.new ≡ vec_capacity pending.old }
{
    add_places(nodes, right);
    pending.clear();
    let mut next = nodes.len();
    let mut i = right.len();
    while i > 1 {
        i -= 1;
        match right.cell(i) {
            Cell::Head(head, arity) => {
                next -= 1;
                nodes[next] = Content::of(head, arity, take_arguments(args, pending, arity));
                pending.push_reserved(next);
            }
            Cell::Var(variable) => pending.push_reserved(met_by(met, variable)),
            Cell::Class(variable, _) => pending.push_reserved(met_by(met, variable)),
        }
    }
    match right.cell(0) {
        Cell::Head(head, arity) => Content::of(head, arity, take_arguments(args, pending, arity)),
        Cell::Var(variable) => Content::Same(met_by(met, variable)),
        Cell::Class(variable, _) => Content::Same(met_by(met, variable)),
    }
}

// Adds a place for each head of a right side but the root.
fn add_places(nodes: &mut Vec<Content>, right: &Pattern)
    requires { vec_len nodes.old + size right.now ≤ vec_capacity nodes.old }
    ensures places { take (length nodes.old.items) nodes.new.items ≡ nodes.old.items }
    ensures count { length nodes.new.items ≡ length nodes.old.items + all_head_count (args_of right.now) }
    ensures upto { length nodes.new.items
        ≡ length nodes.old.items + heads_upto right.now (size right.now - 1) }
    ensures capacity { vec_capacity nodes.new ≡ vec_capacity nodes.old }
{
    for i in 1..right.len() {
        if let Cell::Head(_, _) = right.cell(i) {
            nodes.push_reserved(Content::Same(0));
        }
    }
}

// Takes the last nodes that wait, as many as there are arguments, and stores them, the last one first.
// Answers where
// they begin.
fn take_arguments(args: &mut Vec<usize>, pending: &mut Vec<usize>, arity: u8) -> usize
    requires enough { arity ≤ vec_len pending.old }
    requires room { vec_len args.old + arity ≤ vec_capacity args.old }
    ensures args { args.new.items ≡ args.old.items ++ take arity (reverse pending.old.items) }
    ensures pending { reverse pending.new.items ≡ drop arity (reverse pending.old.items) }
    ensures first { result ≡ length args.old.items }
    ensures args_capacity { vec_capacity args.new ≡ vec_capacity args.old }
    ensures pending_capacity { vec_capacity pending.new ≡ vec_capacity pending.old }
{
    let first = args.len();
    for _ in 0..arity {
        let Some(node) = pending.pop() else {
            unreachable!()
        };
        args.push_reserved(node);
    }
    first
}
