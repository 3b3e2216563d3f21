// Replacements in a store.
ghost use Rattle.std.specs.Prelude.{◌≡◌, ◌+◌, ◌≤◌, ◌++◌, false, length, replicate, vec_len, vec_capacity};
ghost use Rattle.eq_base.specs.Tree.{Tree, size};
ghost use Rattle.eq_base.specs.Pattern.{PatternCell};
ghost use Rattle.eq_base.specs.declared.head.Head.{Head};
ghost use Rattle.graph_laws.specs.Replacing.{new_count, IsReplacement};
ghost use Rattle.term_graph.specs.Sides.{HasSides, CanReplace};

use crate::binding::bind;
use crate::building::build;
use crate::store::{Made, Store};
use eq_base::Right;
use sequentiality::Regular;

impl Store {
    /// Overwrites a node by the right side of an equation whose left side fits there, in time linear in the
    /// two sides. It takes no memory: the room becomes smaller by the cells of the right side at most.
    pub fn replace(&mut self, regular: &Regular, node: usize, equation: usize) -> Made
        requires { CanReplace self.old regular.now node equation }
        ensures trees { (left right : Tree (PatternCell Head)) → HasSides regular.now equation left right
            → IsReplacement left right node self.old.trees self.new.trees }
        ensures marks { (left right : Tree (PatternCell Head)) → HasSides regular.now equation left right
            → self.new.marks ≡ self.old.marks ++ replicate (new_count right) false }
        ensures spare { (left right : Tree (PatternCell Head)) → HasSides regular.now equation left right
            → self.old.spare ≤ self.new.spare + size right }
        ensures first { result.first ≡ length self.old.trees }
        ensures made { (left right : Tree (PatternCell Head)) → HasSides regular.now equation left right
            → result.made ≡ new_count right }
    {
        let rule = regular.rules().equation(equation);
        let Right::Tree(right) = &rule.right else {
            unreachable!()
        };
        bind(
            &self.nodes,
            &self.args,
            &rule.left,
            node,
            &mut self.pending,
            &mut self.met,
        );
        let first = self.nodes.len();
        let root = build(
            &mut self.nodes,
            &mut self.args,
            &mut self.pending,
            &self.met,
            right,
        );
        self.nodes[node] = root;
        let made = self.nodes.len() - first;
        add_marks(&mut self.marks, made);
        Made { first, made }
    }
}

// Adds so many nodes without a mark.
fn add_marks(marks: &mut Vec<bool>, count: usize)
    requires { vec_len marks.old + count ≤ vec_capacity marks.old }
    ensures marks { marks.new.items ≡ marks.old.items ++ replicate count false }
    ensures capacity { vec_capacity marks.new ≡ vec_capacity marks.old }
{
    for _ in 0..count {
        marks.push_reserved(false);
    }
}
