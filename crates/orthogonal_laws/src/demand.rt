// The redex that the left sides ask for.
//
// A node below another is demanded there where some left side is tested at it and is met at all its
// tested positions before. The demanded redex of a node is the node itself where it has a root
// step, and else the demanded redex of the first demanded node that has one.
//
// No left side overlaps with a part of another, and all are told apart in preorder. So of the nodes
// that are demanded, those before the last one at which a left side fails are met by a part of a
// left side, and have no demanded redex, unless that last one lies below them.
ghost use Rattle.std.specs.Prelude.{◌<◌, ◌+◌, ℕ, MatchOption};
ghost use Rattle.eq_base.specs.Tree.{size, nth_subtree};
ghost use Rattle.eq_base.specs.Rules.{system_of};
ghost use Rattle.symbol_table.specs.Table.{HasOneNumberEach};
ghost use Rattle.symbol_table.specs.Reading.{IsLiveTerm};
ghost use Rattle.sequentiality.specs.Regular.{AreRegular};
ghost use Rattle.orthogonal_laws.specs.Operations.{Values};
ghost use Rattle.orthogonal_laws.specs.Results.{AreValuesBy};
ghost use Rattle.orthogonal_laws.specs.Strategy.{HasNoDemandedRedex};
ghost use Rattle.orthogonal_laws.specs.Looking.{IsLook};
ghost use Rattle.orthogonal_laws.specs.Demanded.{IsDemandedFit, IsArgumentToward};

use crate::matching::{Look, look_at};
use crate::values::has_result;
use eq_base::{Flat, Rules};
use symbol_table::Symbols;

/// A redex: a node, and the first equation that fits there.
#[derive(Clone, Copy)]
pub struct Fit {
    /// The node's number in preorder.
    pub at: usize,
    /// The equation's number, counted from 0.
    pub equation: usize,
}

/// The demanded redex of a node: the first redex on the way from it to the last of the nodes at which
/// left sides fail that are met on this way. Where an operation has no value, the way ends.
pub fn demanded_redex(rules: &Rules, symbols: &Symbols, term: &Flat, at: usize) -> Option<Fit>
    requires regular { AreRegular rules.now }
    requires distinct { HasOneNumberEach symbols.now }
    requires live { IsLiveTerm symbols.now term.now }
    requires at { at < size term.now }
    ensures { (values : Values) → AreValuesBy symbols.now values →
        MatchOption result
        (HasNoDemandedRedex (system_of values rules.now) (nth_subtree term.now at))
        (IsDemandedFit (system_of values rules.now) term.now at) }
{
    let mut node = at;
    let mut last = at;
    loop {
        match look_at(rules, term, node) {
            Look::Meets(number) => {
                if !has_result(rules.equation(number), symbols, term, node) {
                    return None;
                }
                return Some(Fit {
                    at: node,
                    equation: number,
                });
            }
            Look::Fails(failing) => last = last.max(failing),
        }
        if last == node {
            return None;
        }
        node = argument_toward(term, node, last);
    }
}

/// The last of the nodes at which the left sides at a node first fail; none where one is met there.
pub fn last_failure(rules: &Rules, term: &Flat, at: usize) -> Option<usize>
    requires regular { AreRegular rules.now }
    requires at { at < size term.now }
    ensures { MatchOption result
        ((number : ℕ) × IsLook rules.now term.now at (Look.Meets number))
        (λ last. IsLook rules.now term.now at (Look.Fails last)) }
{
    match look_at(rules, term, at) {
        Look::Meets(_) => None,
        Look::Fails(last) => Some(last),
    }
}

/// The argument of a node in which a node below it lies.
pub fn argument_toward(term: &Flat, at: usize, node: usize) -> usize
    requires below { at < node }
    requires at { at < size term.now }
    requires within { node < at + size (nth_subtree term.now at) }
    ensures { IsArgumentToward term.now at node result }
{
    let mut argument = at + 1;
    while term.end_of(argument) <= node {
        argument = term.end_of(argument);
    }
    argument
}
