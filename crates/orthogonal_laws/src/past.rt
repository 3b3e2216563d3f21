// Parts of a term that are past the limits.
ghost use Rattle.std.specs.Prelude.{◌<◌, ◌↔◌, IsTrue, MatchOption};
ghost use Rattle.eq_base.specs.Tree.{size, nth_subtree};
ghost use Rattle.eq_base.specs.Operations.{IsPast};
ghost use Rattle.symbol_table.specs.Table.{HasOneNumberEach};
ghost use Rattle.symbol_table.specs.Reading.{read, read_system, AreLive, IsLiveTerm};
ghost use Rattle.sequentiality.specs.Regular.{AreRegular};
ghost use Rattle.orthogonal_laws.specs.Past.{HasNoPast, IsFirstPast};

use crate::matching::{Look, look_at};
use crate::values::value_at;
use builtin::Value;
use eq_base::{Flat, Right, Rules};
use sequentiality::Regular;
use symbol_table::Symbols;

/// The first node, in preorder, whose subterm is an operation with a value past the limits. It takes no
/// memory.
pub fn first_past(regular: &Regular, symbols: &Symbols, term: &Flat) -> Option<usize>
    requires live { AreLive symbols.now regular.now }
    requires live_term { IsLiveTerm symbols.now term.now }
    ensures { MatchOption result
        (HasNoPast (read_system symbols.now regular.now) (read symbols.now term.now))
        (IsFirstPast (read_system symbols.now regular.now) (read symbols.now term.now)) }
{
    symbols.has_one_number_each();
    let rules = regular.rules();
    for at in 0..term.len() {
        if is_past(rules, symbols, term, at) {
            return Some(at);
        }
    }
    None
}

// Whether the subterm at a node is an operation with a value past the limits.
fn is_past(rules: &Rules, symbols: &Symbols, term: &Flat, at: usize) -> bool
    requires regular { AreRegular rules.now }
    requires distinct { HasOneNumberEach symbols.now }
    requires live { AreLive symbols.now rules.now }
    requires live_term { IsLiveTerm symbols.now term.now }
    requires at { at < size term.now }
    ensures { IsTrue result
        ↔ IsPast (read_system symbols.now rules.now) (read symbols.now (nth_subtree term.now at)) }
{
    match look_at(rules, term, at) {
        Look::Fails(_) => false,
        Look::Meets(number) => match &rules.equation(number).right {
            Right::Tree(_) => false,
            Right::Schema(op) => matches!(value_at(*op, symbols, term, at), Value::Past),
        },
    }
}
