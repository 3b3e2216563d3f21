// What is wrong with the sides of an equation.
ghost use Rattle.std.specs.Prelude.{◌≡◌, ◌↔◌, ℕ, List, ◌∷◌, [], map, IsTrue};
ghost use Rattle.std.specs.List.{flat_map};
ghost use Rattle.eq_base.specs.Limits.{most_left_cells};
ghost use Rattle.symbol_table.specs.Table.{Table};
ghost use Rattle.def_file.specs.Views.{condition, restriction, sides};
ghost use Rattle.def_file.specs.Names.{Known};
ghost use Rattle.def_file.specs.Trees.{Condition as WrittenCondition};
ghost use Rattle.def_file.specs.Pairs.{AreRelated};
ghost use Rattle.def_file.specs.Sides.{Cells, alternatives_in, alternatives_of, limits_of, AnswersLimits};
ghost use Rattle.def_file.specs.Taking.{IsSideTaken, HasDeclaredRoot, TakesChoice, TakesCondition, TakesEquation};
ghost use Rattle.def_file.specs.declared.naming.conditions.TakenCondition.{TakenCondition as TakenValue};
ghost use Rattle.term_lex.specs.declared.syntax.Syntax.{Syntax as SyntaxValue};
ghost use Rattle.def_file.specs.Notations.{notation_of};

use super::conditions::{Choice, TakenCondition};
use super::items::TakenEquation;
use crate::tree::{Condition, Restriction, Sides};
use eq_base::{Cell, Head, MOST_EQUATIONS, MOST_LEFT_CELLS, MOST_RIGHT_CELLS, Pattern};
use term_lex::{Fault, FaultKind};

/// Whether a symbol stands at the root.
fn is_application(pattern: &Pattern) -> bool
    ensures { IsTrue result ↔ HasDeclaredRoot pattern.now }
{
    match pattern.cell(0) {
        Cell::Head(Head::Symbol(_), _) => true,
        _ => false,
    }
}

/// The first of the alternatives that is too long.
fn alternatives_fault(terms: &[usize], patterns: &[Pattern]) -> Option<Fault>
    ensures { (syntax : SyntaxValue) (text : List ℕ) (known : Known) (table : Table)
        → AreRelated (IsSideTaken (notation_of syntax) text known table) terms.now patterns.now
        → AnswersLimits (notation_of syntax) text known (map (Cells most_left_cells) terms.now) result }
{
    for (i, byte) in terms.iter().enumerate() {
        let Some(pattern) = patterns.get(i) else {
            return None;
        };
        if pattern.len() > MOST_LEFT_CELLS {
            return Some(Fault {
                kind: FaultKind::SideLong,
                byte: *byte,
            });
        }
    }
    None
}

/// The first alternative behind `is` that is too long.
fn choice_fault(written: &Restriction, taken: &Choice) -> Option<Fault>
    ensures { (syntax : SyntaxValue) (text : List ℕ) (known : Known) (table : Table)
        → TakesChoice (notation_of syntax) text known table (restriction written.now) taken.now
        → AnswersLimits (notation_of syntax) text known
        (map (Cells most_left_cells) (alternatives_in (restriction written.now))) result }
{
    match (written, taken) {
        (Restriction::OneOf(terms), Choice::OneOf(patterns)) => alternatives_fault(terms, patterns),
        _ => None,
    }
}

/// The first alternative of conditions that is too long.
fn conditions_fault(conditions: &[Condition], taken: &[TakenCondition]) -> Option<Fault>
    ensures { (syntax : SyntaxValue) (text : List ℕ) (known : Known) (table : Table)
        → AreRelated
        (λ (c : WrittenCondition) (t : TakenValue).
        TakesCondition (notation_of syntax) text known table c.variable c.restriction t)
        (map condition conditions.now) taken.now
        → AnswersLimits (notation_of syntax) text known (map (Cells most_left_cells)
        (flat_map alternatives_of (map condition conditions.now))) result }
{
    for (i, written) in conditions.iter().enumerate() {
        let Some(next) = taken.get(i) else {
            return None;
        };
        let fault = choice_fault(&written.restriction, &next.choice);
        if fault.is_some() {
            return fault;
        }
    }
    None
}

/// The first limit that an equation passes, where so many stand before it.
pub fn equation_fault(before: usize, written: &Sides, taken: &TakenEquation) -> Option<Fault>
    ensures { (syntax : SyntaxValue) (text : List ℕ) (known : Known) (table : Table)
        → TakesEquation (notation_of syntax) text known table (sides written.now) taken.now
        → AnswersLimits (notation_of syntax) text known (limits_of before (sides written.now)) result }
{
    if before >= MOST_EQUATIONS {
        return Some(Fault {
            kind: FaultKind::EquationsPast,
            byte: written.left,
        });
    }
    if !is_application(&taken.left) {
        return Some(Fault {
            kind: FaultKind::LeftNotApplication,
            byte: written.left,
        });
    }
    if taken.left.len() > MOST_LEFT_CELLS {
        return Some(Fault {
            kind: FaultKind::SideLong,
            byte: written.left,
        });
    }
    if taken.right.len() > MOST_RIGHT_CELLS {
        return Some(Fault {
            kind: FaultKind::SideLong,
            byte: written.right,
        });
    }
    conditions_fault(&written.conditions, &taken.conditions)
}
