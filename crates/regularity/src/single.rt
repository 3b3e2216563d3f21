// Equations one by one: RE1 and RE2.
ghost use Rattle.std.specs.Prelude.{◌≡◌, ℕ, ◌+◌, ◌<◌, ◌≤◌, ◌↔◌, IsTrue, OnOk, IfOk, length};
ghost use Rattle.eq_base.specs.Tree.{size};
ghost use Rattle.eq_base.specs.Rules.{right_side};
ghost use Rattle.regularity.specs.Occurrences.{OccursBefore, Repeats, IsUnbound};
ghost use Rattle.regularity.specs.Restrictions.{HasUnbound};
ghost use Rattle.regularity.specs.Single.{IsSingle, TellSingles};
ghost use Rattle.regularity.specs.Violations.{IsOfOne};
ghost use Rattle.regularity.specs.Listing.{Lists};
ghost use Rattle.regularity.specs.Looking.{ListsBefore};
ghost use Rattle.regularity.specs.WellFormed.{AreWellFormed};

use crate::breaks::{Break, Breaks};
use eq_base::{Equation, NoMemory, Pattern, Right, Rules};
use std::alloc::Global;

// The numbers of the restrictions.
const REPEATED: u8 = 1;

const UNBOUND: u8 = 2;

/// The breaks of RE1 and RE2, in order.
pub fn check_single(alloc: Global, rules: &Rules) -> Result<Breaks, NoMemory>
    requires { AreWellFormed rules.now }
    ensures { IfOk result (λ found. Lists (IsOfOne rules.now) found) }
{
    let mut found = Breaks::new(alloc);
    for first in 0..rules.len() {
        push_repeated(&mut found, rules, first)?;
    }
    push_all_unbound(&mut found, rules)?;
    Ok(found)
}

// Adds the breaks of RE2.
fn push_all_unbound(found: &mut Breaks, rules: &Rules) -> Result<(), NoMemory>
    requires rules { AreWellFormed rules.now }
    requires before { ListsBefore (IsOfOne rules.now) 2 0 0 0 found.old }
    ensures { OnOk result (Lists (IsOfOne rules.now) found.new) }
{
    for first in 0..rules.len() {
        push_unbound(found, rules, first)?;
    }
    Ok(())
}

// Adds the breaks of RE1 by one equation.
fn push_repeated(found: &mut Breaks, rules: &Rules, first: usize) -> Result<(), NoMemory>
    requires rules { AreWellFormed rules.now }
    requires first { first < length rules.now.equations }
    requires before { ListsBefore (IsOfOne rules.now) 1 first 0 first found.old }
    ensures { OnOk result (ListsBefore (IsOfOne rules.now) 1 (first + 1) 0 (first + 1) found.new) }
{
    let left = &rules.equation(first).left;
    for place in 0..left.len() {
        if repeats(left, place) {
            found.push(Break::new(REPEATED, first, place, first))?;
        }
    }
    Ok(())
}

// Adds the breaks of RE2 by one equation.
fn push_unbound(found: &mut Breaks, rules: &Rules, first: usize) -> Result<(), NoMemory>
    requires rules { AreWellFormed rules.now }
    requires first { first < length rules.now.equations }
    requires before { ListsBefore (IsOfOne rules.now) 2 first 0 first found.old }
    ensures { OnOk result (ListsBefore (IsOfOne rules.now) 2 (first + 1) 0 (first + 1) found.new) }
{
    let equation = rules.equation(first);
    let Right::Tree(right) = &equation.right else {
        return Ok(());
    };
    for place in 0..right.len() {
        if is_unbound(&equation.left, right, place) {
            found.push(Break::new(UNBOUND, first, place, first))?;
        }
    }
    Ok(())
}

/// Which equations break neither RE1 nor RE2.
pub fn tell_singles(alloc: Global, rules: &Rules) -> Result<Vec<bool>, NoMemory>
    ensures { IfOk result (λ singles. TellSingles rules.now.equations singles.items) }
{
    let mut singles = Vec::new(alloc);
    for number in 0..rules.len() {
        singles.push(is_single(rules.equation(number)))?;
    }
    Ok(singles)
}

// Whether an equation breaks neither RE1 nor RE2.
fn is_single(equation: &Equation) -> bool
    ensures { IsTrue result ↔ IsSingle equation.now }
{
    is_linear(&equation.left) && is_bound(equation)
}

// Whether no variable occurs twice.
fn is_linear(left: &Pattern) -> bool
    ensures { IsTrue result ↔ ((at : ℕ) → Repeats left.now at → ⊥) }
{
    for place in 0..left.len() {
        if repeats(left, place) {
            return false;
        }
    }
    true
}

// Whether each variable of the right side occurs on the left side.
fn is_bound(equation: &Equation) -> bool
    ensures { IsTrue result
        ↔ ((at : ℕ) → HasUnbound equation.now.left (right_side equation.now.right) at → ⊥) }
{
    let Right::Tree(right) = &equation.right else {
        return true;
    };
    for place in 0..right.len() {
        if is_unbound(&equation.left, right, place) {
            return false;
        }
    }
    true
}

// Whether the variable at a position occurs before.
fn repeats(left: &Pattern, place: usize) -> bool
    requires { place < size left.now }
    ensures { IsTrue result ↔ Repeats left.now place }
{
    match left.cell(place).variable() {
        Some(variable) => occurs_before(left, place, variable),
        None => false,
    }
}

// Whether the variable at a position of a right side does not occur on the left side.
fn is_unbound(left: &Pattern, right: &Pattern, place: usize) -> bool
    requires { place < size right.now }
    ensures { IsTrue result ↔ IsUnbound left.now right.now place }
{
    match right.cell(place).variable() {
        Some(variable) => !occurs_before(left, left.len(), variable),
        None => false,
    }
}

// Whether a variable occurs before a position.
fn occurs_before(pattern: &Pattern, end: usize, variable: u32) -> bool
    requires { end ≤ size pattern.now }
    ensures { IsTrue result ↔ OccursBefore pattern.now end variable }
{
    for at in 0..end {
        if pattern.cell(at).variable() == Some(variable) {
            return true;
        }
    }
    false
}
