// Where a step leads from an item set.
ghost use Rattle.std.specs.Prelude.{◌≡◌, ◌↔◌, [], IsTrue, OnOk, IfOk};
ghost use Rattle.regularity.specs.WellFormed.{AreWellFormed};
ghost use Rattle.regularity.specs.Looking.{IsPlaceOf};
ghost use Rattle.match_tables.specs.Steps.{LeadsTo};
ghost use Rattle.match_tables.specs.Moving.{AreItemsOf, AreMovedRoots, MovesOn};

use crate::step::{Step, moves};
use eq_base::{NoMemory, Rules};
use std::alloc::Global;

/// An item: an equation, counted from 0, and the number of a cell of its left side, above 0.
pub type Item = (u16, u8);

/// The item set to which a step leads: first the items behind roots, then those behind others.
pub fn further(
    alloc: Global,
    rules: &Rules,
    items: &[Item],
    step: Step,
) -> Result<Vec<Item>, NoMemory>
    requires rules { AreWellFormed rules.now }
    requires items { AreItemsOf rules.now items.now }
    ensures { IfOk result (λ next. LeadsTo rules.now items.now step next.items) }
{
    let mut next = Vec::new(alloc);
    push_behind_roots(&mut next, rules, step)?;
    for item in items {
        if moves_on(rules, item.0 as usize, item.1 as usize, step) {
            next.push((item.0, item.1 + 1))?;
        }
    }
    Ok(next)
}

// Adds the items behind the roots that the step moves on.
fn push_behind_roots(next: &mut Vec<Item>, rules: &Rules, step: Step) -> Result<(), NoMemory>
    requires rules { AreWellFormed rules.now }
    requires none { next.old.items ≡ [] }
    ensures { OnOk result (AreMovedRoots rules.now step next.new.items) }
{
    for equation in 0..rules.len() {
        if moves_on(rules, equation, 0, step) {
            next.push((equation as u16, 1))?;
        }
    }
    Ok(())
}

// Whether the step moves an item on to the next cell.
fn moves_on(rules: &Rules, equation: usize, cell: usize, step: Step) -> bool
    requires { IsPlaceOf rules.now.equations equation cell }
    ensures { IsTrue result ↔ MovesOn rules.now step equation cell }
{
    let left = &rules.equation(equation).left;
    let len = left.len();
    cell + 1 < len && moves(rules.classes(), step, left.cell(cell))
}
