// Variables in classes, whose cells name the class.
ghost use Rattle.std.specs.Prelude.{◌≡◌, map, IfOk};
ghost use Rattle.eq_base.specs.Tree.{map_heads};
ghost use Rattle.eq_base.specs.Cells.{kind_of, arity_in, tree_cell, CellTakesArguments};
ghost use Rattle.def_file.specs.Definitions.{classed};
ghost use Rattle.def_file.specs.Taking.{classes_in, choices_of, qualifier_of, written_of};

use super::conditions::{Choice, TakenCondition};
use super::items::TakenEquation;
use super::variable_classes::VariableClasses;
use crate::definitions::{Choices, Qualifier, Qualifiers, Written};
use eq_base::{Cell, NoMemory, Pattern, PatternMaker};
use std::alloc::Global;

/// The variables that are in classes, each with the number of its class.
fn classes_of(alloc: Global, conditions: &[TakenCondition]) -> Result<VariableClasses, NoMemory>
    ensures { IfOk result (λ classes. classes ≡ classes_in conditions.now) }
{
    let mut list = Vec::new(alloc);
    for condition in conditions {
        if let Choice::InClass(class) = &condition.choice {
            list.push((condition.variable, *class))?;
        }
    }
    VariableClasses::new(alloc, list)
}

/// The cell, with its variable in its class.
fn classed_cell(classes: &VariableClasses, cell: Cell) -> Cell
    ensures cell { tree_cell result ≡ (classed classes.now (kind_of cell), arity_in cell) }
    ensures taken { CellTakesArguments cell → CellTakesArguments result }
{
    let Cell::Var(variable) = cell else {
        return cell;
    };
    match classes.class(variable) {
        Some(class) => Cell::Class(variable, class),
        None => cell,
    }
}

/// The pattern, with its variables in their classes.
fn classed(alloc: Global, classes: &VariableClasses, pattern: &Pattern) -> Result<Pattern, NoMemory>
    ensures { IfOk result (λ copy. copy ≡ map_heads (classed classes.now) pattern.now) }
{
    let mut maker = PatternMaker::new(alloc);
    for at in 0..pattern.len() {
        maker.push_cell(classed_cell(classes, pattern.cell(at)))?;
    }
    Ok(maker.finish())
}

/// The side, with its variables in their classes. It is copied only where there are classes.
fn classed_side(
    alloc: Global,
    classes: &VariableClasses,
    pattern: Pattern,
) -> Result<Pattern, NoMemory>
    ensures { IfOk result (λ copy. copy ≡ map_heads (classed classes.now) pattern) }
{
    if classes.is_empty() {
        return Ok(pattern);
    }
    classed(alloc, classes, &pattern)
}

/// The patterns, with their variables in their classes.
fn classed_all(
    alloc: Global,
    classes: &VariableClasses,
    patterns: &[Pattern],
) -> Result<Vec<Pattern>, NoMemory>
    ensures { IfOk result (λ copies. copies.items ≡ map (map_heads (classed classes.now)) patterns.now) }
{
    let mut copies = Vec::new(alloc);
    for pattern in patterns {
        let copy = classed(alloc, classes, pattern)?;
        copies.push(copy)?;
    }
    Ok(copies)
}

/// The alternatives, with their variables in their classes.
fn choices(alloc: Global, classes: &VariableClasses, choice: &Choice) -> Result<Choices, NoMemory>
    ensures { IfOk result (λ choices. choices ≡ choices_of classes.now choice.now) }
{
    match choice {
        Choice::InClass(_) => Ok(Choices::new(Vec::new(alloc))),
        Choice::OneOf(patterns) => {
            let alternatives = classed_all(alloc, classes, patterns)?;
            Ok(Choices::new(alternatives))
        }
    }
}

/// The qualifiers of conditions.
fn qualifiers(
    alloc: Global,
    classes: &VariableClasses,
    conditions: &[TakenCondition],
) -> Result<Qualifiers, NoMemory>
    ensures { IfOk result (λ qualifiers. qualifiers ≡ map (qualifier_of classes.now) conditions.now) }
{
    let mut list = Vec::new(alloc);
    for condition in conditions {
        let choices = choices(alloc, classes, &condition.choice)?;
        list.push(Qualifier {
            variable: condition.variable,
            choices,
            byte: condition.byte,
        })?;
    }
    Ok(Qualifiers::new(list))
}

/// The equation that begins at the byte, each of its variables in its class.
pub fn written(alloc: Global, byte: usize, taken: TakenEquation) -> Result<Written, NoMemory>
    ensures { IfOk result (λ equation. equation ≡ written_of byte taken) }
{
    let TakenEquation {
        left,
        right,
        conditions,
    } = taken;
    let classes = classes_of(alloc, &conditions)?;
    let left = classed_side(alloc, &classes, left)?;
    let right = classed_side(alloc, &classes, right)?;
    let qualifiers = qualifiers(alloc, &classes, &conditions)?;
    Ok(Written {
        left,
        right,
        qualifiers,
        byte,
    })
}
