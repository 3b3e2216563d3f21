// Equations two by two: RE3 and RE4.
ghost use Rattle.std.specs.Prelude.{◌≡◌, ◌+◌, ◌<◌, ◌↔◌, IsTrue, OnOk, IfOk, length, false, slice_index_or};
ghost use Rattle.eq_base.specs.Meeting.{CellIsTested};
ghost use Rattle.regularity.specs.Arities.{AgreeOnArities};
ghost use Rattle.regularity.specs.Single.{IsSingle, TellSingles};
ghost use Rattle.regularity.specs.Violations.{AreAmbiguous, IsOfTwo};
ghost use Rattle.regularity.specs.Listing.{Lists};
ghost use Rattle.regularity.specs.Looking.{ListsBefore, IsPlaceOf};
ghost use Rattle.regularity.specs.WellFormed.{IsWellFormed, AreWellFormed};

use crate::breaks::{Break, Breaks};
use crate::common::has_common;
use crate::merge::is_same_right;
use crate::single::tell_singles;
use eq_base::{Cell, Classes, Equation, NoMemory, Rules};
use std::alloc::Global;

// The numbers of the restrictions.
const AMBIGUOUS: u8 = 3;

const OVERLAP: u8 = 4;

/// The breaks of RE3 and RE4, in order.
pub fn overlaps(alloc: Global, rules: &Rules) -> Result<Breaks, NoMemory>
    requires { AreWellFormed rules.now }
    ensures { IfOk result (λ found. Lists (IsOfTwo rules.now) found) }
{
    let singles = tell_singles(alloc, rules)?;
    let mut found = Breaks::new(alloc);
    for first in 0..rules.len() {
        push_ambiguous(&mut found, rules, &singles, first)?;
    }
    push_all_overlaps(&mut found, rules, &singles)?;
    Ok(found)
}

// Adds the breaks of RE3 by a first equation and later ones.
fn push_ambiguous(
    found: &mut Breaks,
    rules: &Rules,
    singles: &[bool],
    first: usize,
) -> Result<(), NoMemory>
    requires rules { AreWellFormed rules.now }
    requires singles { TellSingles rules.now.equations singles.now }
    requires first { first < length rules.now.equations }
    requires before { ListsBefore (IsOfTwo rules.now) 3 first 0 0 found.old }
    ensures { OnOk result (ListsBefore (IsOfTwo rules.now) 3 (first + 1) 0 0 found.new) }
{
    if !singles[first] {
        return Ok(());
    }
    let one = rules.equation(first);
    for second in first + 1..rules.len() {
        if singles[second] && are_ambiguous(rules.classes(), one, rules.equation(second)) {
            found.push(Break::new(AMBIGUOUS, first, 0, second))?;
        }
    }
    Ok(())
}

// Adds the breaks of RE4.
fn push_all_overlaps(found: &mut Breaks, rules: &Rules, singles: &[bool]) -> Result<(), NoMemory>
    requires rules { AreWellFormed rules.now }
    requires singles { TellSingles rules.now.equations singles.now }
    requires before { ListsBefore (IsOfTwo rules.now) 4 0 0 0 found.old }
    ensures { OnOk result (Lists (IsOfTwo rules.now) found.new) }
{
    for first in 0..rules.len() {
        push_overlaps(found, rules, singles, first)?;
    }
    Ok(())
}

// Adds the breaks of RE4 by the parts of one left side.
fn push_overlaps(
    found: &mut Breaks,
    rules: &Rules,
    singles: &[bool],
    first: usize,
) -> Result<(), NoMemory>
    requires rules { AreWellFormed rules.now }
    requires singles { TellSingles rules.now.equations singles.now }
    requires first { first < length rules.now.equations }
    requires before { ListsBefore (IsOfTwo rules.now) 4 first 0 0 found.old }
    ensures { OnOk result (ListsBefore (IsOfTwo rules.now) 4 (first + 1) 0 0 found.new) }
{
    if !singles[first] {
        return Ok(());
    }
    for place in 1..rules.equation(first).left.len() {
        push_overlaps_at(found, rules, singles, first, place)?;
    }
    Ok(())
}

// Adds the breaks of RE4 by the part of a left side at a position.
fn push_overlaps_at(
    found: &mut Breaks,
    rules: &Rules,
    singles: &[bool],
    first: usize,
    place: usize,
) -> Result<(), NoMemory>
    requires rules { AreWellFormed rules.now }
    requires singles { TellSingles rules.now.equations singles.now }
    requires first { IsPlaceOf rules.now.equations first place }
    requires single { IsTrue (slice_index_or singles.now first false) }
    requires below { 0 < place }
    requires before { ListsBefore (IsOfTwo rules.now) 4 first place 0 found.old }
    ensures { OnOk result (ListsBefore (IsOfTwo rules.now) 4 first (place + 1) 0 found.new) }
{
    let left = &rules.equation(first).left;
    if !is_tested(left.cell(place)) {
        return Ok(());
    }
    for second in 0..rules.len() {
        if singles[second]
            && has_common(rules.classes(), left, place, &rules.equation(second).left)
        {
            found.push(Break::new(OVERLAP, first, place, second))?;
        }
    }
    Ok(())
}

// Whether left sides have a common instance, and right sides are not the same under the merge.
fn are_ambiguous(classes: &Classes, one: &Equation, other: &Equation) -> bool
    requires arities { AgreeOnArities one.now.left other.now.left }
    requires one { IsWellFormed one.now × IsSingle one.now }
    requires other { IsWellFormed other.now × IsSingle other.now }
    ensures { IsTrue result ↔ AreAmbiguous classes.now one.now other.now }
{
    has_common(classes, &one.left, 0, &other.left) && !is_same_right(classes, one, other)
}

/// Whether a cell is no plain variable.
pub fn is_tested(cell: Cell) -> bool
    ensures { IsTrue result ↔ CellIsTested cell }
{
    !matches!(cell, Cell::Var(_))
}
