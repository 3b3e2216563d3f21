// The order in which left sides are tested: RE5.
ghost use Rattle.std.specs.Prelude.{◌+◌, ◌<◌, ◌↔◌, IsTrue, OnOk, IfOk, length, false, slice_index_or};
ghost use Rattle.eq_base.specs.Tree.{size, nth_subtree};
ghost use Rattle.eq_base.specs.Meeting.{in_class_of};
ghost use Rattle.regularity.specs.Arities.{AgreeOnArities};
ghost use Rattle.regularity.specs.Single.{TellSingles};
ghost use Rattle.regularity.specs.Listing.{IsOrdered, Lists};
ghost use Rattle.regularity.specs.Looking.{ListsBefore, IsPlaceOf};
ghost use Rattle.regularity.specs.WellFormed.{AreWellFormed};
ghost use Rattle.sequentiality.specs.Comparing.{HasFirstMismatch};
ghost use Rattle.sequentiality.specs.Violations.{IsEarlier, IsTold, IsNotSequential};

use crate::comparison::{Comparison, compare};
use eq_base::{Classes, NoMemory, Pattern, Rules};
use regularity::{Break, Breaks, is_tested, tell_singles};
use std::alloc::Global;

// The numbers of the restrictions.
const AMBIGUOUS: u8 = 3;

const OVERLAP: u8 = 4;

const NOT_SEQUENTIAL: u8 = 5;

/// The breaks of RE5, in order. The earlier breaks are those of RE1 and RE2, and then those of RE3 and RE4.
pub fn breaks(alloc: Global, rules: &Rules, earlier: &Breaks) -> Result<Breaks, NoMemory>
    requires rules { AreWellFormed rules.now }
    requires earlier { Lists (IsEarlier rules.now) earlier.now }
    ensures { IfOk result (λ found. Lists (IsNotSequential rules.now) found) }
{
    let singles = tell_singles(alloc, rules)?;
    let mut found = Breaks::new(alloc);
    for first in 0..rules.len() {
        push_breaks(&mut found, rules, earlier, &singles, first)?;
    }
    Ok(found)
}

// Adds the breaks of RE5 by the parts of one left side.
fn push_breaks(
    found: &mut Breaks,
    rules: &Rules,
    earlier: &Breaks,
    singles: &[bool],
    first: usize,
) -> Result<(), NoMemory>
    requires rules { AreWellFormed rules.now }
    requires earlier { Lists (IsEarlier rules.now) earlier.now }
    requires singles { TellSingles rules.now.equations singles.now }
    requires first { first < length rules.now.equations }
    requires before { ListsBefore (IsNotSequential rules.now) 5 first 0 0 found.old }
    ensures { OnOk result (ListsBefore (IsNotSequential rules.now) 5 (first + 1) 0 0 found.new) }
{
    if !singles[first] {
        return Ok(());
    }
    for place in 0..rules.equation(first).left.len() {
        push_breaks_at(found, rules, earlier, singles, first, place)?;
    }
    Ok(())
}

// Adds the breaks of RE5 by the part of a left side at a position.
fn push_breaks_at(
    found: &mut Breaks,
    rules: &Rules,
    earlier: &Breaks,
    singles: &[bool],
    first: usize,
    place: usize,
) -> Result<(), NoMemory>
    requires rules { AreWellFormed rules.now }
    requires earlier { Lists (IsEarlier rules.now) earlier.now }
    requires singles { TellSingles rules.now.equations singles.now }
    requires first { IsPlaceOf rules.now.equations first place }
    requires single { IsTrue (slice_index_or singles.now first false) }
    requires before { ListsBefore (IsNotSequential rules.now) 5 first place 0 found.old }
    ensures { OnOk result (ListsBefore (IsNotSequential rules.now) 5 first (place + 1) 0 found.new) }
{
    let left = &rules.equation(first).left;
    if !is_tested(left.cell(place)) {
        return Ok(());
    }
    let from = if place == 0 { first + 1 } else { 0 };
    for second in from..rules.len() {
        if singles[second]
            && mismatches(rules.classes(), left, place, &rules.equation(second).left)
            && !is_told(earlier, first, place, second)
        {
            found.push(Break::new(NOT_SEQUENTIAL, first, place, second))?;
        }
    }
    Ok(())
}

// Whether a comparison comes to a mismatch.
fn mismatches(classes: &Classes, left: &Pattern, place: usize, other: &Pattern) -> bool
    requires place { place < size left.now }
    requires arities { AgreeOnArities (nth_subtree left.now place) other.now }
    ensures { IsTrue result
        ↔ HasFirstMismatch (in_class_of classes.now) (nth_subtree left.now place) other.now }
{
    matches!(
        compare(classes, left, place, other),
        Comparison::Mismatch(_)
    )
}

// Whether RE3 or RE4 is broken by the same equations at the same place.
fn is_told(earlier: &Breaks, first: usize, place: usize, second: usize) -> bool
    requires first { first < 65536 }
    requires place { place < 65536 }
    requires second { second < 65536 }
    requires ordered { IsOrdered earlier.now }
    ensures { IsTrue result ↔ IsTold earlier.now first place second }
{
    earlier.has(Break::new(AMBIGUOUS, first, place, second))
        || earlier.has(Break::new(OVERLAP, first, place, second))
}
