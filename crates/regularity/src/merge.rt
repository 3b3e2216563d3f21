// Right sides read under the merge of left sides, which is never built: its parts are parts of one of
// the left sides with other names of variables.
ghost use Rattle.std.specs.Prelude.{◌≡◌, ℕ, ◌<◌, ◌≤◌, ◌↔◌, IsTrue};
ghost use Rattle.eq_base.specs.Tree.{size, nth_subtree};
ghost use Rattle.eq_base.specs.Meeting.{in_class_of};
ghost use Rattle.eq_base.specs.Rules.{right_side};
ghost use Rattle.regularity.specs.Arities.{AgreeOnArities};
ghost use Rattle.regularity.specs.Common.{HaveCommon};
ghost use Rattle.regularity.specs.MergedParts.{CanMerge, IsPartOf, IsOverLeft, ReadsAs, ReadsSame, part_of_merge};
ghost use Rattle.regularity.specs.MergedParts.{named_cell};
ghost use Rattle.regularity.specs.Occurrences.{OccursAt};
ghost use Rattle.regularity.specs.Restrictions.{IsSameRight};
ghost use Rattle.regularity.specs.Single.{IsSingle};
ghost use Rattle.regularity.specs.WellFormed.{IsWellFormed};

use crate::facing::{Facing, facing_of};
use eq_base::{Cell, Classes, Equation, Pattern, Right};

// What a variable of one left side stands for in the merge: the part of the other left side at a cell.
// Its variables are named by their positions in the merge, and this is the first cell's.
#[derive(Clone, Copy)]
struct MergedPart {
    at: usize,
    name: usize,
}

/// Whether right sides are the same, read under the merge of the left sides. The right side of an
/// operation is the same as no other. It takes no memory.
pub fn is_same_right(classes: &Classes, one: &Equation, other: &Equation) -> bool
    requires arities { AgreeOnArities one.now.left other.now.left }
    requires common { HaveCommon (in_class_of classes.now) one.now.left other.now.left }
    requires one { IsWellFormed one.now × IsSingle one.now }
    requires other { IsWellFormed other.now × IsSingle other.now }
    ensures { IsTrue result
        ↔ IsSameRight one.now.left other.now.left (right_side one.now.right) (right_side other.now.right) }
{
    let (Right::Tree(right), Right::Tree(other_right)) = (&one.right, &other.right) else {
        return false;
    };
    reads_same(classes, &one.left, right, &other.left, other_right)
}

// Whether right sides are the same, each read under the merge of its left side and the other one.
fn reads_same(
    classes: &Classes,
    left: &Pattern,
    right: &Pattern,
    other: &Pattern,
    other_right: &Pattern,
) -> bool
    requires merge { CanMerge classes.now left.now other.now }
    requires right { IsOverLeft left.now right.now }
    requires other_right { IsOverLeft other.now other_right.now }
    ensures { ReadsSame left.now right.now other.now other_right.now result }
{
    let len = other_right.len();
    let mut at = 0;
    let mut beside = 0;
    while at < right.len() {
        prove!(beside < len);
        let cell = right.cell(at);
        let other_cell = other_right.cell(beside);
        if let Some(variable) = cell.variable() {
            let part = find(classes, left, other, variable);
            if !reads_as(classes, other, left, other_right, beside, part) {
                return false;
            }
            at = right.end_of(at);
            beside = other_right.end_of(beside);
        } else if let Some(variable) = other_cell.variable() {
            let part = find(classes, other, left, variable);
            if !reads_as(classes, left, other, right, at, part) {
                return false;
            }
            at = right.end_of(at);
            beside = other_right.end_of(beside);
        } else {
            if !is_same_cell(cell, 0, other_cell, 0) {
                return false;
            }
            at += 1;
            beside += 1;
        }
    }
    true
}

// Whether the part of a right side at a cell reads as a part of the merge that is one of its left side.
fn reads_as(
    classes: &Classes,
    left: &Pattern,
    other: &Pattern,
    right: &Pattern,
    at: usize,
    part: MergedPart,
) -> bool
    requires merge { CanMerge classes.now left.now other.now }
    requires right { IsOverLeft left.now right.now }
    requires at { at < size right.now }
    requires part { part.at < size left.now }
    requires name { part.name ≤ 510 }
    ensures { ReadsAs left.now other.now (nth_subtree right.now at) (part_of_merge left.now part) result }
{
    let end = right.end_of(at);
    let len = left.end_of(part.at);
    let mut i = 0;
    let mut k = 0;
    while at + i < end {
        prove!(part.at + k < len);
        let cell = right.cell(at + i);
        if let Some(variable) = cell.variable() {
            let here = MergedPart {
                at: part.at + k,
                name: part.name + k,
            };
            if !is_same_part(left, here, other, find(classes, left, other, variable)) {
                return false;
            }
            i = right.end_of(at + i) - at;
            k = left.end_of(part.at + k) - part.at;
        } else {
            if !is_same_cell(cell, 0, left.cell(part.at + k), 0) {
                return false;
            }
            i += 1;
            k += 1;
        }
    }
    true
}

// Whether two parts of the merge are the same.
fn is_same_part(one: &Pattern, part: MergedPart, other: &Pattern, other_part: MergedPart) -> bool
    requires part { part.at < size one.now }
    requires other_part { other_part.at < size other.now }
    ensures { IsTrue result ↔ (part_of_merge one.now part ≡ part_of_merge other.now other_part) }
{
    let len = other.len();
    for i in 0..one.end_of(part.at) - part.at {
        prove!(other_part.at + i < len);
        let cell = one.cell(part.at + i);
        let other_cell = other.cell(other_part.at + i);
        if !is_same_cell(cell, part.name, other_cell, other_part.name) {
            return false;
        }
    }
    true
}

// Whether two cells are the same, where variables have these names.
fn is_same_cell(cell: Cell, name: usize, other: Cell, other_name: usize) -> bool
    ensures { IsTrue result ↔ (named_cell name cell ≡ named_cell other_name other) }
{
    match (cell, other) {
        (Cell::Head(head, arity), Cell::Head(other_head, other_arity)) => {
            head == other_head && arity == other_arity
        }
        (Cell::Head(_, _), _) | (_, Cell::Head(_, _)) => false,
        (_, _) => name == other_name,
    }
}

// What a variable of a left side stands for in its merge with another.
fn find(classes: &Classes, left: &Pattern, other: &Pattern, variable: u32) -> MergedPart
    requires merge { CanMerge classes.now left.now other.now }
    requires occurs { (k : ℕ) × OccursAt left.now k variable }
    ensures there { result.at < size other.now }
    ensures name { result.name ≤ 510 }
    ensures value { IsPartOf left.now other.now variable result }
{
    let len = other.len();
    let mut at = 0;
    let mut beside = 0;
    let mut name = 0;
    while at < left.len() {
        prove!(beside < len);
        let cell = left.cell(at);
        if cell.variable() == Some(variable) {
            return MergedPart { at: beside, name };
        }
        match facing_of(classes, cell, other.cell(beside)) {
            Facing::Clash => unreachable!(),
            Facing::SameHead => {
                at += 1;
                beside += 1;
                name += 1;
            }
            Facing::Mismatch | Facing::Variable => {
                let end = left.end_of(at);
                let other_end = other.end_of(beside);
                if let Cell::Head(_, _) = cell {
                    let own = first_occurrence(left, at, end, variable);
                    if own < end {
                        return MergedPart {
                            at: beside,
                            name: name + (own - at),
                        };
                    }
                    name += end - at;
                } else {
                    name += other_end - beside;
                }
                at = end;
                beside = other_end;
            }
        }
    }
    unreachable!()
}

// The first cell, from one up to another, with a variable; or the other one.
fn first_occurrence(pattern: &Pattern, from: usize, end: usize, variable: u32) -> usize
    requires order { from ≤ end }
    requires end { end ≤ size pattern.now }
    ensures from { from ≤ result }
    ensures end { result ≤ end }
    ensures none { (k : ℕ) → from ≤ k → k < result → OccursAt pattern.now k variable → ⊥ }
    ensures found { result < end → OccursAt pattern.now result variable }
{
    for at in from..end {
        if pattern.cell(at).variable() == Some(variable) {
            return at;
        }
    }
    end
}
