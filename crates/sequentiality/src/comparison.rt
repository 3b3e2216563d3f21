// Comparisons of parts of left sides with left sides.
ghost use Rattle.std.specs.Prelude.{◌<◌};
ghost use Rattle.eq_base.specs.Tree.{size, nth_subtree};
ghost use Rattle.eq_base.specs.Meeting.{in_class_of};
ghost use Rattle.regularity.specs.Arities.{AgreeOnArities};
ghost use Rattle.sequentiality.specs.Comparing.{IsComparison};

use eq_base::{Classes, Pattern};
use regularity::{Facing, facing_of};

/// What a comparison of two patterns in preorder comes to.
#[derive(Clone, Copy, PartialEq, Eq, Debug)]
pub enum Comparison {
    /// First comes a clash, at the position with this number, that of the root being 0.
    Clash(usize),
    /// First comes a plain variable beside a tested cell, at the position with this number.
    Mismatch(usize),
    /// There is neither.
    Common,
}

/// Compares the part of a left side at a position with another left side, in preorder.
/// It takes no memory, and stops at the first clash or mismatch.
pub fn compare(classes: &Classes, left: &Pattern, place: usize, other: &Pattern) -> Comparison
    requires place { place < size left.now }
    requires arities { AgreeOnArities (nth_subtree left.now place) other.now }
    ensures { IsComparison (in_class_of classes.now) (nth_subtree left.now place) other.now result }
{
    let len = left.len();
    let mut at = place;
    let mut beside = 0;
    while beside < other.len() {
        prove!(at < len);
        match facing_of(classes, left.cell(at), other.cell(beside)) {
            Facing::Clash => return Comparison::Clash(at - place),
            Facing::Mismatch => return Comparison::Mismatch(at - place),
            Facing::SameHead => {
                at += 1;
                beside += 1;
            }
            Facing::Variable => {
                at = left.end_of(at);
                beside = other.end_of(beside);
            }
        }
    }
    Comparison::Common
}
