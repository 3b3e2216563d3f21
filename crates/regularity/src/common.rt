// Common instances of parts of left sides and left sides.
ghost use Rattle.std.specs.Prelude.{◌<◌, ◌↔◌, IsTrue};
ghost use Rattle.eq_base.specs.Tree.{size, nth_subtree};
ghost use Rattle.eq_base.specs.Meeting.{in_class_of};
ghost use Rattle.regularity.specs.Arities.{AgreeOnArities};
ghost use Rattle.regularity.specs.Common.{HaveCommon};

use crate::facing::{Facing, facing_of};
use eq_base::{Classes, Pattern};

/// Whether the part of a left side at a position and another left side have a common instance.
/// It takes no memory, and stops at the first clash.
pub fn has_common(classes: &Classes, left: &Pattern, place: usize, other: &Pattern) -> bool
    requires place { place < size left.now }
    requires arities { AgreeOnArities (nth_subtree left.now place) other.now }
    ensures { IsTrue result
        ↔ HaveCommon (in_class_of classes.now) (nth_subtree left.now place) other.now }
{
    let len = left.len();
    let mut at = place;
    let mut beside = 0;
    while beside < other.len() {
        prove!(at < len);
        match facing_of(classes, left.cell(at), other.cell(beside)) {
            Facing::Clash => return false,
            Facing::SameHead => {
                at += 1;
                beside += 1;
            }
            Facing::Mismatch | Facing::Variable => {
                at = left.end_of(at);
                beside = other.end_of(beside);
            }
        }
    }
    true
}
