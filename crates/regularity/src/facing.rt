// How two cells at one position of two patterns stand to each other.
ghost use Rattle.eq_base.specs.Cells.{kind_of};
ghost use Rattle.regularity.specs.Facing.{IsFacing};

use eq_base::{Cell, Classes, clash};

/// How two cells stand to each other.
#[derive(Clone, Copy, PartialEq, Eq, Debug)]
pub enum Facing {
    /// Both are tested, and no head meets both.
    Clash,
    /// One is tested, and the other is a plain variable.
    Mismatch,
    /// They are the same head.
    SameHead,
    /// One is a variable, plain or restricted, and there is neither a clash nor a mismatch.
    Variable,
}

/// How two cells stand to each other, in a file with these classes.
pub fn facing_of(classes: &Classes, one: Cell, other: Cell) -> Facing
    ensures { IsFacing classes.now (kind_of one) (kind_of other) result }
{
    match (one, other) {
        (Cell::Var(_), Cell::Var(_)) => Facing::Variable,
        (Cell::Var(_), _) | (_, Cell::Var(_)) => Facing::Mismatch,
        (_, _) if clash(classes, one, other) => Facing::Clash,
        (Cell::Head(_, _), Cell::Head(_, _)) => Facing::SameHead,
        (_, _) => Facing::Variable,
    }
}
