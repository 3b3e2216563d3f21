// What moves the items of a set on.
ghost use Rattle.std.specs.Prelude.{◌↔◌, IsTrue};
ghost use Rattle.eq_base.specs.Cells.{kind_of};
ghost use Rattle.match_tables.specs.Steps.{Moves};

use eq_base::{Cell, Classes, Head, meets};

/// What moves the items of a set on.
#[derive(Clone, Copy)]
pub enum Step {
    /// A read of this head.
    Read(Head),
    /// A read of a head of the class with this number that stands in no left side.
    Other(u8),
    /// A skip.
    Skip,
}

/// Whether the step moves an item at the cell on.
pub fn moves(classes: &Classes, step: Step, cell: Cell) -> bool
    ensures { IsTrue result ↔ Moves classes.now step (kind_of cell) }
{
    match (step, cell) {
        (Step::Skip, Cell::Var(_)) => true,
        (Step::Skip, _) | (_, Cell::Var(_)) => false,
        (Step::Read(head), _) => meets(classes, cell, head),
        (Step::Other(own), Cell::Class(_, class)) => own == class,
        (Step::Other(_), Cell::Head(_, _)) => false,
    }
}
