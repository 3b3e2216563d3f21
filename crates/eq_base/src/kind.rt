// What a pattern's vector holds of a cell.
ghost use Rattle.std.specs.Prelude.{◌≡◌};
ghost use Rattle.eq_base.specs.Cells.{arity_in};
ghost use Rattle.eq_base.specs.Kinds.{cell_from};

use crate::head::{Cell, Head};

/// What stands in a cell, without its number of arguments, which the node keeps beside it: so a node
/// takes no more memory than that of a term.
#[derive(Clone, Copy)]
pub enum Kind {
    Symbol(u32),
    Numeral(i128),
    Atom(usize),
    Text(usize),
    Var(u32),
    Class(u32, u8),
}

impl Kind {
    /// What stands in the cell.
    pub fn of(cell: Cell) -> Kind
        ensures { cell_from result (arity_in cell) ≡ cell }
    {
        match cell {
            Cell::Head(Head::Symbol(number), _) => Kind::Symbol(number),
            Cell::Head(Head::Numeral(value), _) => Kind::Numeral(value),
            Cell::Head(Head::Atom(number), _) => Kind::Atom(number),
            Cell::Head(Head::Text(number), _) => Kind::Text(number),
            Cell::Var(variable) => Kind::Var(variable),
            Cell::Class(variable, class) => Kind::Class(variable, class),
        }
    }

    /// The cell over so many arguments.
    pub fn cell(self, arity: u8) -> Cell
        ensures { result ≡ cell_from self arity }
    {
        match self {
            Kind::Symbol(number) => Cell::Head(Head::Symbol(number), arity),
            Kind::Numeral(value) => Cell::Head(Head::Numeral(value), arity),
            Kind::Atom(number) => Cell::Head(Head::Atom(number), arity),
            Kind::Text(number) => Cell::Head(Head::Text(number), arity),
            Kind::Var(variable) => Cell::Var(variable),
            Kind::Class(variable, class) => Cell::Class(variable, class),
        }
    }
}
