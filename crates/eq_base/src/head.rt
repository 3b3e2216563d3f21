// What stands at the nodes of terms and patterns.
ghost use Rattle.std.specs.Prelude.{◌≡◌};
ghost use Rattle.eq_base.specs.Cells.{arity_in, variable_in};

use std::alloc::{AllocError, AllocFailed};
use thiserror::Error;

/// Out of memory: the one error of calls that only fail where they cannot grow.
#[derive(Clone, Copy, PartialEq, Eq, Debug, Error)]
#[error("out of memory")]
pub struct NoMemory;

impl From<AllocError> for NoMemory {
    fn from(_error: AllocError) -> Self {
        NoMemory
    }
}

impl<T: Drop> From<AllocFailed<T>> for NoMemory {
    fn from(_failed: AllocFailed<T>) -> Self {
        NoMemory
    }
}

/// The head of a term. Only a symbol takes arguments.
#[derive(Clone, Copy, PartialEq, Eq, Hash, Debug)]
pub enum Head {
    /// A declared symbol, by its number.
    Symbol(u32),
    /// An integer.
    Numeral(i128),
    /// An undeclared name, by its number.
    Atom(usize),
    /// A string, by its number.
    Text(usize),
}

/// A cell of a pattern.
#[derive(Clone, Copy, PartialEq, Eq, Debug)]
pub enum Cell {
    /// A head over so many arguments.
    Head(Head, u8),
    /// A plain variable, by its number.
    Var(u32),
    /// A variable, by its number, that stands for constants of a class, by its number.
    Class(u32, u8),
}

impl Cell {
    /// The number of arguments; a variable has none.
    pub fn arity(self) -> u8
        ensures { result ≡ arity_in self }
    {
        match self {
            Cell::Head(_, arity) => arity,
            Cell::Var(_) | Cell::Class(_, _) => 0,
        }
    }

    /// The variable, plain or restricted to a class, if the cell is one.
    pub fn variable(self) -> Option<u32>
        ensures { result ≡ variable_in self }
    {
        match self {
            Cell::Head(_, _) => None,
            Cell::Var(variable) | Cell::Class(variable, _) => Some(variable),
        }
    }
}
