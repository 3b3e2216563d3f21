// Which heads meet a cell.
ghost use Rattle.std.specs.Prelude.{◌≡◌, ◌+◌, ◌<◌, ◌≤◌, ◌↔◌, length, IsTrue};
ghost use Rattle.eq_base.specs.Meeting.{class_number, in_symbol_class, in_class_of, CellIsTested, CellMeets};
ghost use Rattle.eq_base.specs.Meeting.{CellsClash};
ghost use Rattle.eq_base.specs.Sharing.{HasMemberIn, ShareHead};

use crate::classes::{Classes, FIRST_CLASS};
use crate::head::{Cell, Head};

/// The classes of constants that a file of equations may include.
#[derive(Clone, Copy, PartialEq, Eq, Debug)]
pub enum SymbolClass {
    /// All numerals.
    Numerals,
    /// All atoms.
    Atoms,
    /// The symbols `true` and `false`, which have the numbers 0 and 1.
    TruthValues,
    /// All strings.
    Strings,
}

impl SymbolClass {
    /// The class's number, as a `Cell::Class` names it.
    pub fn number(self) -> u8
        ensures { result ≡ class_number self }
    {
        match self {
            SymbolClass::Numerals => 0,
            SymbolClass::Atoms => 1,
            SymbolClass::TruthValues => 2,
            SymbolClass::Strings => 3,
        }
    }
}

// How many symbols, from 0 on, are truth values.
const TRUTH_VALUES: u32 = 2;

// Whether the head belongs to the symbol class with this number; none does past the last class.
fn is_in_symbol_class(class: u8, head: Head) -> bool
    ensures { result ≡ in_symbol_class class head }
{
    match head {
        Head::Symbol(number) => {
            class == SymbolClass::TruthValues.number() && number < TRUTH_VALUES
        }
        Head::Numeral(_) => class == SymbolClass::Numerals.number(),
        Head::Atom(_) => class == SymbolClass::Atoms.number(),
        Head::Text(_) => class == SymbolClass::Strings.number(),
    }
}

/// Whether the head belongs to the class with this number; none does past the last class.
pub fn is_in_class(classes: &Classes, class: u8, head: Head) -> bool
    ensures { result ≡ in_class_of classes.now class head }
{
    if class < FIRST_CLASS {
        return is_in_symbol_class(class, head);
    }
    has_number(classes, class) && classes.holds(class, head)
}

// Whether a class of the file has that number.
fn has_number(classes: &Classes, class: u8) -> bool
    requires { 4 ≤ class }
    ensures { IsTrue result ↔ (class < 4 + length classes.now) }
{
    ((class - FIRST_CLASS) as usize) < classes.len()
}

// Whether some member of a class of the file belongs to the other class.
fn has_member_in(classes: &Classes, listed: u8, class: u8) -> bool
    requires { 4 ≤ listed }
    ensures { IsTrue result ↔ HasMemberIn classes.now listed class }
{
    if !has_number(classes, listed) {
        return false;
    }
    for number in 0..classes.members(listed) {
        if is_in_class(classes, class, classes.member(listed, number)) {
            return true;
        }
    }
    false
}

// Whether some head belongs to both classes.
fn share_head(classes: &Classes, one: u8, other: u8) -> bool
    ensures { IsTrue result ↔ ShareHead classes.now one other }
{
    if one >= FIRST_CLASS {
        has_member_in(classes, one, other)
    } else if other >= FIRST_CLASS {
        has_member_in(classes, other, one)
    } else {
        one == other
    }
}

/// Whether the head meets the cell: it is the cell's head, or belongs to its class.
pub fn meets(classes: &Classes, cell: Cell, head: Head) -> bool
    requires { CellIsTested cell }
    ensures { IsTrue result ↔ CellMeets classes.now cell head }
{
    match cell {
        Cell::Head(own, _) => own == head,
        Cell::Var(_) => true,
        Cell::Class(_, class) => is_in_class(classes, class, head),
    }
}

/// Whether no head meets both cells. Two classes clash unless some head belongs to both.
pub fn clash(classes: &Classes, one: Cell, other: Cell) -> bool
    requires one { CellIsTested one }
    requires other { CellIsTested other }
    ensures { IsTrue result ↔ CellsClash classes.now one other }
{
    match one {
        Cell::Head(head, _) => !meets(classes, other, head),
        Cell::Var(_) => false,
        Cell::Class(_, class) => match other {
            Cell::Head(head, _) => !is_in_class(classes, class, head),
            Cell::Var(_) => false,
            Cell::Class(_, other_class) => !share_head(classes, class, other_class),
        },
    }
}
