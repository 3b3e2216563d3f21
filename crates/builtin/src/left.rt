// The left sides of the operations.
ghost use Rattle.std.specs.Prelude.{◌≡◌, ◌↔◌, [], ◌∷◌, IfOk, IsTrue};
ghost use Rattle.eq_base.specs.Tree.{cells};
ghost use Rattle.eq_base.specs.Pattern.{fixed, restricted};
ghost use Rattle.eq_base.specs.Operations.{application, operand_class};
ghost use Rattle.eq_base.specs.declared.head.Head.TheVariants.{Symbol};
ghost use Rattle.builtin.specs.Lefts.{IsApplication, IsHeadCell, IsOverOne, IsOverTwo};

use eq_base::{Cell, Head, NoMemory, Op, Pattern, PatternMaker, SymbolClass};
use std::alloc::Global;

/// The left side of an operation's equation: its symbol over variables in the class of its operands.
pub fn schema_left(alloc: Global, op: Op, symbol: u32) -> Result<Pattern, NoMemory>
    ensures { IfOk result (λ left. left ≡ application op (Symbol symbol)) }
{
    let class = class_of_operands(op).number();
    match op {
        Op::LengthStr => over_one(alloc, symbol, class),
        _ => over_two(alloc, symbol, class),
    }
}

// The symbol over a variable in the class.
fn over_one(alloc: Global, symbol: u32, class: u8) -> Result<Pattern, NoMemory>
    ensures { IfOk result (λ left. cells left ≡ (fixed (Symbol symbol), 1) ∷ (restricted 0 class, 0) ∷ []) }
{
    let mut maker = PatternMaker::new(alloc);
    maker.push_cell(Cell::Head(Head::Symbol(symbol), 1))?;
    maker.push_cell(Cell::Class(0, class))?;
    Ok(maker.finish())
}

// The symbol over two variables in the class.
fn over_two(alloc: Global, symbol: u32, class: u8) -> Result<Pattern, NoMemory>
    ensures { IfOk result (λ left. cells left ≡ (fixed (Symbol symbol), 2) ∷ (restricted 0 class, 0)
        ∷ (restricted 1 class, 0) ∷ []) }
{
    let mut maker = PatternMaker::new(alloc);
    maker.push_cell(Cell::Head(Head::Symbol(symbol), 2))?;
    maker.push_cell(Cell::Class(0, class))?;
    maker.push_cell(Cell::Class(1, class))?;
    Ok(maker.finish())
}

/// Whether a pattern is the left side of an operation's equation, with some head at its root. It takes no
/// memory.
pub fn is_schema_left(op: Op, left: &Pattern) -> bool
    ensures { IsTrue result ↔ IsApplication op left.now }
{
    let class = class_of_operands(op).number();
    match op {
        Op::LengthStr => is_over_one(left, class),
        _ => is_over_two(left, class),
    }
}

// Whether a pattern is a head over a variable in the class.
fn is_over_one(left: &Pattern, class: u8) -> bool
    ensures { IsTrue result ↔ IsOverOne class left.now }
{
    if left.len() != 2 {
        return false;
    }
    is_head(left.cell(0)) && is_operand(left.cell(1), 0, class)
}

// Whether a pattern is a head over two variables in the class.
fn is_over_two(left: &Pattern, class: u8) -> bool
    ensures { IsTrue result ↔ IsOverTwo class left.now }
{
    if left.len() != 3 {
        return false;
    }
    is_head(left.cell(0))
        && is_operand(left.cell(1), 0, class)
        && is_operand(left.cell(2), 1, class)
}

// Whether a head stands in a cell.
fn is_head(cell: Cell) -> bool
    ensures { IsTrue result ↔ IsHeadCell cell }
{
    matches!(cell, Cell::Head(_, _))
}

// Whether a cell is this variable in the class.
fn is_operand(cell: Cell, variable: u32, class: u8) -> bool
    ensures { IsTrue result ↔ (cell ≡ Cell.Class variable class) }
{
    cell == Cell::Class(variable, class)
}

/// The class of an operation's operands.
pub fn class_of_operands(op: Op) -> SymbolClass
    ensures { result ≡ operand_class op }
{
    match op {
        Op::EquAtom => SymbolClass::Atoms,
        Op::EquStr | Op::ConcatStr | Op::LengthStr => SymbolClass::Strings,
        Op::AddInt
        | Op::SubInt
        | Op::MultInt
        | Op::DivInt
        | Op::ModInt
        | Op::EquInt
        | Op::LessInt => SymbolClass::Numerals,
    }
}
