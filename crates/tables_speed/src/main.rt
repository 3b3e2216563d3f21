//! Makes a list of equations and builds its tables, to measure `Tables::build`. Its input is the number of equations, that of
//! the arguments of each left side, and `words` or `classes`; it prints `some` or `none`.
#![tactic(auto)]

ghost use Rattle.eq_base.specs.Cells.{CellTakesArguments};

use eq_base::{
    Cell, Classes, Equation, Head, Origin, Pattern, PatternMaker, Right, Rules, SymbolClass,
};
use match_tables::Tables;
use regularity::are_well_formed;
use sequentiality::Regular;
use std::alloc::Global;
use std::io::{self, Read};
use std::process::ExitCode;

// The symbol that takes the arguments, and the first of the constants.
const APPLY: u32 = 2;

const FIRST: u32 = 3;

/// How left sides differ: in the binary digits of their numbers, one in each argument; or in the last argument alone, behind
/// numerals, of which one is 0 and all others are any.
#[derive(Clone, Copy)]
enum Shape {
    Words,
    Classes,
}

/// A list of equations.
#[derive(Clone, Copy)]
struct List {
    equations: u32,
    arguments: u8,
    shape: Shape,
}

/// The list that a text asks for.
fn list_of(text: &str) -> Option<List> {
    let mut words = text.split_whitespace();
    let equations: u32 = words.next()?.parse().ok()?;
    let arguments: u8 = words.next()?.parse().ok()?;
    let shape = match words.next()? {
        "words" => Shape::Words,
        "classes" => Shape::Classes,
        _ => return None,
    };
    Some(List {
        equations,
        arguments,
        shape,
    })
}

/// A constant.
fn constant(number: u32) -> Cell
    ensures { CellTakesArguments result }
{
    Cell::Head(Head::Symbol(number), 0)
}

/// An argument of the left side with a number.
fn argument(list: &List, number: u32, at: u8) -> Cell
    ensures { CellTakesArguments result }
{
    match list.shape {
        Shape::Words => constant(FIRST + number.checked_shr(u32::from(at)).unwrap_or(0) % 2),
        Shape::Classes if u32::from(at) + 1 == u32::from(list.arguments) => {
            constant(FIRST + number % 2048)
        }
        Shape::Classes if u32::from(at) == number => Cell::Head(Head::Numeral(0), 0),
        Shape::Classes => Cell::Class(u32::from(at), SymbolClass::Numerals.number()),
    }
}

/// Adds a cell to a pattern, if anything is missing there.
fn push(maker: &mut PatternMaker, cell: Cell) -> Option<()>
    requires { CellTakesArguments cell }
{
    if maker.missing() == 0 {
        return None;
    }
    maker.push_cell(cell).ok()
}

/// The pattern, if nothing is missing there.
fn finish(maker: PatternMaker) -> Option<Pattern> {
    if maker.missing() > 0 {
        return None;
    }
    Some(maker.finish())
}

/// The equation with a number.
fn equation(alloc: Global, list: &List, number: u32) -> Option<Equation> {
    let mut left = PatternMaker::new(alloc);
    push(&mut left, Cell::Head(Head::Symbol(APPLY), list.arguments))?;
    for at in 0..list.arguments {
        push(&mut left, argument(list, number, at))?;
    }
    let mut right = PatternMaker::new(alloc);
    push(&mut right, constant(FIRST))?;
    Some(Equation {
        left: finish(left)?,
        right: Right::Tree(finish(right)?),
        origin: Origin { item: 1, part: 0 },
    })
}

/// Whether the list has tables, if it can be made and is admitted.
fn has_tables(alloc: Global, list: &List) -> Option<bool> {
    let mut rules = Rules::new(alloc, Classes::new(alloc));
    for number in 0..list.equations {
        rules.push(equation(alloc, list, number)?).ok()?;
    }
    if !are_well_formed(&rules, &[0, 0, list.arguments]) {
        return None;
    }
    let regular = Regular::admit(alloc, rules).ok()?;
    let tables = Tables::build(alloc, &regular).ok()?;
    Some(tables.is_some())
}

fn main(rt: HostRuntime) -> io::Result<ExitCode> {
    let mut text = String::new(rt.alloc());
    rt.stdin().lock().read_to_string(&mut text)?;
    let Some(list) = list_of(&text) else {
        return Ok(ExitCode::FAILURE);
    };
    let Some(found) = has_tables(rt.alloc(), &list) else {
        return Ok(ExitCode::FAILURE);
    };
    println!(rt; "{}", if found { "some" } else { "none" })?;
    Ok(ExitCode::SUCCESS)
}
