//! Makes a list of equations and checks its restrictions, to measure the speed of `Regular::admit`. Its input is the
//! number of equations, that of the arguments of each left side, and `flat`, `curried`, `nested` or `open`.
#![tactic(auto)]

ghost use Rattle.std.specs.Prelude.{◌<◌};
ghost use Rattle.eq_base.specs.Cells.{CellTakesArguments};

use eq_base::{Cell, Classes, Equation, Head, Origin, Pattern, PatternMaker, Right, Rules};
use regularity::are_well_formed;
use sequentiality::{AdmitError, Regular};
use std::alloc::Global;
use std::io::{self, Read};
use std::process::ExitCode;

// The symbol that takes the arguments, and the first of the constants.
const APPLY: u32 = 2;

const DIGIT: u32 = 3;

// The most equations of a list.
const MOST_EQUATIONS: u32 = 2048;

// How many of the last arguments hold the number of an equation, in base 4.
const DIGITS: u32 = 6;

/// How a left side is made: a symbol over the arguments, an application for each argument, or a symbol over itself so many times,
/// with a constant in it or a variable.
#[derive(Clone, Copy)]
enum Shape {
    Flat,
    Curried,
    Nested,
    Open,
}

/// A list of equations. The constants that end a left side tell its number, and all before them are alike, so that
/// nothing is broken; with a variable in their place every part overlaps every left side.
#[derive(Clone, Copy)]
struct List {
    equations: u32,
    arguments: u8,
    shape: Shape,
}

/// The list that a text asks for.
fn list_of(text: &str) -> Option<List> {
    let mut words = text.split_whitespace();
    let equations: u32 = words.next()?.parse().ok()?;
    let arguments: u8 = words.next()?.parse().ok()?;
    let shape = match words.next()? {
        "flat" => Shape::Flat,
        "curried" => Shape::Curried,
        "nested" => Shape::Nested,
        "open" => Shape::Open,
        _ => return None,
    };
    Some(List {
        equations,
        arguments,
        shape,
    })
}

/// A symbol over so many arguments.
fn symbol(number: u32, arity: u8) -> Cell
    ensures { CellTakesArguments result }
{
    Cell::Head(Head::Symbol(number), arity)
}

/// Adds a cell to a pattern, if anything is missing there.
fn push(maker: &mut PatternMaker, cell: Cell) -> Option<()>
    requires { CellTakesArguments cell }
{
    if maker.missing() == 0 {
        return None;
    }
    maker.push_cell(cell).ok()
}

/// The pattern, if nothing is missing there.
fn finish(maker: PatternMaker) -> Option<Pattern> {
    if maker.missing() > 0 {
        return None;
    }
    Some(maker.finish())
}

/// The constant at a leaf, by the number of its left side: the number's digit there, which is 0 before the first digit.
/// Where there is only one leaf, the number has a constant of its own.
fn digit(number: u32, leaves: u32, leaf: u32) -> u32
    requires { leaf < leaves }
{
    let behind = leaves - 1 - leaf;
    if leaves == 1 {
        DIGIT + number % MOST_EQUATIONS
    } else if behind < DIGITS {
        DIGIT + (number >> (2 * behind)) % 4
    } else {
        DIGIT
    }
}

/// The left side with a number.
fn left_side(alloc: Global, list: &List, number: u32) -> Option<Pattern> {
    let mut maker = PatternMaker::new(alloc);
    let arguments = u32::from(list.arguments);
    let leaves = match list.shape {
        Shape::Flat => {
            push(&mut maker, symbol(APPLY, list.arguments))?;
            arguments
        }
        Shape::Curried => {
            push_spine(&mut maker, arguments, 2)?;
            arguments + 1
        }
        Shape::Nested => {
            push_spine(&mut maker, arguments, 1)?;
            1
        }
        Shape::Open => {
            push_spine(&mut maker, arguments, 1)?;
            push(&mut maker, Cell::Var(0))?;
            0
        }
    };
    for leaf in 0..leaves {
        push(&mut maker, symbol(digit(number, leaves, leaf), 0))?;
    }
    finish(maker)
}

/// Adds so many applications, each the first argument of the one before.
fn push_spine(maker: &mut PatternMaker, applications: u32, arity: u8) -> Option<()> {
    for _ in 0..applications {
        push(maker, symbol(APPLY, arity))?;
    }
    Some(())
}

/// The equation with a number.
fn equation(alloc: Global, list: &List, number: u32) -> Option<Equation> {
    let left = left_side(alloc, list, number)?;
    let mut maker = PatternMaker::new(alloc);
    push(&mut maker, symbol(DIGIT, 0))?;
    let right = finish(maker)?;
    Some(Equation {
        left,
        right: Right::Tree(right),
        origin: Origin { item: 1, part: 0 },
    })
}

/// How many breaks the list has, if it can be made and is well formed.
fn count_breaks(alloc: Global, list: &List) -> Option<usize> {
    let mut rules = Rules::new(alloc, Classes::new(alloc));
    for number in 0..list.equations {
        rules.push(equation(alloc, list, number)?).ok()?;
    }
    let arity = match list.shape {
        Shape::Flat => list.arguments,
        Shape::Curried => 2,
        Shape::Nested | Shape::Open => 1,
    };
    if !are_well_formed(&rules, &[0, 0, arity]) {
        return None;
    }
    match Regular::admit(alloc, rules) {
        Ok(_) => Some(0),
        Err(AdmitError::Broken(found, _)) => Some(found.len()),
        Err(AdmitError::NoMemory) => None,
    }
}

fn main(rt: HostRuntime) -> io::Result<ExitCode> {
    let mut text = String::new(rt.alloc());
    rt.stdin().lock().read_to_string(&mut text)?;
    let Some(list) = list_of(&text) else {
        return Ok(ExitCode::FAILURE);
    };
    let Some(breaks) = count_breaks(rt.alloc(), &list) else {
        return Ok(ExitCode::FAILURE);
    };
    println!(rt; "{breaks}")?;
    Ok(ExitCode::SUCCESS)
}
