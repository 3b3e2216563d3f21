// How breaks of restrictions are told.
ghost use Rattle.std.specs.Prelude.{◌≡◌, ◌<◌, IfOk, OnOk, ◌++◌, string_bytes, slice_get, Some};
ghost use Rattle.eq_base.specs.Tree.{size, nth_position};
ghost use Rattle.eq_base.specs.Rules.{rule_of};
ghost use Rattle.regularity.specs.Listing.{Lists};
ghost use Rattle.sequentiality.specs.Violations.{IsViolation};
ghost use Rattle.ei_program.specs.Restrictions.{origin_name, position_name, origin_of, broken_side};
ghost use Rattle.ei_program.specs.Restrictions.{broken_at};
ghost use Rattle.ei_program.specs.Restrictions.{broken_with, joined_line, line_of, break_line, broken_text};
ghost use Rattle.ei_program.specs.Restrictions.{IsInList};

use crate::positions::argument_numbers;
use eq_base::{Equation, NoMemory, Origin, Pattern, Right, Rules};
use regularity::{Break, Breaks};
use std::alloc::Global;
use std::fmt::Write;

/// How many breaks are told.
const MOST_TOLD: usize = 50;

/// The name of an equation: the number of its item, and of its part where the item gives several.
fn equation_name(alloc: Global, origin: Origin) -> Result<String, NoMemory>
    ensures { IfOk result (λ name. string_bytes name ≡ origin_name origin) }
{
    let Origin { item, part } = origin;
    let name = if part == 0 {
        format!(in alloc; "{item}")?
    } else {
        format!(in alloc; "{item}.{part}")?
    };
    Ok(name)
}

/// The name of a position: `root`, or the numbers of the arguments on the way, with a dot between two.
fn place_name(alloc: Global, pattern: &Pattern, place: usize) -> Result<String, NoMemory>
    requires { place < size pattern.now }
    ensures { IfOk result (λ name. string_bytes name ≡ position_name (nth_position pattern.now place)) }
{
    let numbers = argument_numbers(alloc, pattern, place)?;
    let Some((first, others)) = numbers.split_first() else {
        let root = String::from_str(alloc, "root")?;
        return Ok(root);
    };
    let mut name = format!(in alloc; "{first}")?;
    for number in others {
        write!(name, ".{number}")?;
    }
    Ok(name)
}

/// The side of an equation at which a break of the restriction stands.
fn broken_side(restriction: u8, equation: &Equation) -> &Pattern
    ensures { result.now ≡ broken_side restriction (rule_of equation.now) }
{
    match &equation.right {
        Right::Tree(right) if restriction == 2 => right,
        _ => &equation.left,
    }
}

/// Where a break of the restriction stands: ` at ` and the place, but for RE3.
fn broken_at(alloc: Global, restriction: u8, place: &str) -> Result<String, NoMemory>
    ensures { IfOk result (λ text. string_bytes text ≡ broken_at restriction place.now) }
{
    if restriction == 3 {
        return Ok(String::new(alloc));
    }
    let text = format!(in alloc; " at {place}")?;
    Ok(text)
}

/// With which other equation a break of the restriction is: ` with equation ` and its name, but for RE1 and
/// RE2.
fn broken_with(alloc: Global, restriction: u8, other: &str) -> Result<String, NoMemory>
    ensures { IfOk result (λ text. string_bytes text ≡ broken_with restriction other.now) }
{
    if restriction < 3 {
        return Ok(String::new(alloc));
    }
    let text = format!(in alloc; " with equation {other}")?;
    Ok(text)
}

/// The parts of a break's line, one after another.
fn joined(
    alloc: Global,
    restriction: u8,
    name: &str,
    at: &str,
    with: &str,
) -> Result<String, NoMemory>
    ensures { IfOk result (λ line. string_bytes line ≡ joined_line restriction name.now at.now with.now) }
{
    let line = format!(in alloc; "RE{restriction} equation {name}{at}{with}\n")?;
    Ok(line)
}

/// The line of a break by two equations.
fn line_by(
    alloc: Global,
    found: Break,
    one: &Equation,
    other: &Equation,
) -> Result<String, NoMemory>
    requires { found.place < size (broken_side found.restriction (rule_of one.now)) }
    ensures { IfOk result (λ line. string_bytes line ≡ line_of rule_of origin_of found one.now other.now) }
{
    let restriction = found.restriction;
    let name = equation_name(alloc, one.origin)?;
    let second = equation_name(alloc, other.origin)?;
    let place = place_name(alloc, broken_side(restriction, one), found.place as usize)?;
    let at = broken_at(alloc, restriction, &place)?;
    let with = broken_with(alloc, restriction, &second)?;
    joined(alloc, restriction, &name, &at, &with)
}

/// The line of a break.
fn break_line(alloc: Global, rules: &Rules, found: Break) -> Result<String, NoMemory>
    requires { IsInList rules.now.equations found }
    ensures { IfOk result (λ line. string_bytes line
        ≡ break_line rule_of origin_of rules.now.equations found) }
{
    let one = rules.equation(found.first as usize);
    let other = rules.equation(found.second as usize);
    line_by(alloc, found, one, other)
}

/// What is told of breaks: how many they are, the first 50 of them, and how many more there are.
pub fn broken_text(alloc: Global, rules: &Rules, breaks: &Breaks) -> Result<String, NoMemory>
    requires { Lists (IsViolation rules.now) breaks.now }
    ensures { IfOk result (λ text. string_bytes text
        ≡ broken_text rule_of origin_of rules.now.equations breaks.now) }
{
    let count = breaks.len();
    let told = count.min(MOST_TOLD);
    let mut text = format!(in alloc; "ei: restrictions broken: {count}\n")?;
    for i in 0..told {
        let line = break_line(alloc, rules, breaks.get(i))?;
        text.push_str(&line)?;
    }
    let more = count - told;
    if more == 0 {
        return Ok(text);
    }
    write!(text, "ei: {more} more\n")?;
    Ok(text)
}
