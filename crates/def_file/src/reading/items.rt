// The section of equations.
ghost use Rattle.std.specs.Prelude.{◌≤◌, length, map};
ghost use Rattle.term_lex.specs.declared.token.TokenKind.TheVariants.{Semicolon, Dot};
ghost use Rattle.term_lex.specs.Parts.{IsKind, Closed};
ghost use Rattle.def_file.specs.Grammar.{IsEquation, IsItem};
ghost use Rattle.def_file.specs.Views.{sides, equation_item};
ghost use Rattle.def_file.specs.Reading.{IsReadIn};
ghost use Rattle.def_file.specs.Notations.{notation_of};

use super::conditions::read_where;
use super::names::read_include;
use super::terms::read_term;
use super::tokens::{next_is, next_is_word, skip_kind};
use crate::error::FileError;
use crate::tree::{EquationItem, Sides};
use std::alloc::Global;
use term_lex::{Syntax, TokenKind};

/// An equation.
fn read_equation(
    alloc: Global,
    text: &[u8],
    syntax: Syntax,
    at: usize,
) -> Result<(Sides, usize), FileError>
    requires { at ≤ length text.now }
    ensures { let notation = notation_of syntax in
        IsReadIn notation (IsEquation notation) sides text.now at result }
{
    let (left, equals_at) = read_term(alloc, text, syntax, at)?;
    let right_at = skip_kind(text, equals_at, TokenKind::Equals)?;
    let (right, where_at) = read_term(alloc, text, syntax, right_at)?;
    let (conditions, end) = read_where(alloc, text, syntax, where_at)?;
    let sides = Sides {
        left,
        right,
        conditions,
    };
    Ok((sides, end))
}

/// An equation or an include.
fn read_item(
    alloc: Global,
    text: &[u8],
    syntax: Syntax,
    at: usize,
) -> Result<(EquationItem, usize), FileError>
    requires { at ≤ length text.now }
    ensures { let notation = notation_of syntax in
        IsReadIn notation (IsItem notation) equation_item text.now at result }
{
    if next_is_word(text, at, b"include") {
        let ((include, names), names_end) = read_include(alloc, text, at)?;
        return Ok((EquationItem::Includes(include, names), names_end));
    }
    let (sides, end) = read_equation(alloc, text, syntax, at)?;
    Ok((EquationItem::Equates(sides), end))
}

/// The items of the section of equations, and the dot that ends it.
pub fn read_items(
    alloc: Global,
    text: &[u8],
    syntax: Syntax,
    at: usize,
) -> Result<(Vec<EquationItem>, usize), FileError>
    requires { at ≤ length text.now }
    ensures { let notation = notation_of syntax in
        IsReadIn notation (Closed (IsKind Semicolon) (IsKind Dot) (IsItem notation))
        (λ v. map equation_item v.items) text.now at result }
{
    let mut items = Vec::new(alloc);
    let mut at = at;
    'items: while !next_is(text, at, TokenKind::Dot) {
        let (item, item_end) = read_item(alloc, text, syntax, at)?;
        items.push(item)?;
        if !next_is(text, item_end, TokenKind::Semicolon) {
            let end = skip_kind(text, item_end, TokenKind::Dot)?;
            return Ok((items, end));
        }
        at = skip_kind(text, item_end, TokenKind::Semicolon)?;
    }
    let end = skip_kind(text, at, TokenKind::Dot)?;
    Ok((items, end))
}
