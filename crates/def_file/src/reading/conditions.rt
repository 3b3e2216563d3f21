// What the variables of an equation may stand for.
ghost use Rattle.std.specs.Prelude.{◌≤◌, length, map};
ghost use Rattle.term_lex.specs.declared.token.TokenKind.TheVariants.{Comma};
ghost use Rattle.term_lex.specs.Parts.{IsKind, Led, Separated};
ghost use Rattle.def_file.specs.Grammar.{IsInClass, IsOneOf, IsRestriction, IsCondition, IsWhere, IsConditions};
ghost use Rattle.def_file.specs.Views.{restriction, condition};
ghost use Rattle.def_file.specs.Reading.{IsReadBy, IsReadIn};
ghost use Rattle.def_file.specs.Notations.{notation_of};

use super::terms::read_terms;
use super::tokens::{next_is, next_is_word, read_token, skip_kind, skip_word};
use crate::error::FileError;
use crate::tree::{Condition, Restriction};
use std::alloc::Global;
use term_lex::{Syntax, Token, TokenKind};

/// The word `in` and a class.
fn read_in(text: &[u8], at: usize) -> Result<(Token, usize), FileError>
    requires { at ≤ length text.now }
    ensures { IsReadBy IsInClass (λ name. name) text.now at result }
{
    let class_at = skip_word(text, at, b"in")?;
    let (class, end) = read_token(text, class_at, TokenKind::Name)?;
    Ok((class, end))
}

/// The word `either`, alternatives and the words `end or`.
fn read_either(
    alloc: Global,
    text: &[u8],
    syntax: Syntax,
    at: usize,
) -> Result<(Vec<usize>, usize), FileError>
    requires { at ≤ length text.now }
    ensures { let notation = notation_of syntax in
        IsReadIn notation (IsOneOf notation) (λ terms. terms.items) text.now at result }
{
    let terms_at = skip_word(text, at, b"either")?;
    let (terms, end_at) = read_terms(alloc, text, syntax, terms_at)?;
    let or_at = skip_word(text, end_at, b"end")?;
    let end = skip_word(text, or_at, b"or")?;
    Ok((terms, end))
}

/// What stands behind the word `is`.
fn read_restriction(
    alloc: Global,
    text: &[u8],
    syntax: Syntax,
    at: usize,
) -> Result<(Restriction, usize), FileError>
    requires { at ≤ length text.now }
    ensures { let notation = notation_of syntax in
        IsReadIn notation (IsRestriction notation) restriction text.now at result }
{
    if next_is_word(text, at, b"in") {
        let (class, class_end) = read_in(text, at)?;
        return Ok((Restriction::InClass(class), class_end));
    }
    let (terms, end) = read_either(alloc, text, syntax, at)?;
    Ok((Restriction::OneOf(terms), end))
}

/// A variable and what it may stand for.
fn read_condition(
    alloc: Global,
    text: &[u8],
    syntax: Syntax,
    at: usize,
) -> Result<(Condition, usize), FileError>
    requires { at ≤ length text.now }
    ensures { let notation = notation_of syntax in
        IsReadIn notation (IsCondition notation) condition text.now at result }
{
    let (variable, is_at) = read_token(text, at, TokenKind::Name)?;
    let restriction_at = skip_word(text, is_at, b"is")?;
    let (restriction, end) = read_restriction(alloc, text, syntax, restriction_at)?;
    let condition = Condition {
        variable,
        restriction,
    };
    Ok((condition, end))
}

/// A comma and a condition.
fn read_next_condition(
    alloc: Global,
    text: &[u8],
    syntax: Syntax,
    at: usize,
) -> Result<(Condition, usize), FileError>
    requires { at ≤ length text.now }
    ensures { let notation = notation_of syntax in
        IsReadIn notation (Led (IsKind Comma) (IsCondition notation)) condition text.now at result }
{
    let condition_at = skip_kind(text, at, TokenKind::Comma)?;
    let (condition, end) = read_condition(alloc, text, syntax, condition_at)?;
    Ok((condition, end))
}

/// Conditions with commas between them.
fn read_conditions(
    alloc: Global,
    text: &[u8],
    syntax: Syntax,
    at: usize,
) -> Result<(Vec<Condition>, usize), FileError>
    requires { at ≤ length text.now }
    ensures { let notation = notation_of syntax in IsReadIn notation
        (Separated (IsKind Comma) (IsCondition notation)) (λ v. map condition v.items) text.now at result }
{
    let mut conditions = Vec::new(alloc);
    let (first, first_end) = read_condition(alloc, text, syntax, at)?;
    conditions.push(first)?;
    let mut end = first_end;
    'conditions: while next_is(text, end, TokenKind::Comma) {
        let (condition, condition_end) = read_next_condition(alloc, text, syntax, end)?;
        conditions.push(condition)?;
        end = condition_end;
    }
    Ok((conditions, end))
}

/// The word `where`, conditions and the words `end where`.
fn read_qualified(
    alloc: Global,
    text: &[u8],
    syntax: Syntax,
    at: usize,
) -> Result<(Vec<Condition>, usize), FileError>
    requires { at ≤ length text.now }
    ensures { let notation = notation_of syntax in
        IsReadIn notation (IsConditions notation) (λ v. map condition v.items) text.now at result }
{
    let conditions_at = skip_word(text, at, b"where")?;
    let (conditions, end_at) = read_conditions(alloc, text, syntax, conditions_at)?;
    let where_at = skip_word(text, end_at, b"end")?;
    let end = skip_word(text, where_at, b"where")?;
    Ok((conditions, end))
}

/// The conditions of an equation, if it has some.
pub fn read_where(
    alloc: Global,
    text: &[u8],
    syntax: Syntax,
    at: usize,
) -> Result<(Vec<Condition>, usize), FileError>
    requires { at ≤ length text.now }
    ensures { let notation = notation_of syntax in
        IsReadIn notation (IsWhere notation) (λ v. map condition v.items) text.now at result }
{
    if next_is_word(text, at, b"where") {
        let (conditions, end) = read_qualified(alloc, text, syntax, at)?;
        return Ok((conditions, end));
    }
    Ok((Vec::new(alloc), at))
}
