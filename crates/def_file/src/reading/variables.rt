// The list of variables.
ghost use Rattle.std.specs.Prelude.{◌≤◌, length};
ghost use Rattle.def_file.specs.Grammar.{IsNameList, IsVariables};
ghost use Rattle.def_file.specs.Reading.{IsReadBy};

use super::names::read_names;
use super::tokens::{next_is, skip_kind};
use crate::error::FileError;
use std::alloc::Global;
use term_lex::{Token, TokenKind};

/// Names and a colon.
fn read_named(alloc: Global, text: &[u8], at: usize) -> Result<(Vec<Token>, usize), FileError>
    requires { at ≤ length text.now }
    ensures { IsReadBy IsNameList (λ names. names.items) text.now at result }
{
    let (names, colon_at) = read_names(alloc, text, at)?;
    let end = skip_kind(text, colon_at, TokenKind::Colon)?;
    Ok((names, end))
}

/// The variables, if there are some, and the colon behind them.
pub fn read_variables(
    alloc: Global,
    text: &[u8],
    at: usize,
) -> Result<(Vec<Token>, usize), FileError>
    requires { at ≤ length text.now }
    ensures { IsReadBy IsVariables (λ names. names.items) text.now at result }
{
    if next_is(text, at, TokenKind::Colon) {
        let end = skip_kind(text, at, TokenKind::Colon)?;
        return Ok((Vec::new(alloc), end));
    }
    let (names, end) = read_named(alloc, text, at)?;
    Ok((names, end))
}
