// Lists of names.
ghost use Rattle.std.specs.Prelude.{◌≤◌, length};
ghost use Rattle.term_lex.specs.declared.token.TokenKind.TheVariants.{Name, Comma};
ghost use Rattle.term_lex.specs.Parts.{IsKind, Led};
ghost use Rattle.def_file.specs.Grammar.{IsToken, IsNames, IsIncludeOf};
ghost use Rattle.def_file.specs.Reading.{IsReadBy};

use super::tokens::{next_is, read_token, read_word, skip_kind};
use crate::error::FileError;
use std::alloc::Global;
use term_lex::{Token, TokenKind};

/// A comma and a name.
fn read_next_name(text: &[u8], at: usize) -> Result<(Token, usize), FileError>
    requires { at ≤ length text.now }
    ensures { IsReadBy (Led (IsKind Comma) (IsToken Name)) (λ name. name) text.now at result }
{
    let name_at = skip_kind(text, at, TokenKind::Comma)?;
    let (name, end) = read_token(text, name_at, TokenKind::Name)?;
    Ok((name, end))
}

/// Names with commas between them.
pub fn read_names(alloc: Global, text: &[u8], at: usize) -> Result<(Vec<Token>, usize), FileError>
    requires { at ≤ length text.now }
    ensures { IsReadBy IsNames (λ names. names.items) text.now at result }
{
    let mut names = Vec::new(alloc);
    let (first, first_end) = read_token(text, at, TokenKind::Name)?;
    names.push(first)?;
    let mut end = first_end;
    'names: while next_is(text, end, TokenKind::Comma) {
        let (name, name_end) = read_next_name(text, end)?;
        names.push(name)?;
        end = name_end;
    }
    Ok((names, end))
}

/// The word `include` and names.
pub fn read_include(
    alloc: Global,
    text: &[u8],
    at: usize,
) -> Result<((Token, Vec<Token>), usize), FileError>
    requires { at ≤ length text.now }
    ensures { IsReadBy IsIncludeOf (λ include. (include.0, include.1.items)) text.now at result }
{
    let (include, names_at) = read_word(text, at, b"include")?;
    let (names, end) = read_names(alloc, text, names_at)?;
    Ok(((include, names), end))
}
