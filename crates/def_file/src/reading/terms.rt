// Terms, which are known by their first bytes.
ghost use Rattle.std.specs.Prelude.{◌≤◌, length, codes};
ghost use Rattle.term_lex.specs.Parts.{IsWord, Led};
ghost use Rattle.def_file.specs.Grammar.{IsTermFrom, IsTerms};
ghost use Rattle.def_file.specs.Reading.{IsReadIn};
ghost use Rattle.def_file.specs.Notations.{notation_of};

use super::tokens::{next_is_word, skip_word};
use crate::error::FileError;
use crate::notations::skip_term;
use std::alloc::Global;
use term_lex::{Syntax, next_token};

/// The first byte of a term, and the place after it.
pub fn read_term(
    alloc: Global,
    text: &[u8],
    syntax: Syntax,
    at: usize,
) -> Result<(usize, usize), FileError>
    requires { at ≤ length text.now }
    ensures { let notation = notation_of syntax in
        IsReadIn notation (IsTermFrom notation) (λ byte. byte) text.now at result }
{
    let first = next_token(text, at)?;
    let end = skip_term(alloc, text, syntax, at)?;
    Ok((first.from, end))
}

/// The word `or` and a term.
fn read_next_term(
    alloc: Global,
    text: &[u8],
    syntax: Syntax,
    at: usize,
) -> Result<(usize, usize), FileError>
    requires { at ≤ length text.now }
    ensures { let notation = notation_of syntax in IsReadIn notation
        (Led (IsWord (codes "or")) (IsTermFrom notation)) (λ byte. byte) text.now at result }
{
    let term_at = skip_word(text, at, b"or")?;
    let (term, end) = read_term(alloc, text, syntax, term_at)?;
    Ok((term, end))
}

/// Terms with the word `or` between them.
pub fn read_terms(
    alloc: Global,
    text: &[u8],
    syntax: Syntax,
    at: usize,
) -> Result<(Vec<usize>, usize), FileError>
    requires { at ≤ length text.now }
    ensures { let notation = notation_of syntax in
        IsReadIn notation (IsTerms notation) (λ terms. terms.items) text.now at result }
{
    let mut terms = Vec::new(alloc);
    let (first, first_end) = read_term(alloc, text, syntax, at)?;
    terms.push(first)?;
    let mut end = first_end;
    'terms: while next_is_word(text, end, b"or") {
        let (term, term_end) = read_next_term(alloc, text, syntax, end)?;
        terms.push(term)?;
        end = term_end;
    }
    Ok((terms, end))
}
