ghost use Rattle.std.specs.Prelude.{◌≤◌, ℕ, Result, length, IfOk};
ghost use Rattle.eq_base.specs.Tree.{Tree};
ghost use Rattle.eq_base.specs.Pattern.{PatternCell};
ghost use Rattle.eq_base.specs.ReadHead.{ReadHead};
ghost use Rattle.term_lex.specs.declared.fault.Fault.{Fault as Wrong};
ghost use Rattle.symbol_table.specs.Table.{Keeps, names_of};
ghost use Rattle.symbol_table.specs.Reading.{read, read_pattern, IsLiveTerm, IsLivePattern};
ghost use Rattle.lisp_m.specs.Refusing.{IsTermAt, IsPatternAt};
ghost use Rattle.written_terms.specs.Answering.{AnswersRight, AnswersAs, as_read};

use crate::scan::scan_term;
use eq_base::{Flat, Pattern};
use std::alloc::Global;
use symbol_table::{Symbols, Variables};
use written_terms::{ReadError, pattern_of, skip_dot, term_of};

/// What `read_term` answers.
fn term_at(
    alloc: Global,
    symbols: &mut Symbols,
    text: &[u8],
    at: usize,
) -> Result<(Flat, usize), ReadError>
    requires { at ≤ length text.now }
    ensures answer { AnswersRight (IsTermAt (names_of symbols.old) text.now at)
        (as_read (read symbols.new) result) }
    ensures live { IfOk result (λ x. IsLiveTerm symbols.new x.0) }
    ensures keeps { Keeps symbols.old symbols.new }
{
    let (mentions, end) = scan_term(alloc, text, at)?;
    let end = skip_dot(text, end)?;
    let term = term_of(alloc, symbols, text, &mentions)?;
    Ok((term, end))
}

/// What `read_pattern` answers.
fn pattern_at(
    alloc: Global,
    symbols: &mut Symbols,
    variables: &Variables,
    text: &[u8],
    at: usize,
) -> Result<(Pattern, usize), ReadError>
    requires { at ≤ length text.now }
    ensures answer { AnswersRight (IsPatternAt (names_of symbols.old) variables.now text.now at)
        (as_read (read_pattern symbols.new) result) }
    ensures live { IfOk result (λ x. IsLivePattern symbols.new x.0) }
    ensures keeps { Keeps symbols.old symbols.new }
{
    let (mentions, end) = scan_term(alloc, text, at)?;
    let pattern = pattern_of(alloc, symbols, variables, text, &mentions)?;
    Ok((pattern, end))
}

/// Reads the ground term that begins at `at`, and its dot: the term and the place after the dot.
///
/// The declarations of `symbols` stay, and its atoms and texts keep their numbers, whatever is answered. Linear time, and
/// memory for the names of the text and the term.
///
/// # Errors
///
/// The first fault of the reading, else the first name, literal or list that means nothing; out of memory.
pub fn read_term(
    alloc: Global,
    symbols: &mut Symbols,
    text: &[u8],
    at: usize,
) -> Result<(Flat, usize), ReadError>
    requires { at ≤ length text.now }
    ensures answer { AnswersRight (IsTermAt (names_of symbols.old) text.now at)
        (as_read (read symbols.new) result) }
    ensures only { (other : Result (Tree ReadHead × ℕ) Wrong)
        → IsTermAt (names_of symbols.old) text.now at other
        → AnswersAs other (as_read (read symbols.new) result) }
    ensures live { IfOk result (λ x. IsLiveTerm symbols.new x.0) }
    ensures keeps { Keeps symbols.old symbols.new }
{
    symbols.has_one_number_each();
    term_at(alloc, symbols, text, at)
}

/// Reads the term that begins at `at` as a pattern, in which the names of `variables` are variables: the pattern and the
/// place after the term. The token after the term is no part of it.
///
/// The declarations of `symbols` stay, and its atoms and texts keep their numbers, whatever is answered. Linear time, and
/// memory for the names of the text and the pattern.
///
/// # Errors
///
/// The first fault of the reading, else the first name, literal or list that means nothing; out of memory.
pub fn read_pattern(
    alloc: Global,
    symbols: &mut Symbols,
    variables: &Variables,
    text: &[u8],
    at: usize,
) -> Result<(Pattern, usize), ReadError>
    requires { at ≤ length text.now }
    ensures answer { AnswersRight (IsPatternAt (names_of symbols.old) variables.now text.now at)
        (as_read (read_pattern symbols.new) result) }
    ensures only { (other : Result (Tree (PatternCell ReadHead) × ℕ) Wrong)
        → IsPatternAt (names_of symbols.old) variables.now text.now at other
        → AnswersAs other (as_read (read_pattern symbols.new) result) }
    ensures live { IfOk result (λ x. IsLivePattern symbols.new x.0) }
    ensures keeps { Keeps symbols.old symbols.new }
{
    symbols.has_one_number_each();
    variables.has_one_number_each();
    pattern_at(alloc, symbols, variables, text, at)
}
