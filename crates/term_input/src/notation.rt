// Terms in the notation of a run.
ghost use Rattle.std.specs.Prelude.{◌≡◌, ◌<◌, ◌≤◌, ◌++◌, length, IfOk, OnOk};
ghost use Rattle.eq_base.specs.Tree.{size, nth_subtree};
ghost use Rattle.symbol_table.specs.Table.{Keeps, names_of};
ghost use Rattle.symbol_table.specs.Reading.{read, IsLiveTerm};
ghost use Rattle.written_terms.specs.Refusing.{IsTermAt};
ghost use Rattle.written_terms.specs.Answering.{AnswersRight, as_read};
ghost use Rattle.def_file.specs.Notations.{notation_of};
ghost use Rattle.term_input.specs.Printing.{print};

use eq_base::{Flat, NoMemory};
use std::alloc::Global;
use symbol_table::Symbols;
use term_lex::Syntax;
use written_terms::ReadError;

/// The term that begins at `at`, with its dot, and the place after the dot.
///
/// # Errors
///
/// The first fault of its reading, or else of its names; out of memory.
pub fn read_term(
    alloc: Global,
    syntax: Syntax,
    symbols: &mut Symbols,
    text: &[u8],
    at: usize,
) -> Result<(Flat, usize), ReadError>
    requires { at ≤ length text.now }
    ensures answer { AnswersRight (IsTermAt (notation_of syntax) (names_of symbols.old) text.now at)
        (as_read (read symbols.new) result) }
    ensures live { IfOk result (λ x. IsLiveTerm symbols.new x.0) }
    ensures keeps { Keeps symbols.old symbols.new }
{
    match syntax {
        Syntax::Standmath => standmath::read_term(alloc, symbols, text, at),
        Syntax::LispM => lisp_m::read_term(alloc, symbols, text, at),
    }
}

/// Appends the print of the term's part at a node.
pub fn write_term(
    alloc: Global,
    syntax: Syntax,
    symbols: &Symbols,
    term: &Flat,
    node: usize,
    into: &mut Vec<u8>,
) -> Result<(), NoMemory>
    requires live { IsLiveTerm symbols.now term.now }
    requires node { node < size term.now }
    ensures { OnOk result (into.new.items ≡ into.old.items
        ++ print syntax (names_of symbols.now) (nth_subtree (read symbols.now term.now) node)) }
{
    match syntax {
        Syntax::Standmath => standmath::write_term(alloc, symbols, term, node, into),
        Syntax::LispM => lisp_m::write_term(alloc, symbols, term, node, into),
    }
}
