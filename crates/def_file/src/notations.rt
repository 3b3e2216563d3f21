// The readers of terms, chosen by the notation.
ghost use Rattle.std.specs.Prelude.{◌≤◌, ℕ, List, Result, length, IfOk};
ghost use Rattle.eq_base.specs.Tree.{Tree};
ghost use Rattle.eq_base.specs.Pattern.{PatternCell};
ghost use Rattle.eq_base.specs.ReadHead.{ReadHead};
ghost use Rattle.term_lex.specs.Lexemes.{IsAnswerBy};
ghost use Rattle.symbol_table.specs.Table.{Keeps, names_of};
ghost use Rattle.symbol_table.specs.Reading.{read_pattern, IsLivePattern};
ghost use Rattle.written_terms.specs.Notation.{IsSomeTerm};
ghost use Rattle.written_terms.specs.Refusing.{IsPatternAt};
ghost use Rattle.written_terms.specs.Answering.{AnswersRight, as_read};
ghost use Rattle.def_file.specs.Notations.{notation_of};

use eq_base::Pattern;
use std::alloc::Global;
use symbol_table::{Symbols, Variables};
use term_lex::Syntax;
use written_terms::ReadError;

/// The place after a term.
pub fn skip_term(alloc: Global, text: &[u8], syntax: Syntax, at: usize) -> Result<usize, ReadError>
    requires { at ≤ length text.now }
    ensures { let notation = notation_of syntax in AnswersRight
        (IsAnswerBy (notation.Misplaced (IsSomeTerm notation)) (IsSomeTerm notation) text.now at) result }
{
    match syntax {
        Syntax::Standmath => standmath::skip_term(alloc, text, at),
        Syntax::LispM => lisp_m::skip_term(alloc, text, at),
    }
}

/// A pattern, and the place after it.
pub fn read_pattern(
    alloc: Global,
    syntax: Syntax,
    symbols: &mut Symbols,
    variables: &Variables,
    text: &[u8],
    at: usize,
) -> Result<(Pattern, usize), ReadError>
    requires { at ≤ length text.now }
    ensures answer { AnswersRight
        (IsPatternAt (notation_of syntax) (names_of symbols.old) variables.now text.now at)
        (as_read (read_pattern symbols.new) result) }
    ensures live { IfOk result (λ x. IsLivePattern symbols.new x.0) }
    ensures keeps { Keeps symbols.old symbols.new }
{
    match syntax {
        Syntax::Standmath => standmath::read_pattern(alloc, symbols, variables, text, at),
        Syntax::LispM => lisp_m::read_pattern(alloc, symbols, variables, text, at),
    }
}
