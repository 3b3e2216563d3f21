ghost use Rattle.std.specs.Prelude.{◌≡◌, ◌≤◌, ℕ, Result, length, ◌&&◌, IfOk, IfErr};
ghost use Rattle.term_lex.specs.declared.fault.Fault.{Fault as Wrong};
ghost use Rattle.term_lex.specs.Lexemes.{IsAnswerBy, IsFirstFault};
ghost use Rattle.lisp_m.specs.Terms.{IsSomeTerm};
ghost use Rattle.lisp_m.specs.Notation.{Misplaced};
ghost use Rattle.lisp_m.specs.Steps.{ends_term};
ghost use Rattle.written_terms.specs.Answering.{IfRefused, AnswersRight, AnswersAs};
ghost use Rattle.lisp_m.specs.Mentions.{is_closed, Mentioned};
ghost use Rattle.lisp_m.specs.Mentions.{innermost, stuck_fault};

use crate::mentions::Mentions;
use crate::place::Place;
use std::alloc::Global;
use term_lex::{Fault, FaultKind, Token, TokenKind, misplaced, next_token};
use written_terms::{Mention, ReadError};

/// Whether the tokens so far are a whole term.
fn is_whole(met: &Mentions, place: Place) -> bool
    ensures { result ≡ (is_closed met.now.opens && ends_term place) }
{
    met.is_closed() && place.ends_term()
}

/// The fault of a token that cannot stand at the place: a dot where a list could end, or any other.
fn stuck(met: &Mentions, place: Place, token: Token) -> Fault
    ensures { result ≡ stuck_fault place (innermost met.now.opens) token }
{
    let ends = place.step(met.innermost(), TokenKind::CloseRound).is_some();
    if token.kind == TokenKind::Dot && ends {
        Fault {
            kind: FaultKind::DotPlace,
            byte: token.from,
        }
    } else {
        misplaced(token)
    }
}

/// The names, literals and parts of lists of the term that begins at `at`, and the place after it, or the first fault of
/// its reading.
pub fn scan_term(alloc: Global, text: &[u8], at: usize) -> Result<(Vec<Mention>, usize), ReadError>
    requires { at ≤ length text.now }
    ensures ok { IfOk result (λ x. Mentioned text.now at x.0.items x.1) }
    ensures err { IfErr result (IfRefused (IsFirstFault (Misplaced IsSomeTerm) IsSomeTerm text.now at)) }
{
    let mut met = Mentions::new(alloc);
    let mut place = Place::Term;
    let mut end = at;
    'tokens: loop {
        match next_token(text, end) {
            Ok(token) => match place.step(met.innermost(), token.kind) {
                Some(next) => {
                    met.take(token)?;
                    place = next;
                    end = token.to;
                }
                None if is_whole(&met, place) => return Ok((met.finish(), end)),
                None => return Err(ReadError::Refused(stuck(&met, place, token))),
            },
            Err(_) if is_whole(&met, place) => return Ok((met.finish(), end)),
            Err(fault) => return Err(ReadError::Refused(fault)),
        }
    }
}

/// What `skip_term` answers.
fn skip(alloc: Global, text: &[u8], at: usize) -> Result<usize, ReadError>
    requires { at ≤ length text.now }
    ensures { AnswersRight (IsAnswerBy (Misplaced IsSomeTerm) IsSomeTerm text.now at) result }
{
    let (_, end) = scan_term(alloc, text, at)?;
    Ok(end)
}

/// The place after the term that begins at `at`, or the first fault of its reading. The token after the term is no part
/// of it. Linear time, and memory for its names, literals and parts of lists and for each open bracket.
pub fn skip_term(alloc: Global, text: &[u8], at: usize) -> Result<usize, ReadError>
    requires { at ≤ length text.now }
    ensures answer { AnswersRight (IsAnswerBy (Misplaced IsSomeTerm) IsSomeTerm text.now at) result }
    ensures only { (other : Result ℕ Wrong) → IsAnswerBy (Misplaced IsSomeTerm) IsSomeTerm text.now at other
        → AnswersAs other result }
{
    skip(alloc, text, at)
}
