ghost use Rattle.std.specs.Prelude.{◌≡◌, ◌<◌, ◌≤◌, [], ◌∷◌, ◌++◌, length, map, All, OnOk, IfSome, IsNone};
ghost use Rattle.term_lex.specs.declared.token.TokenKind.TheVariants.{OpenSquare, CloseRound, Dot};
ghost use Rattle.written_terms.specs.Mentions.{pair_of};
ghost use Rattle.lisp_m.specs.Mentions.{parted, added, without_first, opened, met_head, met_sign, met_kind, is_closed, innermost};

use crate::place::Bracket;
use eq_base::NoMemory;
use std::alloc::Global;
use std::marker::Model;
use term_lex::{Token, TokenKind};
use written_terms::Mention;

/// An open bracket, and the number of the mention before it: the name, or the first part of the list.
#[derive(Clone, Copy, Debug, PartialEq, Eq)]
pub struct Open {
    /// Which bracket it is.
    pub bracket: Bracket,
    /// The number of the mention.
    pub number: usize,
}

/// The names, literals and parts of lists of a term as they are met from left to right.
#[derive(Drop)]
pub struct Mentions {
    /// Those met so far, each with its arguments so far.
    mentions: Vec<Mention>,
    /// The open brackets, the innermost last.
    opened: Vec<Open>,
}

impl Model for Mentions {
    ghost use Rattle.lisp_m.specs.Mentions.{Met, met_of, IsSound};
    ghost use Rattle.term_lex.specs.declared.token.Token.{Token};

    ghost Value = { Met Token };

    ghost view = { λ m. met_of m.mentions.items m.opened.items };

    ghost invariant = { λ m. IsSound m.mentions.items m.opened.items };
}

impl Mentions {
    /// No mention. It takes no memory.
    pub fn new(alloc: Global) -> Mentions
        ensures { result ≡ record { heads = []; opens = [] } }
    {
        Mentions {
            mentions: Vec::new(alloc),
            opened: Vec::new(alloc),
        }
    }

    /// The innermost open bracket.
    pub fn innermost(&self) -> Option<Bracket>
        ensures { result ≡ innermost self.now.opens }
    {
        let last = self.opened.last().copied()?;
        Some(last.bracket)
    }

    /// Whether no bracket is open.
    pub fn is_closed(&self) -> bool
        ensures { result ≡ is_closed self.now.opens }
    {
        self.opened.is_empty()
    }

    /// The mentions.
    pub fn finish(self) -> Vec<Mention>
        ensures { map pair_of result.items ≡ self.heads }
    {
        self.mentions
    }

    /// Takes one more part of a list that has elements, with so many arguments.
    fn take_part(&mut self, inner: Open, args: usize) -> Result<(), NoMemory>
        requires there { inner.number < length self.old.heads }
        requires few { args ≤ 2 }
        ensures { OnOk result (self.new ≡ record {
          heads = parted args inner.bracket inner.number self.old.heads;
          opens = self.old.opens;
        }) }
    {
        match inner.bracket {
            Bracket::Round => {
                let token = self.mentions[inner.number].token;
                self.mentions.push(Mention { token, args })?;
                Ok(())
            }
            _ => Ok(()),
        }
    }

    /// Takes a mention without arguments so far.
    fn push(&mut self, token: Token) -> Result<(), NoMemory>
        ensures ok { OnOk result (self.new
            ≡ record { heads = self.old.heads ++ (token, 0) ∷ []; opens = self.old.opens }) }
        ensures few { OnOk result (All (λ head. head.1 ≤ length self.new.heads) self.new.heads) }
    {
        self.mentions.push(Mention { token, args: 0 })?;
        Ok(())
    }

    /// Counts a term that began in an open bracket.
    fn count(&mut self, inner: Open)
        requires there { inner.number < length self.old.heads }
        requires few { All (λ head. head.1 ≤ length self.old.heads) self.old.heads }
        ensures { self.new
            ≡ record { heads = added inner.bracket inner.number self.old.heads; opens = self.old.opens } }
    {
        match inner.bracket {
            Bracket::Square => self.mentions[inner.number].args += 1,
            Bracket::NoElement => self.mentions[inner.number].args = 2,
            _ => {}
        }
    }

    /// Puts an open bracket in place of the innermost one.
    fn turn(&mut self, inner: Open) -> Result<(), NoMemory>
        requires { inner.number < length self.old.heads }
        ensures { OnOk result (self.new
            ≡ record { heads = self.old.heads; opens = inner ∷ without_first self.old.opens }) }
    {
        self.opened.pop();
        self.opened.push(inner)?;
        Ok(())
    }

    /// The innermost open bracket and its mention.
    fn last(&self) -> Option<Open>
        ensures some { IfSome result (λ inner.
            (inner.number < length self.now.heads)
            × (self.now.opens ≡ inner ∷ without_first self.now.opens)) }
        ensures none { IsNone result → self.now.opens ≡ [] }
    {
        self.opened.last().copied()
    }

    /// Takes a name, a literal or the bracket of a list, with which a term begins.
    fn take_head(&mut self, token: Token) -> Result<(), NoMemory>
        ensures { OnOk result (self.new ≡ met_head token self.old) }
    {
        let Some(inner) = self.last() else {
            return self.push(token);
        };
        self.take_part(inner, 2)?;
        self.push(token)?;
        self.count(inner);
        self.turn(Open {
            bracket: inner.bracket.entered(),
            number: inner.number,
        })
    }

    /// Opens a bracket behind the last mention.
    fn push_open(&mut self, bracket: Bracket) -> Result<(), NoMemory>
        requires { 0 < length self.old.heads }
        ensures { OnOk result (self.new ≡ opened bracket self.old) }
    {
        self.opened.push(Open {
            bracket,
            number: self.mentions.len() - 1,
        })?;
        Ok(())
    }

    /// Closes the innermost bracket.
    fn close(&mut self)
        ensures { self.new ≡ record { heads = self.old.heads; opens = without_first self.old.opens } }
    {
        self.opened.pop();
    }

    /// Closes the innermost list.
    fn close_list(&mut self) -> Result<(), NoMemory>
        ensures { OnOk result (self.new ≡ met_sign CloseRound self.old) }
    {
        if let Some(inner) = self.last() {
            self.take_part(inner, 0)?;
        }
        self.close();
        Ok(())
    }

    /// Takes a dot.
    fn take_dot(&mut self) -> Result<(), NoMemory>
        ensures { OnOk result (self.new ≡ met_sign Dot self.old) }
    {
        let Some(inner) = self.last() else {
            return Ok(());
        };
        self.turn(Open {
            bracket: inner.bracket.dotted(),
            number: inner.number,
        })
    }

    /// Takes the next token of the term.
    pub fn take(&mut self, token: Token) -> Result<(), NoMemory>
        requires { token.kind ≡ OpenSquare → 0 < length self.old.heads }
        ensures { OnOk result (self.new ≡ met_kind token.kind token self.old) }
    {
        match token.kind {
            TokenKind::Name | TokenKind::Numeral | TokenKind::Text => self.take_head(token),
            TokenKind::OpenRound => {
                self.take_head(token)?;
                self.push_open(Bracket::NoElement)
            }
            TokenKind::OpenSquare => self.push_open(Bracket::Square),
            TokenKind::CloseSquare => {
                self.close();
                Ok(())
            }
            TokenKind::CloseRound => self.close_list(),
            TokenKind::Dot => self.take_dot(),
            _ => Ok(()),
        }
    }
}
