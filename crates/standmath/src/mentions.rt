ghost use Rattle.std.specs.Prelude.{◌≡◌, ◌<◌, [], length, map, OnOk};
ghost use Rattle.term_lex.specs.declared.token.TokenKind.TheVariants.{OpenRound};
ghost use Rattle.written_terms.specs.Mentions.{pair_of};
ghost use Rattle.standmath.specs.Mentions.{met_head, met_kind, is_closed};

use eq_base::NoMemory;
use std::alloc::Global;
use std::marker::Model;
use term_lex::{Token, TokenKind};
use written_terms::Mention;

/// The names and literals of a term as they are met from left to right.
#[derive(Drop)]
pub struct Mentions {
    /// Those met so far, each with its arguments so far.
    mentions: Vec<Mention>,
    /// The numbers of those whose brackets are open, the innermost last.
    opened: Vec<usize>,
}

impl Model for Mentions {
    ghost use Rattle.standmath.specs.Mentions.{Met, met_of, IsSound};
    ghost use Rattle.term_lex.specs.declared.token.Token.{Token};

    ghost Value = { Met Token };

    ghost view = { λ m. met_of m.mentions.items m.opened.items };

    ghost invariant = { λ m. IsSound m.mentions.items m.opened.items };
}

impl Mentions {
    /// No mention. It takes no memory.
    pub fn new(alloc: Global) -> Mentions
        ensures { result ≡ record { heads = []; open_heads = [] } }
    {
        Mentions {
            mentions: Vec::new(alloc),
            opened: Vec::new(alloc),
        }
    }

    /// Whether no bracket is open.
    pub fn is_closed(&self) -> bool
        ensures { result ≡ is_closed self.now.open_heads }
    {
        self.opened.is_empty()
    }

    /// The mentions.
    pub fn finish(self) -> Vec<Mention>
        ensures { map pair_of result.items ≡ self.heads }
    {
        self.mentions
    }

    /// Takes a name or a literal, which is one more argument of the innermost open mention.
    fn take_head(&mut self, token: Token) -> Result<(), NoMemory>
        ensures { OnOk result (self.new ≡ met_head token self.old) }
    {
        let innermost = self.opened.last().copied();
        self.mentions.push(Mention { token, args: 0 })?;
        if let Some(number) = innermost {
            self.mentions[number].args += 1;
        }
        Ok(())
    }

    /// Takes the next token of the term.
    pub fn take(&mut self, token: Token) -> Result<(), NoMemory>
        requires { token.kind ≡ OpenRound → 0 < length self.old.heads }
        ensures { OnOk result (self.new ≡ met_kind token.kind token self.old) }
    {
        match token.kind {
            TokenKind::Name | TokenKind::Numeral | TokenKind::Text => self.take_head(token)?,
            TokenKind::OpenRound => self.opened.push(self.mentions.len() - 1)?,
            TokenKind::CloseRound => {
                self.opened.pop();
            }
            _ => {}
        }
        Ok(())
    }
}
