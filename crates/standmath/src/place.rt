ghost use Rattle.std.specs.Prelude.{◌≡◌};
ghost use Rattle.standmath.specs.Steps.{step_of, ends_term};

use term_lex::TokenKind;

/// What may stand next in a term.
#[derive(Clone, Copy, Debug, PartialEq, Eq)]
pub enum Place {
    /// A term.
    Term,
    /// A term, or the bracket that closes an empty list of arguments.
    FirstArgument,
    /// The bracket that opens a list of arguments, or what may follow a term.
    AfterName,
    /// A comma or a closing bracket.
    AfterTerm,
}

impl Place {
    /// Whether a term may end here.
    pub fn ends_term(self) -> bool
        ensures { result ≡ ends_term self }
    {
        matches!(self, Place::AfterName | Place::AfterTerm)
    }

    /// The place behind one more token, or `None` where it cannot stand here; `nested` says that brackets are open.
    pub fn step(self, kind: TokenKind, nested: bool) -> Option<Place>
        ensures { result ≡ step_of self kind nested }
    {
        match (self, kind) {
            (Place::Term | Place::FirstArgument, TokenKind::Name) => Some(Place::AfterName),
            (Place::Term | Place::FirstArgument, TokenKind::Numeral | TokenKind::Text) => {
                Some(Place::AfterTerm)
            }
            (Place::AfterName, TokenKind::OpenRound) => Some(Place::FirstArgument),
            (Place::AfterName | Place::AfterTerm, TokenKind::Comma) if nested => Some(Place::Term),
            (Place::FirstArgument | Place::AfterName | Place::AfterTerm, TokenKind::CloseRound)
                if nested => { Some(Place::AfterTerm) }
            _ => None,
        }
    }
}
