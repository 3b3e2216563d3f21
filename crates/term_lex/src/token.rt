/// What kind of word a token is.
#[derive(Clone, Copy, Debug, PartialEq, Eq)]
pub enum TokenKind {
    /// A letter or `_`, then letters, digits and `_`.
    Name,
    /// Digits, with an optional `-` before them.
    Numeral,
    /// A string, with its quotes.
    Text,
    /// `(`
    OpenRound,
    /// `)`
    CloseRound,
    /// `[`
    OpenSquare,
    /// `]`
    CloseSquare,
    /// `,`
    Comma,
    /// `;`
    Semicolon,
    /// `:`
    Colon,
    /// `.`
    Dot,
    /// `=`
    Equals,
    /// The end of the text.
    End,
}

/// A token: its text is the slice from `from` to `to`.
#[derive(Clone, Copy, Debug, PartialEq, Eq)]
pub struct Token {
    /// What kind of word it is.
    pub kind: TokenKind,
    /// Its first byte.
    pub from: usize,
    /// The byte after its last.
    pub to: usize,
}
