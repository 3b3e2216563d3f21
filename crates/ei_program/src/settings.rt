// How terms are read and answered.
use term_lex::Syntax;

/// How terms are read and answered.
#[derive(Clone, Copy, Debug, PartialEq, Eq)]
pub struct Settings {
    /// The notation of the terms and of their lines.
    pub syntax: Syntax,
    /// The most replacements for each term.
    pub budget: u64,
    /// The most nodes of a normal form that is printed.
    pub most: u64,
    /// The most bytes of the input.
    pub input_bytes: u64,
}
