// The single tokens of a file.
ghost use Rattle.std.specs.Prelude.{◌≡◌, ◌≤◌, length, true, false};
ghost use Rattle.term_lex.specs.Lexemes.{lexeme};
ghost use Rattle.term_lex.specs.Parts.{IsKind, IsWord, One, NextIs};
ghost use Rattle.def_file.specs.Grammar.{IsToken, IsWordAs};
ghost use Rattle.def_file.specs.Reading.{IsSkip, IsReadBy};

use crate::error::FileError;
use term_lex::{Token, TokenKind, misplaced, next_token};

/// Whether the token is of the kind.
fn is_kind(token: Token, kind: TokenKind) -> bool
    ensures yes { result ≡ true → token.kind ≡ kind }
    ensures not { result ≡ false → token.kind ≡ kind → ⊥ }
{
    token.kind == kind
}

/// Whether the token is the word.
fn is_word(text: &[u8], token: Token, word: &[u8]) -> bool
    requires ordered { token.from ≤ token.to }
    requires within { token.to ≤ length text.now }
    ensures yes { result ≡ true → IsWord word.now (lexeme text.now token) }
    ensures not { result ≡ false → IsWord word.now (lexeme text.now token) → ⊥ }
{
    is_kind(token, TokenKind::Name) && &text[token.from..token.to] == word
}

/// Whether the next token is of the kind.
pub fn next_is(text: &[u8], at: usize, kind: TokenKind) -> bool
    requires { at ≤ length text.now }
    ensures yes { result ≡ true → NextIs (IsKind kind) text.now at }
    ensures not { result ≡ false → NextIs (IsKind kind) text.now at → ⊥ }
{
    match next_token(text, at) {
        Ok(token) => is_kind(token, kind),
        Err(_) => false,
    }
}

/// Whether the next token is the word.
pub fn next_is_word(text: &[u8], at: usize, word: &[u8]) -> bool
    requires { at ≤ length text.now }
    ensures yes { result ≡ true → NextIs (IsWord word.now) text.now at }
    ensures not { result ≡ false → NextIs (IsWord word.now) text.now at → ⊥ }
{
    match next_token(text, at) {
        Ok(token) => is_word(text, token, word),
        Err(_) => false,
    }
}

/// The next token, which is of the kind, and the place after it.
pub fn read_token(text: &[u8], at: usize, kind: TokenKind) -> Result<(Token, usize), FileError>
    requires { at ≤ length text.now }
    ensures { IsReadBy (IsToken kind) (λ token. token) text.now at result }
{
    let token = next_token(text, at)?;
    if !is_kind(token, kind) {
        return Err(FileError::Refused(misplaced(token)));
    }
    Ok((token, token.to))
}

/// The next token, which is the word, and the place after it.
pub fn read_word(text: &[u8], at: usize, word: &[u8]) -> Result<(Token, usize), FileError>
    requires { at ≤ length text.now }
    ensures { IsReadBy (IsWordAs word.now) (λ token. token) text.now at result }
{
    let token = next_token(text, at)?;
    if !is_word(text, token, word) {
        return Err(FileError::Refused(misplaced(token)));
    }
    Ok((token, token.to))
}

/// The place after the next token, which is of the kind.
pub fn skip_kind(text: &[u8], at: usize, kind: TokenKind) -> Result<usize, FileError>
    requires { at ≤ length text.now }
    ensures { IsSkip (One (IsKind kind)) text.now at result }
{
    let token = next_token(text, at)?;
    if !is_kind(token, kind) {
        return Err(FileError::Refused(misplaced(token)));
    }
    Ok(token.to)
}

/// The place after the word, which comes next.
pub fn skip_word(text: &[u8], at: usize, word: &[u8]) -> Result<usize, FileError>
    requires { at ≤ length text.now }
    ensures { IsSkip (One (IsWord word.now)) text.now at result }
{
    let token = next_token(text, at)?;
    if !is_word(text, token, word) {
        return Err(FileError::Refused(misplaced(token)));
    }
    Ok(token.to)
}
