ghost use Rattle.std.specs.Prelude.{◌≡◌, ℕ, List, ◌∷◌, [], ◌++◌, true, IfOk, slice_range};
ghost use Rattle.term_lex.specs.Bytes.{is_escape, is_text_byte};
ghost use Rattle.term_lex.specs.Strings.{written, spelled, AreTextBytes, BeginsElement, IsString};
ghost use Rattle.term_lex.specs.Values.{IsStringOf};

use crate::token::Token;
use eq_base::NoMemory;
use std::alloc::Global;

/// The byte for which an escape stands, by the byte behind its backslash.
fn escaped(byte: u8) -> u8
    requires { is_escape byte ≡ true }
    ensures { written result ≡ 92 ∷ byte ∷ [] }
{
    match byte {
        b'n' => b'\n',
        b't' => b'\t',
        itself => itself,
    }
}

/// The byte that the element writes which begins these bytes, and the bytes behind it.
pub fn read_element(bytes: &[u8]) -> (u8, &[u8])
    requires { BeginsElement bytes.now }
    ensures { (is_text_byte result.0 ≡ true) × (bytes.now ≡ written result.0 ++ result.1.now) }
{
    match bytes {
        [b'\\', escape, after @ ..] => (escaped(*escape), after),
        [itself, after @ ..] => (*itself, after),
        [] => unreachable!(),
    }
}

/// The value that these elements of a string write.
fn value_of_elements(alloc: Global, elements: &[u8]) -> Result<Vec<u8>, NoMemory>
    requires { (value : List ℕ) × AreTextBytes value × (elements.now ≡ spelled value) }
    ensures { IfOk result (λ v. AreTextBytes v.items × (elements.now ≡ spelled v.items)) }
{
    let mut value = Vec::with_capacity(alloc, elements.len())?;
    let mut rest = elements;
    while !rest.is_empty() {
        let (byte, after) = read_element(rest);
        value.push(byte)?;
        rest = after;
    }
    Ok(value)
}

/// The value of the string that these bytes are.
fn value_of_bytes(alloc: Global, bytes: &[u8]) -> Result<Vec<u8>, NoMemory>
    requires { (value : List ℕ) × IsString bytes.now value }
    ensures { IfOk result (λ v. IsString bytes.now v.items) }
{
    value_of_elements(alloc, &bytes[1..bytes.len() - 1])
}

/// The value of a string, a token that `next_token` answers for this text. Linear time.
///
/// # Errors
///
/// Out of memory.
pub fn string_value(alloc: Global, text: &[u8], token: &Token) -> Result<Vec<u8>, NoMemory>
    requires { IsStringOf text.now token.now }
    ensures { IfOk result (λ v. IsString (slice_range text.now token.now.from token.now.to) v.items) }
{
    value_of_bytes(alloc, &text[token.from..token.to])
}
