ghost use Rattle.std.specs.Prelude.{◌≡◌, ℕ, ◌+◌, ◌*◌, ◌-◌, ◌≤◌, ◌<◌, ◌^◌, length, take, true, slice_range};
ghost use Rattle.std.specs.List.{prefix_len};
ghost use Rattle.std.specs.Char.{is_ascii_digit};
ghost use Rattle.std.specs.Str.Parse.{AllDigits, digits_value};
ghost use Rattle.term_lex.specs.Tokens.{is_in_range};
ghost use Rattle.term_lex.specs.Values.{signed, numeral_value, IsNumeral, IsNumeralOf};
ghost use Rattle.term_lex.specs.Sizes.{IsSize};

use crate::token::Token;

/// The size of the least numeral, -2^127.
const LARGEST: u128 = 1 << 127;

/// The digits at the front of some bytes.
#[derive(Clone, Copy, Drop)]
pub struct Digits {
    /// How many there are.
    pub len: usize,
    /// The number that they write, or `None` past 2^127.
    pub size: Option<u128>,
}

/// The number with one more digit behind it, or `None` past 2^127.
fn with_digit(size: Option<u128>, digit: u8) -> Option<u128>
    requires { is_ascii_digit digit ≡ true }
    ensures { (n : ℕ) → IsSize n size → IsSize (n * 10 + (digit - 48)) result }
{
    let size = size.filter(|size| *size <= LARGEST / 10)? * 10 + u128::from(digit - b'0');
    if size > LARGEST { None } else { Some(size) }
}

/// The digits at the front, each read once.
pub fn read_digits(bytes: &[u8]) -> Digits
    ensures len { result.len ≡ prefix_len is_ascii_digit bytes.now }
    ensures within { result.len ≤ length bytes.now }
    ensures size { IsSize (digits_value 10 (take result.len bytes.now)) result.size }
{
    let mut digits = Digits {
        len: 0,
        size: Some(0),
    };
    for byte in bytes {
        if !byte.is_ascii_digit() {
            break;
        }
        digits.size = with_digit(digits.size, *byte);
        digits.len += 1;
    }
    digits
}

/// Whether a number of this sign and size is a numeral.
pub fn fits(negative: bool, size: Option<u128>) -> bool
    ensures { (n : ℕ) → IsSize n size → result ≡ is_in_range negative n }
{
    match size {
        Some(size) => negative || size < LARGEST,
        None => false,
    }
}

/// The number of this sign and size.
fn signed(negative: bool, size: u128) -> i128
    requires { is_in_range negative size ≡ true }
    ensures { result ≡ signed negative size }
{
    if !negative {
        size as i128
    } else if size < LARGEST {
        -(size as i128)
    } else {
        i128::MIN
    }
}

/// The number that digits of this sign write.
fn value_of_digits(negative: bool, digits: &[u8]) -> i128
    requires digits { AllDigits 10 digits.now }
    requires in_range { is_in_range negative (digits_value 10 digits.now) ≡ true }
    ensures { result ≡ signed negative (digits_value 10 digits.now) }
{
    match read_digits(digits).size {
        Some(size) => signed(negative, size),
        None => unreachable!(),
    }
}

/// The number that these bytes write.
fn value_of_bytes(bytes: &[u8]) -> i128
    requires { IsNumeral bytes.now }
    ensures { result ≡ numeral_value bytes.now }
{
    match bytes {
        [b'-', digits @ ..] => value_of_digits(true, digits),
        _ => value_of_digits(false, bytes),
    }
}

/// The value of a numeral, a token that `next_token` answers for this text.
pub fn numeral_value(text: &[u8], token: &Token) -> i128
    requires { IsNumeralOf text.now token.now }
    ensures { result ≡ numeral_value (slice_range text.now token.now.from token.now.to) }
{
    value_of_bytes(&text[token.from..token.to])
}
