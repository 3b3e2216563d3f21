// Tokens, their limits, their faults, and the numbers and words of faults.
use std::test::Fail;
use term_lex::{Fault, FaultKind, Token, TokenKind, next_token, numeral_value, string_value};

#[test]
fn tokens_of_each_kind(rt: HostRuntime) {
    for (text, kind, from, to) in [
        (b"  x_1(".as_slice(), TokenKind::Name, 2, 5),
        (b"\t\r\n007a", TokenKind::Numeral, 3, 6),
        (b"-0.", TokenKind::Numeral, 0, 2),
        (b"\" ~%\\\"\\\\\\t\" ", TokenKind::Text, 0, 11),
        (b"()", TokenKind::OpenRound, 0, 1),
        (b")", TokenKind::CloseRound, 0, 1),
        (b"[", TokenKind::OpenSquare, 0, 1),
        (b"]", TokenKind::CloseSquare, 0, 1),
        (b",", TokenKind::Comma, 0, 1),
        (b";", TokenKind::Semicolon, 0, 1),
        (b"% a %comment\n:", TokenKind::Colon, 13, 14),
        (b"%\xff\n%\n.", TokenKind::Dot, 5, 6),
        (b"==", TokenKind::Equals, 0, 1),
        (b"% to the end", TokenKind::End, 12, 12),
    ] {
        assert_eq!(rt; next_token(text, 0), Ok(Token { kind, from, to }));
    }
}

#[test]
fn faults_at_their_bytes(rt: HostRuntime) {
    for (text, kind, byte) in [
        (b" % c\n #".as_slice(), FaultKind::BadByte, 6),
        (b"- 1", FaultKind::BadByte, 0),
        (b"\xc3\xa9", FaultKind::BadByte, 0),
        (b" \"a\tb\"", FaultKind::BadByte, 3),
        (b"\"a\nb\"", FaultKind::OpenString, 0),
        (b" \"a\\\n", FaultKind::OpenString, 1),
        (b"\"a\\q", FaultKind::BadEscape, 2),
        (b"\"\x01\\x\"", FaultKind::BadByte, 1),
        (
            b"170141183460469231731687303715884105728",
            FaultKind::NumeralPast,
            0,
        ),
        (
            b" -170141183460469231731687303715884105729",
            FaultKind::NumeralPast,
            1,
        ),
        (&[b'a'; 256], FaultKind::NameLong, 0),
    ] {
        assert_eq!(rt; next_token(text, 0), Err(Fault { kind, byte }));
    }
}

/// The number that the token at the start of a text writes, if it is a numeral.
fn number_in(text: &[u8]) -> Option<i128> {
    match next_token(text, 0) {
        Ok(token) if token.kind == TokenKind::Numeral => Some(numeral_value(text, &token)),
        _ => None,
    }
}

#[test]
fn numerals_at_their_limits(rt: HostRuntime) {
    for (text, number) in [
        (
            b"170141183460469231731687303715884105727".as_slice(),
            i128::MAX,
        ),
        (b"-170141183460469231731687303715884105728", i128::MIN),
        (b"00000000000000000000000000000000000000000000007", 7),
        (b" -12x", -12),
    ] {
        assert_eq!(rt; number_in(text), Some(number));
    }
}

#[test]
fn strings_at_their_limit(rt: HostRuntime) {
    let mut text = [b'a'; 65_538];
    text[0] = b'"';
    text[65_537] = b'"';
    let long = Fault {
        kind: FaultKind::StringLong,
        byte: 0,
    };
    assert_eq!(rt; next_token(&text, 0), Err(long));
    text[65_536] = b'"';
    let token = Token {
        kind: TokenKind::Text,
        from: 0,
        to: 65_537,
    };
    assert_eq!(rt; next_token(&text, 0), Ok(token));
}

#[test]
fn values_of_strings(rt: HostRuntime) -> Result<(), Fail> {
    let text = b" \"a\\\"b\\\\\\n\\t~\"";
    match next_token(text, 0) {
        Ok(token) if token.kind == TokenKind::Text => {
            let value = string_value(rt.alloc(), text, &token)?;
            assert_eq!(rt; value.as_slice(), b"a\"b\\\n\t~".as_slice());
        }
        _ => panic!(rt; "no string"),
    }
    Ok(())
}

#[test]
fn numbers_and_words(rt: HostRuntime) {
    let wrong = FaultKind::WrongArity {
        declared: 2,
        found: 1,
    };
    for (kind, number, word) in [
        (FaultKind::BadByte, 1, "BadByte"),
        (FaultKind::StringLong, 6, "StringLong"),
        (FaultKind::Unended, 11, "Unended"),
        (FaultKind::ListNeedsCons, 13, "ListNeedsCons"),
        (FaultKind::Twice, 20, "Twice"),
        (wrong, 24, "WrongArity"),
        (FaultKind::FileLong, 30, "FileLong"),
        (FaultKind::QualifiedTwice, 38, "QualifiedTwice"),
        (FaultKind::ExpansionPast, 40, "ExpansionPast"),
        (FaultKind::MembersPast, 43, "MembersPast"),
    ] {
        assert_eq!(rt; kind.number(), number);
        assert_eq!(rt; kind.word(), word);
    }
}
