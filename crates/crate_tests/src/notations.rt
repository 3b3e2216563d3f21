// Terms in both notations: how they are read, and their printed text.
use crate::samples::{LISTS, LITERALS, PEANO, printed, unexpected};
use def_file::{FileError, read_definitions};
use std::alloc::Global;
use std::test::Fail;
use term_input::read_term;
use term_lex::{Fault, FaultKind, Syntax, TokenKind};

/// How many cells the term at the start of a text has and where it ends, with the symbols of a file.
fn measured(
    alloc: Global,
    syntax: Syntax,
    file: &str,
    text: &str,
) -> Result<(usize, usize), FileError> {
    let mut definitions = read_definitions(alloc, file.as_bytes(), syntax)?;
    let (term, end) = read_term(alloc, syntax, &mut definitions.symbols, text.as_bytes(), 0)?;
    Ok((term.len(), end))
}

#[test]
fn terms_are_measured(rt: HostRuntime) {
    for (syntax, file, text, cells, end) in [
        (Syntax::Standmath, PEANO, "plus(s(s(z)), s(z)).", 6, 20),
        (Syntax::Standmath, PEANO, " z( ) . plus", 1, 7),
        (Syntax::Standmath, LITERALS, "g(q, -7).", 3, 9),
        (Syntax::Standmath, LITERALS, "g(\"a\\n\", q()) .", 3, 15),
        (Syntax::LispM, LISTS, "append[(a b); (b . a)].", 9, 23),
        (Syntax::LispM, LISTS, "cons[a; nil] .", 3, 14),
        (Syntax::LispM, LISTS, "((a) () b[]).", 9, 13),
    ] {
        assert_eq!(rt;
            measured(rt.alloc(), syntax, file, text),
            Ok((cells, end)),
            "{text}"
        );
    }
}

#[test]
fn terms_are_refused(rt: HostRuntime) {
    let one_of_two = FaultKind::WrongArity {
        declared: 2,
        found: 1,
    };
    for (syntax, file, text, kind, byte) in [
        (
            Syntax::Standmath,
            PEANO,
            "plus(z, z)).",
            unexpected(TokenKind::CloseRound),
            10,
        ),
        (
            Syntax::Standmath,
            PEANO,
            "plus(z,).",
            unexpected(TokenKind::CloseRound),
            7,
        ),
        (
            Syntax::Standmath,
            PEANO,
            "plus(z, #).",
            FaultKind::BadByte,
            8,
        ),
        (Syntax::Standmath, PEANO, "", FaultKind::Unended, 0),
        (Syntax::Standmath, PEANO, "pl", FaultKind::Unended, 2),
        (
            Syntax::Standmath,
            PEANO,
            "plus(s(z), -1, \"a\")",
            FaultKind::Unended,
            19,
        ),
        (Syntax::Standmath, PEANO, "plus(z).", one_of_two, 0),
        (Syntax::Standmath, PEANO, "s(1).", FaultKind::NotIncluded, 2),
        (Syntax::Standmath, LITERALS, "q(1).", FaultKind::Unknown, 0),
        (Syntax::LispM, LISTS, "(a . b . a).", FaultKind::DotPlace, 7),
        (
            Syntax::LispM,
            LISTS,
            "(a . . b).",
            unexpected(TokenKind::Dot),
            5,
        ),
        (
            Syntax::LispM,
            LISTS,
            "(a . ).",
            unexpected(TokenKind::CloseRound),
            5,
        ),
        (
            Syntax::LispM,
            LISTS,
            "(a; b).",
            unexpected(TokenKind::Semicolon),
            2,
        ),
        (
            Syntax::LispM,
            LISTS,
            "append(a b).",
            unexpected(TokenKind::OpenRound),
            6,
        ),
        (Syntax::LispM, LISTS, "(a b", FaultKind::Unended, 4),
        (Syntax::LispM, LISTS, "(append[a]).", one_of_two, 1),
    ] {
        let fault = Fault { kind, byte };
        assert_eq!(rt;
            measured(rt.alloc(), syntax, file, text),
            Err(FileError::Refused(fault)),
            "{text}"
        );
    }
}

/// The print of the term at the start of a text, with the symbols of a file.
fn print_of(alloc: Global, syntax: Syntax, file: &str, text: &str) -> Result<Vec<u8>, FileError> {
    let mut definitions = read_definitions(alloc, file.as_bytes(), syntax)?;
    let symbols = &mut definitions.symbols;
    let (term, _) = read_term(alloc, syntax, symbols, text.as_bytes(), 0)?;
    let print = printed(alloc, syntax, symbols, &term)?;
    Ok(print)
}

#[test]
fn terms_are_printed(rt: HostRuntime) -> Result<(), Fail> {
    for (syntax, file, text, print) in [
        (
            Syntax::Standmath,
            LITERALS,
            "f(-07,g( a,-0),\"\\\"\\\\n\\n\\t\").",
            "f(-7, g(a, 0), \"\\\"\\\\n\\n\\t\")",
        ),
        (Syntax::LispM, LISTS, "cons[a; nil[]].", "(a)"),
        (
            Syntax::LispM,
            LISTS,
            "((a . ()) (b . (a . b)) . f[(a)]).",
            "((a) (b a . b) . f[(a)])",
        ),
        (Syntax::LispM, LISTS, "g[f[b];()].", "g[f[b]; ()]"),
    ] {
        let found = print_of(rt.alloc(), syntax, file, text)?;
        assert_eq!(rt; found.as_slice(), print.as_bytes());
    }
    Ok(())
}

#[test]
fn terms_are_passed(rt: HostRuntime) {
    let text = b"f(1, \"a\") # no token".as_slice();
    assert_eq!(rt; standmath::skip_term(rt.alloc(), text, 0), Ok(9));
    let list = b"(q [] . \"a\") # no token".as_slice();
    assert_eq!(rt; lisp_m::skip_term(rt.alloc(), list, 0), Ok(12));
}
