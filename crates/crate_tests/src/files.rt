// The faults of definitions files at their bytes, and the limits.
use crate::samples::unexpected;
use def_file::{FileError, read_definitions};
use eq_base::{NoMemory, push_numeral};
use std::alloc::{AllocError, Global};
use std::test::Fail;
use term_lex::{Fault, FaultKind, Syntax, TokenKind};

/// The error of a file, if it has one.
fn error_of(alloc: Global, text: &[u8], syntax: Syntax) -> Option<FileError> {
    read_definitions(alloc, text, syntax).err()
}

/// What a file with this fault comes to.
fn refused(kind: FaultKind, byte: usize) -> Option<FileError> {
    Some(FileError::Refused(Fault { kind, byte }))
}

#[test]
fn faults(rt: HostRuntime) {
    let none_of_one = FaultKind::WrongArity {
        declared: 1,
        found: 0,
    };
    for (text, kind, byte) in [
        ("Symbols a: 0; #. For all: .", FaultKind::BadByte, 14),
        ("Symbols a: 0. for all: .", unexpected(TokenKind::Name), 14),
        (
            "Symbols include: 0. For all: .",
            unexpected(TokenKind::Colon),
            15,
        ),
        ("Symbols a: 0.", FaultKind::Unended, 13),
        (
            "Symbols true: 0; include truth_values. For all: .",
            FaultKind::Twice,
            25,
        ),
        ("Symbols a: 256. For all: .", FaultKind::ArityPast, 11),
        (
            "Symbols include numerals. For all: .",
            FaultKind::UnknownClass,
            16,
        ),
        (
            "Symbols include integer_numerals. Classes k: 0, -0. For all: .",
            FaultKind::Twice,
            48,
        ),
        (
            "Symbols a: 0. For all x, x: .",
            FaultKind::VariableTwice,
            25,
        ),
        ("Symbols f: 1. For all x: f(x) = f.", none_of_one, 32),
        (
            "Symbols f: 1. For all x: f(x) = 1.",
            FaultKind::NotIncluded,
            32,
        ),
        (
            "Symbols f: 1. For all x: f(x) = x where f is either x end or end where.",
            FaultKind::QualifiedUnknown,
            40,
        ),
        (
            "Symbols add: 2; include integer_numerals. For all: include sum.",
            FaultKind::UnknownEquationClass,
            59,
        ),
        (
            "Symbols equ: 2; include strings. For all: include equstr.",
            FaultKind::SchemaNeeds,
            50,
        ),
        (
            "Symbols f: 1; include atomic_symbols. For all: b = b.",
            FaultKind::LeftNotApplication,
            47,
        ),
        // the faults of names come before those of sides
        (
            "Symbols f: 1. For all x: x = x; f(x) = g.",
            FaultKind::Unknown,
            39,
        ),
    ] {
        assert_eq!(rt;
            error_of(rt.alloc(), text.as_bytes(), Syntax::Standmath),
            refused(kind, byte),
            "{text}"
        );
    }
}

#[test]
fn lists(rt: HostRuntime) {
    for (text, wanted) in [
        (
            "Symbols append: 2; cons: 2; nil: 0. For all x, y, z: append[(); x] = x; append[(x . y); z] = (x . append[y; z]).",
            None,
        ),
        (
            "Symbols cons: 2; nil: 0; f: 1; a: 0. For all x: f[( . a)] = a.",
            refused(FaultKind::DotPlace, 52),
        ),
        (
            "Symbols f: 1; a: 0. For all x: f(x) = a.",
            refused(unexpected(TokenKind::OpenRound), 32),
        ),
        (
            "Symbols f: 1; a: 0. For all x: f[(x)] = a.",
            refused(FaultKind::ListNeedsCons, 33),
        ),
    ] {
        assert_eq!(rt;
            error_of(rt.alloc(), text.as_bytes(), Syntax::LispM),
            wanted,
            "{text}"
        );
    }
}

/// A text of many pieces between others, each with its number inside.
fn numbered(
    alloc: Global,
    front: &str,
    (before, after): (&str, &str),
    count: u32,
    back: &str,
) -> Result<Vec<u8>, NoMemory> {
    let mut text = front.as_bytes().to_vec(alloc)?;
    for number in 0..count {
        text.extend_from_slice(before.as_bytes())?;
        push_numeral(&mut text, i128::from(number))?;
        text.extend_from_slice(after.as_bytes())?;
    }
    text.extend_from_slice(back.as_bytes())?;
    Ok(text)
}

#[test]
fn numbers_at_their_limits(rt: HostRuntime) -> Result<(), Fail> {
    for (front, piece, most, back, kind, byte) in [
        (
            "Symbols f: 1; include integer_numerals. For all x: ",
            ("f(x) = ", ";"),
            2048,
            ".",
            FaultKind::EquationsPast,
            23_517,
        ),
        (
            "Symbols a: 0. Classes ",
            ("k", ": a; "),
            250,
            ". For all: .",
            FaultKind::ClassesPast,
            2_162,
        ),
        (
            "Symbols include integer_numerals. Classes k: -1",
            (", ", ""),
            4095,
            ". For all: .",
            FaultKind::MembersPast,
            23_509,
        ),
    ] {
        let whole = numbered(rt.alloc(), front, piece, most, back)?;
        assert_eq!(rt; error_of(rt.alloc(), &whole, Syntax::Standmath), None);
        let past = numbered(rt.alloc(), front, piece, most + 1, back)?;
        assert_eq!(rt;
            error_of(rt.alloc(), &past, Syntax::Standmath),
            refused(kind, byte)
        );
    }
    Ok(())
}

/// A text with so many nested applications of `f` to `x` between others.
fn nested(alloc: Global, front: &str, depth: usize, back: &str) -> Result<Vec<u8>, AllocError> {
    let mut text = front.as_bytes().to_vec(alloc)?;
    for _ in 0..depth {
        text.extend_from_slice(b"f(")?;
    }
    text.push(b'x')?;
    for _ in 0..depth {
        text.push(b')')?;
    }
    text.extend_from_slice(back.as_bytes())?;
    Ok(text)
}

#[test]
fn sides_at_their_limits(rt: HostRuntime) -> Result<(), Fail> {
    for (front, depth, back, wanted) in [
        ("Symbols f: 1. For all x: ", 254, " = x.", None),
        (
            "Symbols f: 1. For all x: ",
            255,
            " = x.",
            refused(FaultKind::SideLong, 25),
        ),
        ("Symbols f: 1. For all x: f(x) = ", 65_534, ".", None),
        (
            "Symbols f: 1. For all x: f(x) = ",
            65_535,
            ".",
            refused(FaultKind::SideLong, 32),
        ),
    ] {
        let text = nested(rt.alloc(), front, depth, back)?;
        assert_eq!(rt; error_of(rt.alloc(), &text, Syntax::Standmath), wanted);
    }
    Ok(())
}
