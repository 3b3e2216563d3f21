// The worked rows, over the ports in memory: the status, and both outputs byte for byte.
ghost use Rattle.std.specs.Prelude.{◌≡◌, IfOk, string_bytes};

use crate::samples::{
    APART_CLASSES, APPEND, ARITHMETIC, BROKEN, CLASSES, COMBINATORS, DEMANDED_ARGUMENT, EITHER,
    FACTORIAL, FREE_VARIABLES, INNER_OVERLAP, LAZY, MANY_CHOICES, PARALLEL_OR, PEANO,
    SAME_RIGHT_SIDES, SHARED_CLASSES, SHARING, TEXT, TWICE,
};
use ei_program::ei;
use eq_ports::{MemoryFiles, MemorySink, MemorySource};
use std::alloc::{AllocError, Global};
use std::process::Abort;
use std::test::Fail;

/// A port of a run.
#[derive(Clone, Copy, PartialEq, Eq)]
pub enum Port {
    Files,
    Input,
    Output,
    Errors,
}

/// What a run is given, with a file of definitions under the name `E` and one of terms under `T`; the port whose
/// call of the number fails (0 for none), and what comes of it.
#[derive(Clone, Copy)]
pub struct Row<'a> {
    pub words: &'a str,
    pub file: &'a str,
    pub input: &'a str,
    pub fails: (Port, u64),
    pub status: u8,
    pub output: &'a str,
    pub errors: &'a str,
}

/// What a run came to.
#[derive(Drop)]
pub struct Ran {
    pub status: u8,
    pub output: MemorySink,
    pub errors: MemorySink,
}

/// Peano's addition of two and one.
pub const ADDITION: Row<'static> = Row {
    words: "E",
    file: PEANO,
    input: "plus(s(s(z)), s(z)).\n",
    fails: (Port::Files, 0),
    status: 0,
    output: "s(s(s(z)))\n",
    errors: "",
};

/// The terms of the file `T`.
const TERMS: &str = "plus(s(z), s(z)). z.";

impl Row<'_> {
    /// The number of the port's call that fails, or 0.
    fn failing(&self, port: Port) -> u64 {
        if self.fails.0 == port {
            self.fails.1
        } else {
            0
        }
    }
}

/// A file with its name.
fn named(alloc: Global, name: &str, text: &str) -> Result<(String, Vec<u8>), AllocError>
    ensures { IfOk result (λ file. string_bytes file.0 ≡ name.now) }
{
    let name = String::from_str(alloc, name)?;
    let bytes = text.as_bytes().to_vec(alloc)?;
    Ok((name, bytes))
}

/// The files of a run, of which a call fails.
pub fn files(alloc: Global, file: &str, fails: u64) -> Result<MemoryFiles, AllocError> {
    let equations = named(alloc, "E", file)?;
    let terms = named(alloc, "T", TERMS)?;
    let list = vec![in alloc; equations, terms]?;
    Ok(MemoryFiles::new(list, 4096, vec![in alloc; fails]?))
}

/// An input in pieces of 12 bytes, of which a read fails.
pub fn source(alloc: Global, text: &str, fails: u64) -> Result<MemorySource, AllocError> {
    let bytes = text.as_bytes().to_vec(alloc)?;
    Ok(MemorySource::new(bytes, 12, vec![in alloc; fails]?))
}

/// A sink that takes a byte at once, of which a write fails.
pub fn sink(alloc: Global, room: usize, fails: u64) -> Result<MemorySink, AllocError> {
    let room = Vec::with_capacity(alloc, room)?;
    Ok(MemorySink::new(room, 1, vec![in alloc; fails]?))
}

/// The words that stand between the blanks of a text.
fn words_in(alloc: Global, text: &str) -> Result<Vec<String>, AllocError> {
    let mut words = Vec::new(alloc);
    for word in text.split(' ') {
        words.push(String::from_str(alloc, word)?)?;
    }
    Ok(words)
}

/// Runs the program as the row says.
pub fn run(alloc: Global, row: &Row<'_>) -> Result<Ran, AllocError> {
    let mut files = files(alloc, row.file, row.failing(Port::Files))?;
    let mut input = source(alloc, row.input, row.failing(Port::Input))?;
    let mut output = sink(alloc, 4096, row.failing(Port::Output))?;
    let mut errors = sink(alloc, 4096, row.failing(Port::Errors))?;
    let words = words_in(alloc, row.words)?;
    let status = ei(
        alloc,
        words,
        &mut files,
        &mut input,
        &mut output,
        &mut errors,
    );
    Ok(Ran {
        status: status.number(),
        output,
        errors,
    })
}

/// Expects what the row says of the run.
pub fn expect(rt: &impl Abort, alloc: Global, row: &Row<'_>) -> Result<(), AllocError> {
    let ran = run(alloc, row)?;
    let Row {
        words,
        file,
        input,
        ..
    } = *row;
    assert_eq!(rt; ran.status, row.status, "at {words} {file} {input}");
    assert_eq!(rt;
        ran.output.written(),
        row.output.as_bytes(),
        "at {words} {file} {input}"
    );
    assert_eq!(rt;
        ran.errors.written(),
        row.errors.as_bytes(),
        "at {words} {file} {input}"
    );
    Ok(())
}

#[test]
fn answers(rt: HostRuntime) -> Result<(), Fail> {
    for (file, input, output) in [
        (PEANO, "plus(s(s(z)), s(z)).\n", "s(s(s(z)))\n"),
        (PEANO, "", ""),
        (PEANO, "% nothing", ""),
        (
            PEANO,
            "% one. z.\nz.s(z) .% two\n s(s(z)).",
            "z\ns(z)\ns(s(z))\n",
        ),
        (LAZY, "car(cons(a, loop)).", "a\n"),
        (COMBINATORS, "AP(AP(AP(S, K), K), q).", "q\n"),
        (EITHER, "f(s(a)). f(b).", "g(s(a))\nf(b)\n"),
        (APART_CLASSES, "f(b). f(c). f(f(a)).", "a\nc\na\n"),
        (SAME_RIGHT_SIDES, "f(b).", "b\n"),
        (
            ARITHMETIC,
            "fst(1, add(170141183460469231731687303715884105727, 1)).",
            "1\n",
        ),
        (
            ARITHMETIC,
            "divide(5, 0). modulo(-7, 2). divide(-7, 2).",
            "divide(5, 0)\n1\n-4\n",
        ),
        (
            TEXT,
            "concat(\"ab\", \"c\"). length(concat(\"ab\", \"\")). equ(\"a\", \"a\"). \
             equ(u, v). equ(u, 1). equ(true, true).",
            "\"abc\"\n2\ntrue\nfalse\nequ(u, 1)\nequ(true, true)\n",
        ),
    ] {
        let row = Row {
            file,
            input,
            output,
            ..ADDITION
        };
        expect(&rt, rt.alloc(), &row)?;
    }
    Ok(())
}

#[test]
fn budgets_and_sizes(rt: HostRuntime) -> Result<(), Fail> {
    let doubled = "p(p(p(z, z), p(z, z)), p(p(z, z), p(z, z)))\n";
    for (words, file, input, status, output) in [
        ("E", LAZY, "loop.", 3, "? spent 1000000\n"),
        (
            "--replacements 2 E",
            DEMANDED_ARGUMENT,
            "f(loop, b).",
            0,
            "c\n",
        ),
        (
            "--replacements=3 E",
            DEMANDED_ARGUMENT,
            "loop. f(loop, b).",
            3,
            "? spent 3\nc\n",
        ),
        (
            "--replacements=0 E",
            DEMANDED_ARGUMENT,
            "a. b.",
            3,
            "a\n? spent 0\n",
        ),
        (
            "--replacements=14 E",
            SHARING,
            "d(d(d(w))).",
            3,
            "? spent 14\n",
        ),
        ("--replacements=0015 E", SHARING, "d(d(d(w))).", 0, doubled),
        ("--most=7 E", SHARING, "d(d(d(w))).", 3, "? large\n"),
        ("--most=14 E", SHARING, "d(d(d(w))).", 3, "? large\n"),
        ("--most=15 E", SHARING, "d(d(d(w))).", 0, doubled),
        (
            "--most=1 E",
            ARITHMETIC,
            "add(170141183460469231731687303715884105727, 1). divide(5, 0). 1.",
            3,
            "? past add(170141183460469231731687303715884105727, 1)\n? large\n1\n",
        ),
        (
            "E",
            ARITHMETIC,
            "divide(-170141183460469231731687303715884105728, -1).",
            3,
            "? past divide(-170141183460469231731687303715884105728, -1)\n",
        ),
        (
            "E",
            FACTORIAL,
            "fact(20). fact(34).",
            3,
            "2432902008176640000\n? past multiply(34, 8683317618811886495518194401280000000)\n",
        ),
    ] {
        let row = Row {
            words,
            file,
            input,
            status,
            output,
            ..ADDITION
        };
        expect(&rt, rt.alloc(), &row)?;
    }
    Ok(())
}

#[test]
fn refused_terms(rt: HostRuntime) -> Result<(), Fail> {
    for (input, output, errors) in [
        ("plus(z, #).", "", "ei: term refused: BadByte at byte 8\n"),
        ("plus(z, z)", "", "ei: term refused: Unended at byte 10\n"),
        ("plus(z).", "", "ei: term refused: WrongArity at byte 0\n"),
        ("q.", "", "ei: term refused: Unknown at byte 0\n"),
        ("z. \"ab", "z\n", "ei: term refused: OpenString at byte 3\n"),
        (
            "plus(z, z). plus(z",
            "z\n",
            "ei: term refused: Unended at byte 18\n",
        ),
        (
            "z. s(z). plus(z,, z). z.",
            "z\ns(z)\n",
            "ei: term refused: Expected at byte 16\n",
        ),
    ] {
        let row = Row {
            input,
            status: 6,
            output,
            errors,
            ..ADDITION
        };
        expect(&rt, rt.alloc(), &row)?;
    }
    Ok(())
}

#[test]
fn refused_files(rt: HostRuntime) -> Result<(), Fail> {
    for (file, errors) in [
        (TWICE, "ei: equations refused: Twice at byte 14\n"),
        (
            "Symbols h: 1; include integer_numerals. \
             For all: h(170141183460469231731687303715884105728) = 0.",
            "ei: equations refused: NumeralPast at byte 51\n",
        ),
        (
            "Symbols f: 1; s: 1; a: 0. For all x: f(x) = a where x is either s(x) end or end where.",
            "ei: equations refused: QualifierCircle at byte 52\n",
        ),
        (
            MANY_CHOICES,
            "ei: equations refused: ExpansionPast at byte 76\n",
        ),
        (
            "Symbols f: 1; a: 0. Classes low: a, b. For all: .",
            "ei: equations refused: Unknown at byte 36\n",
        ),
    ] {
        let row = Row {
            file,
            status: 4,
            output: "",
            errors,
            ..ADDITION
        };
        expect(&rt, rt.alloc(), &row)?;
    }
    Ok(())
}

#[test]
fn lists(rt: HostRuntime) -> Result<(), Fail> {
    for (file, input, status, output, errors) in [
        (
            APPEND,
            "append[(1 2); (3 . 4)]. cons[1; nil]. append[(); ()].",
            0,
            "(1 2 3 . 4)\n(1)\n()\n",
            "",
        ),
        (
            APPEND,
            "( . 1).",
            6,
            "",
            "ei: term refused: DotPlace at byte 2\n",
        ),
        (
            "Symbols a: 0. For all: .",
            "a. ().",
            6,
            "a\n",
            "ei: term refused: ListNeedsCons at byte 3\n",
        ),
    ] {
        let row = Row {
            words: "--syntax lisp.m E",
            file,
            input,
            status,
            output,
            errors,
            ..ADDITION
        };
        expect(&rt, rt.alloc(), &row)?;
    }
    Ok(())
}

#[test]
fn broken_restrictions(rt: HostRuntime) -> Result<(), Fail> {
    for (file, errors) in [
        (
            INNER_OVERLAP,
            "ei: restrictions broken: 1\nRE5 equation 1 at 1 with equation 2\n",
        ),
        (
            PARALLEL_OR,
            "ei: restrictions broken: 1\nRE5 equation 1 at root with equation 2\n",
        ),
        (
            BROKEN,
            "ei: restrictions broken: 4
RE1 equation 1 at 3
RE2 equation 6 at 1
RE3 equation 2 with equation 3
RE4 equation 4 at 1 with equation 5
",
        ),
        (
            "Symbols h: 1; include integer_numerals. For all n:
               h(n) = 1 where n is in integer_numerals end where;
               h(n) = 1 where n is in integer_numerals end where; h(0) = 2.",
            "ei: restrictions broken: 2
RE3 equation 1 with equation 3
RE3 equation 2 with equation 3
",
        ),
        (
            "Symbols h: 1; include integer_numerals. For all n:
               h(n) = 1 where n is in integer_numerals end where; h(0) = 2; h(0) = 2.",
            "ei: restrictions broken: 2
RE3 equation 1 with equation 2
RE3 equation 1 with equation 3
",
        ),
        (
            SHARED_CLASSES,
            "ei: restrictions broken: 1\nRE3 equation 1 with equation 2\n",
        ),
        (
            "Symbols a: 0; b: 0; c: 0; d: 0; f: 1. For all x:
               f(x) = c where x is either a or b end or end where; f(a) = d.",
            "ei: restrictions broken: 1\nRE3 equation 1.1 with equation 2\n",
        ),
    ] {
        let row = Row {
            file,
            status: 5,
            output: "",
            errors,
            ..ADDITION
        };
        expect(&rt, rt.alloc(), &row)?;
    }
    Ok(())
}

#[test]
fn many_breaks(rt: HostRuntime) -> Result<(), Fail> {
    let alloc = rt.alloc();
    let mut errors = String::from_str(alloc, "ei: restrictions broken: 52\n")?;
    for place in 1..51 {
        let line = format!(in alloc; "RE2 equation 1 at {place}\n")?;
        errors.push_str(&line)?;
    }
    errors.push_str("ei: 2 more\n")?;
    let row = Row {
        file: FREE_VARIABLES,
        status: 5,
        output: "",
        errors: &errors,
        ..ADDITION
    };
    expect(&rt, alloc, &row)?;
    Ok(())
}

#[test]
fn command_lines(rt: HostRuntime) -> Result<(), Fail> {
    let bad = "ei: bad command line\n";
    let unread = "ei: read failed\n";
    for (words, file, status, output, errors) in [
        ("--check E", PEANO, 0, "accepted 2\n", ""),
        ("E --check", CLASSES, 0, "accepted 3\n", ""),
        ("--most 4 -- E", PEANO, 0, ADDITION.output, ""),
        ("--most 3 -- E", PEANO, 3, "? large\n", ""),
        ("E T", PEANO, 0, "s(s(z))\nz\n", ""),
        ("E none", PEANO, 7, "", unread),
        ("none", PEANO, 7, "", unread),
        ("-", PEANO, 7, "", unread),
        ("-E", PEANO, 2, "", bad),
        ("--check E T", PEANO, 2, "", bad),
        ("--check --check E", PEANO, 2, "", bad),
        ("--syntax=lispm E", PEANO, 2, "", bad),
        ("--replacements=1000000000001 E", PEANO, 2, "", bad),
        ("--most=4294967297 E", PEANO, 2, "", bad),
    ] {
        let row = Row {
            words,
            file,
            status,
            output,
            errors,
            ..ADDITION
        };
        expect(&rt, rt.alloc(), &row)?;
    }
    Ok(())
}

#[test]
fn failing_reads(rt: HostRuntime) -> Result<(), Fail> {
    let unread = "ei: read failed\n";
    for (words, fails, status, output, errors) in [
        ("E", (Port::Files, 1), 7, "", unread),
        ("E", (Port::Files, 2), 7, "", unread),
        ("E", (Port::Files, 3), 7, "", unread),
        ("E", (Port::Files, 4), 0, "z\nz\n", ""),
        ("E T", (Port::Files, 4), 7, "", unread),
        ("E T", (Port::Files, 6), 7, "s(s(z))\nz\n", unread),
        ("E", (Port::Input, 1), 7, "", unread),
        ("E", (Port::Input, 2), 7, "z\n", unread),
        ("E", (Port::Input, 3), 7, "z\nz\n", unread),
        ("E", (Port::Input, 4), 0, "z\nz\n", ""),
    ] {
        let row = Row {
            words,
            input: "plus(z, z). plus(z, z).",
            fails,
            status,
            output,
            errors,
            ..ADDITION
        };
        expect(&rt, rt.alloc(), &row)?;
    }
    Ok(())
}

#[test]
fn failing_writes(rt: HostRuntime) -> Result<(), Fail> {
    for (words, file, fails, status, output) in [
        ("E", PEANO, (Port::Output, 1), 8, ""),
        ("E", PEANO, (Port::Output, 2), 8, "z"),
        ("E", PEANO, (Port::Output, 3), 8, "z\n"),
        ("E", PEANO, (Port::Output, 4), 8, "z\nz"),
        ("E", PEANO, (Port::Output, 5), 0, "z\nz\n"),
        ("--check E", PEANO, (Port::Output, 5), 8, "acce"),
        ("E", TWICE, (Port::Errors, 1), 8, ""),
        ("-E", PEANO, (Port::Errors, 1), 8, ""),
    ] {
        let row = Row {
            words,
            file,
            input: "plus(z, z). plus(z, z).",
            fails,
            status,
            output,
            ..ADDITION
        };
        expect(&rt, rt.alloc(), &row)?;
    }
    Ok(())
}
