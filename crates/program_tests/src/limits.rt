// Limits on the bytes of an input and of a term.
use crate::rows::{files, sink, source};
use crate::samples::PEANO;
use ei_program::{Settings, answer_terms, load};
use eq_ports::MemorySource;
use std::alloc::{AllocError, Global};
use std::process::Abort;
use std::test::Fail;
use term_lex::Syntax;

/// Expects this of the answering of terms by Peano's equations, where so many bytes of the input are read at most.
pub fn expect_terms(
    rt: &impl Abort,
    alloc: Global,
    input_bytes: u32,
    input: &mut MemorySource,
    status: u8,
    output: &str,
    errors: &str,
) -> Result<(), AllocError> {
    let mut files = files(alloc, PEANO, 0)?;
    let Ok(mut ready) = load(alloc, Syntax::Standmath, &mut files, "E") else {
        assert!(rt; false, "the equations are not accepted");
        return Ok(());
    };
    let settings = Settings {
        syntax: Syntax::Standmath,
        budget: 1_000_000,
        most: 1_000_000,
        input_bytes: u64::from(input_bytes),
    };
    let mut out = sink(alloc, 4_194_304, 0)?;
    let mut err = sink(alloc, 4096, 0)?;
    let ended = answer_terms(alloc, &mut ready, &settings, input, &mut out, &mut err);
    assert_eq!(rt; ended.number(), status);
    assert_eq!(rt; out.written(), output.as_bytes());
    assert_eq!(rt; err.written(), errors.as_bytes());
    Ok(())
}

#[test]
fn limited_inputs(rt: HostRuntime) -> Result<(), Fail> {
    let alloc = rt.alloc();
    let long = "ei: input too long\n";
    let unknown = "ei: term refused: Unknown at byte 3\n";
    for (input_bytes, input, status, output, errors) in [
        (12, "plus(z, z). z.", 9, "z\n", long),
        (13, "plus(z, z). z.", 9, "z\n", long),
        (14, "plus(z, z). z.", 0, "z\nz\n", ""),
        (0, "", 0, "", ""),
        (0, " ", 9, "", long),
        (3, "z.% and so on", 9, "z\n", long),
        (8, "z. q. z. z.", 6, "z\n", unknown),
        (5, "z. \"ab", 9, "z\n", long),
    ] {
        let mut input = source(alloc, input, 0)?;
        expect_terms(&rt, alloc, input_bytes, &mut input, status, output, errors)?;
    }
    Ok(())
}

/// A front, so many blanks, and a back, read in pieces of 64 KiB.
fn wide(alloc: Global, front: &str, blanks: usize, back: &str) -> Result<MemorySource, AllocError> {
    let mut text = front.as_bytes().to_vec(alloc)?;
    text.extend_from_slice(&vec![in alloc; b' '; blanks]?)?;
    text.extend_from_slice(back.as_bytes())?;
    Ok(MemorySource::new(text, 65_536, Vec::new(alloc)))
}

#[test]
fn wide_terms(rt: HostRuntime) -> Result<(), Fail> {
    let alloc = rt.alloc();
    let long = "ei: term refused: TermLong at byte 3\n";
    for (front, blanks, back, status, output, errors) in [
        ("z. ", 500_000, " z.", 0, "z\nz\n", ""),
        ("%", 500_000, "\n z.", 0, "z\n", ""),
        ("z.%", 500_000, " z.", 0, "z\n", ""),
        ("z. z", 16_777_214, ".", 0, "z\nz\n", ""),
        ("z. z", 16_777_215, ".", 6, "z\n", long),
    ] {
        let mut input = wide(alloc, front, blanks, back)?;
        expect_terms(&rt, alloc, u32::MAX, &mut input, status, output, errors)?;
    }
    Ok(())
}
