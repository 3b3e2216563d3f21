// Cut texts and deep terms.
use crate::limits::expect_terms;
use crate::rows::{ADDITION, Row, run};
use crate::samples::PEANO;
use eq_ports::MemorySource;
use std::alloc::{AllocError, Global};
use std::test::Fail;

#[test]
fn cut_terms(rt: HostRuntime) -> Result<(), Fail> {
    let alloc = rt.alloc();
    let mut input = String::new(alloc);
    for letter in "plus(s(s(z)), s(z))".chars() {
        input.push(letter)?;
        let row = Row {
            input: &input,
            ..ADDITION
        };
        let ran = run(alloc, &row)?;
        let end = input.len();
        let errors = format!(in alloc; "ei: term refused: Unended at byte {end}\n")?;
        assert_eq!(rt; ran.status, 6, "at {input}");
        assert_eq!(rt; ran.errors.written(), errors.as_bytes(), "at {input}");
    }
    Ok(())
}

#[test]
fn cut_files(rt: HostRuntime) -> Result<(), Fail> {
    let alloc = rt.alloc();
    let mut file = String::new(alloc);
    for letter in PEANO.trim_end().chars() {
        let row = Row {
            file: &file,
            ..ADDITION
        };
        let ran = run(alloc, &row)?;
        assert_eq!(rt; ran.status, 4, "at {file}");
        file.push(letter)?;
    }
    Ok(())
}

/// The part so many times, behind the text.
fn push_times(text: &mut String, part: &str, times: usize) -> Result<(), AllocError> {
    for _ in 0..times {
        text.push_str(part)?;
    }
    Ok(())
}

/// So many successors of zero.
fn successors(alloc: Global, depth: usize) -> Result<String, AllocError> {
    let mut text = String::new(alloc);
    push_times(&mut text, "s(", depth)?;
    text.push('z')?;
    push_times(&mut text, ")", depth)?;
    Ok(text)
}

#[test]
fn deep_terms(rt: HostRuntime) -> Result<(), Fail> {
    let alloc = rt.alloc();
    let term = successors(alloc, 900_000)?;
    let input = format!(in alloc; "{term}.")?;
    let output = format!(in alloc; "{term}\n")?;
    let mut source = MemorySource::new(input.into_bytes(), 65_536, Vec::new(alloc));
    expect_terms(&rt, alloc, u32::MAX, &mut source, 0, &output, "")?;
    Ok(())
}
