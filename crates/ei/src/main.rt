//! The program `ei`: the equation interpreter over the files, the input, the output and the errors of its process.
#![tactic(auto)]

ghost use Rattle.ei_program.specs.declared.stop.Stop.TheVariants.{NoMemory as NoMemoryLeft};
ghost use Rattle.ei_program.specs.declared.outcome.Outcome.TheVariants.{Stopped};
ghost use Rattle.ei_program.specs.Outcomes.{told_of};
ghost use Rattle.ei_program.specs.Telling.{IsWritten};

use ei_program::{Status, ei};
use eq_ports::{Sink, StdFiles, StdSink, StdSource, write_whole};
use std::env;
use std::io::{self, ErrorKind, Lock};
use std::process::ExitCode;
use std::rt::Env;

/// The words after the program's name.
fn own_words<R: Env + Alloc>(rt: &R) -> io::Result<Vec<String<R::A>, R::A>> {
    let mut words = Vec::new(rt.alloc());
    for word in env::args(rt)?.skip(1) {
        words.push(word)?;
    }
    Ok(words)
}

/// Tells on the errors that there is no memory, for a run that could not begin.
fn told_no_memory<E: Sink>(errors: &mut E) -> Status
    ensures { IsWritten (told_of (Stopped NoMemoryLeft)) (E.taken errors.old) (E.taken errors.new) result }
{
    match write_whole(errors, b"ei: no memory\n") {
        Ok(()) => Status::NoMemory,
        Err(_) => Status::WriteFailed,
    }
}

fn main(rt: HostRuntime) -> ExitCode {
    let mut files = StdFiles::new(rt);
    let mut input = StdSource::new(rt.stdin().lock());
    let mut output = StdSink::new(rt.stdout().lock());
    let mut errors = StdSink::new(rt.stderr().lock());
    let words = match own_words(&rt) {
        Ok(words) => words,
        Err(error) if error.kind() == ErrorKind::OutOfMemory => {
            return ExitCode::from(told_no_memory(&mut errors).number());
        }
        // words that are not UTF-8 are refused as no words are
        Err(_) => Vec::new(rt.alloc()),
    };
    let status = ei(
        rt.alloc(),
        words,
        &mut files,
        &mut input,
        &mut output,
        &mut errors,
    );
    ExitCode::from(status.number())
}
