// What comes of a run, and how it is told.
ghost use Rattle.std.specs.Prelude.{◌≡◌, IfOk, IsOk, string_bytes};
ghost use Rattle.regularity.specs.Listing.{Lists};
ghost use Rattle.sequentiality.specs.Violations.{IsViolation};
ghost use Rattle.ei_program.specs.Outcomes.{status_of, message_of, refused_text, CanBeTold};

use crate::restrictions::broken_text;
use crate::status::Status;
use crate::stop::Stop;
use eq_base::{NoMemory, Rules};
use regularity::Breaks;
use std::alloc::Global;
use term_lex::Fault;

/// What comes of a run.
#[derive(Drop)]
pub enum Outcome {
    /// Every term was answered, and no line begins with `?`; or the file was accepted.
    Answered,
    /// Every term was answered, some by a line that begins with `?`.
    Questions,
    /// The words are no command line.
    BadWords,
    /// The definitions file was refused, for this fault.
    FileRefused(Fault),
    /// The equations break restrictions: these breaks, in order, and the equations.
    Broken(Breaks, Rules),
    /// A term was refused, for this fault.
    TermRefused(Fault),
    /// The terms have more bytes than may be read.
    InputLong,
    /// The run stopped before its end.
    Stopped(Stop),
}

impl Outcome {
    /// The status of the process.
    pub fn status(&self) -> Status
        ensures { result ≡ status_of self.now }
    {
        match self {
            Outcome::Answered => Status::Answered,
            Outcome::Questions => Status::Questions,
            Outcome::BadWords => Status::Words,
            Outcome::FileRefused(_) => Status::File,
            Outcome::Broken(_, _) => Status::Broken,
            Outcome::TermRefused(_) => Status::Term,
            Outcome::InputLong => Status::InputLong,
            Outcome::Stopped(Stop::NoMemory) => Status::NoMemory,
            Outcome::Stopped(Stop::ReadFailed) => Status::ReadFailed,
            Outcome::Stopped(Stop::WriteFailed) => Status::WriteFailed,
        }
    }

    /// What is written to the errors.
    pub fn message(&self, alloc: Global) -> Result<String, NoMemory>
        requires { CanBeTold self.now }
        ensures text { IfOk result (λ text. string_bytes text ≡ message_of self.now) }
        ensures silent { self.now ≡ Outcome.Stopped Stop.WriteFailed → IsOk result }
    {
        let text = match self {
            Outcome::FileRefused(fault) => refusal(alloc, "equations", *fault)?,
            Outcome::TermRefused(fault) => refusal(alloc, "term", *fault)?,
            Outcome::Broken(breaks, rules) => broken_text(alloc, rules, breaks)?,
            Outcome::InputLong => String::from_str(alloc, "ei: input too long\n")?,
            Outcome::BadWords => String::from_str(alloc, "ei: bad command line\n")?,
            Outcome::Stopped(Stop::NoMemory) => String::from_str(alloc, "ei: no memory\n")?,
            Outcome::Stopped(Stop::ReadFailed) => String::from_str(alloc, "ei: read failed\n")?,
            _ => String::new(alloc),
        };
        Ok(text)
    }
}

/// The line of a fault.
fn refusal(alloc: Global, what: &str, fault: Fault) -> Result<String, NoMemory>
    ensures { IfOk result (λ text. string_bytes text ≡ refused_text what.now fault) }
{
    let word = fault.kind.word();
    let byte = fault.byte;
    let text = format!(in alloc; "ei: {what} refused: {word} at byte {byte}\n")?;
    Ok(text)
}
