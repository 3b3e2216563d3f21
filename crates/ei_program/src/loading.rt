// The definitions file: taken whole, read, and checked.
ghost use Rattle.std.specs.Prelude.{◌≡◌, ℕ, List, Option, IfOk, IfErr, Some};
ghost use Rattle.term_lex.specs.declared.syntax.Syntax.{Syntax as Notation};
ghost use Rattle.ei_program.specs.Definitions.{Defines, definitions_in};
ghost use Rattle.ei_program.specs.Outcomes.{CanBeTold};
ghost use Rattle.ei_program.specs.Loading.{IsReady, IsLoaded, IsReadOutcome};
ghost use Rattle.ei_program.specs.Admitting.{AreUsable, IsFileTaken, IsAdmitted};
ghost use Rattle.ei_program.specs.Taking.{IsTakenFrom, IsReadCount};

use crate::definitions::{Equations, read_equations};
use crate::outcome::Outcome;
use crate::ready::Ready;
use crate::stop::Stop;
use crate::taking::{Ending, Taken, take_up_to};
use def_file::FileError;
use eq_base::NoMemory;
use eq_ports::{FileSource, Files};
use sequentiality::{AdmitError, Regular};
use std::alloc::Global;
use term_lex::{Fault, FaultKind, Syntax};

/// The most bytes of a definitions file: 2^24.
const TEXT_BYTES: usize = 16_777_216;

/// Takes the bytes of the chosen file.
fn take_chosen<F: Files>(alloc: Global, files: &mut F) -> Result<Taken, NoMemory>
    ensures kept { F.named files.new ≡ F.named files.old }
    ensures taken { IfOk result (IsTakenFrom TEXT_BYTES (F.rest files.old) (F.rest files.new)) }
    ensures count { IsReadCount (F.faults files.old) (F.faults files.new) result }
{
    let mut source = FileSource::new(files);
    take_up_to(alloc, &mut source, TEXT_BYTES)
}

/// The bytes of a file, or the outcome of a run that cannot have them.
fn take_file<F: Files>(alloc: Global, files: &mut F, name: &str) -> Result<Vec<u8>, Outcome>
    ensures kept { F.named files.new ≡ F.named files.old }
    ensures told { IfErr result CanBeTold }
    ensures taken { (named : List ℕ → Option (List ℕ)) → F.named files.old ≡ Some named
        → IsFileTaken (named name.now) result }
    ensures count { IsReadOutcome (F.faults files.old) (F.faults files.new) result }
{
    if files.choose(name).is_err() {
        return Err(Outcome::Stopped(Stop::ReadFailed));
    }
    let Ok(taken) = take_chosen(alloc, files) else {
        return Err(Outcome::Stopped(Stop::NoMemory));
    };
    match taken.ending {
        Ending::Whole => Ok(taken.bytes),
        Ending::Long => Err(Outcome::FileRefused(Fault {
            kind: FaultKind::FileLong,
            byte: TEXT_BYTES,
        })),
        Ending::Failed => Err(Outcome::Stopped(Stop::ReadFailed)),
    }
}

/// The equations, where they break no restriction.
fn admit(alloc: Global, equations: Equations) -> Result<Ready, Outcome>
    requires defined { (syntax : Notation) × (file : List ℕ)
        × Defines syntax file (definitions_in equations) }
    requires usable { AreUsable equations }
    ensures admitted { IsAdmitted equations result }
    ensures told { IfErr result CanBeTold }
{
    equations.symbols.has_one_number_each();
    match Regular::admit(alloc, equations.rules) {
        Ok(regular) => Ok(Ready {
            regular,
            symbols: equations.symbols,
        }),
        Err(AdmitError::Broken(breaks, rules)) => Err(Outcome::Broken(breaks, rules)),
        Err(AdmitError::NoMemory) => Err(Outcome::Stopped(Stop::NoMemory)),
    }
}

/// The equations that the named file defines in the notation, ready to answer terms. Linear in the file and its
/// equations, and then the checks of the restrictions.
///
/// # Errors
///
/// The outcome of a run that does not accept the file: it could not be read, it has a fault, its equations break a
/// restriction, or memory ran out.
pub fn load<F: Files>(
    alloc: Global,
    syntax: Syntax,
    files: &mut F,
    name: &str,
) -> Result<Ready, Outcome>
    ensures kept { F.named files.new ≡ F.named files.old }
    ensures loaded { (named : List ℕ → Option (List ℕ)) → F.named files.old ≡ Some named
        → IsLoaded syntax (named name.now) result }
    ensures ready { IfOk result IsReady }
    ensures told { IfErr result CanBeTold }
    ensures count { IsReadOutcome (F.faults files.old) (F.faults files.new) result }
{
    let bytes = take_file(alloc, files, name)?;
    match read_equations(alloc, syntax, &bytes) {
        Ok(equations) => admit(alloc, equations),
        Err(FileError::Refused(fault)) => Err(Outcome::FileRefused(fault)),
        Err(FileError::NoMemory) => Err(Outcome::Stopped(Stop::NoMemory)),
    }
}
