ghost use Rattle.std.specs.Prelude.{◌≡◌};
ghost use Rattle.def_file.specs.Errors.{of_read};
ghost use Rattle.def_file.specs.declared.error.FileError.TheVariants.{NoMemory as OutOfMemory, Refused};

use eq_base::NoMemory;
use std::alloc::{AllocError, AllocFailed};
use term_lex::Fault;
use written_terms::ReadError;

/// Why a definitions file was not read.
#[derive(Clone, Copy, PartialEq, Eq, Debug)]
pub enum FileError {
    /// The file is at fault.
    Refused(Fault),
    /// Out of memory.
    NoMemory,
}

impl From<Fault> for FileError {
    ghost from_gives = { λ fault error. error ≡ Refused fault };

    fn from(fault: Fault) -> Self {
        FileError::Refused(fault)
    }
}

impl From<ReadError> for FileError {
    ghost from_gives = { λ cause error. error ≡ of_read cause };

    fn from(error: ReadError) -> Self {
        match error {
            ReadError::Refused(fault) => FileError::Refused(fault),
            ReadError::NoMemory => FileError::NoMemory,
        }
    }
}

impl From<NoMemory> for FileError {
    ghost from_gives = { λ _ error. error ≡ OutOfMemory };

    fn from(_error: NoMemory) -> Self {
        FileError::NoMemory
    }
}

impl From<AllocError> for FileError {
    ghost from_gives = { λ _ error. error ≡ OutOfMemory };

    fn from(_error: AllocError) -> Self {
        FileError::NoMemory
    }
}

impl<T: Drop> From<AllocFailed<T>> for FileError {
    ghost from_gives = { λ _ error. error ≡ OutOfMemory };

    fn from(_failed: AllocFailed<T>) -> Self {
        FileError::NoMemory
    }
}
