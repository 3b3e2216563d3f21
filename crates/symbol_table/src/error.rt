ghost use Rattle.std.specs.Prelude.{◌≡◌};
ghost use Rattle.symbol_table.specs.declared.error.SymbolError.TheVariants.{NoMemory as OutOfMemory};

use eq_base::NoMemory;
use std::alloc::{AllocError, AllocFailed};
use term_lex::FaultKind;

/// Why a name was not taken.
#[derive(Clone, Copy, PartialEq, Eq, Debug)]
pub enum SymbolError {
    /// The name is at fault.
    Refused(FaultKind),
    /// Out of memory.
    NoMemory,
}

impl From<NoMemory> for SymbolError {
    ghost from_gives = { λ _ error. error ≡ OutOfMemory };

    fn from(_error: NoMemory) -> Self {
        SymbolError::NoMemory
    }
}

impl From<AllocError> for SymbolError {
    ghost from_gives = { λ _ error. error ≡ OutOfMemory };

    fn from(_error: AllocError) -> Self {
        SymbolError::NoMemory
    }
}

impl<T: Drop> From<AllocFailed<T>> for SymbolError {
    ghost from_gives = { λ _ error. error ≡ OutOfMemory };

    fn from(_failed: AllocFailed<T>) -> Self {
        SymbolError::NoMemory
    }
}
