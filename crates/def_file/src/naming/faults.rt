// Faults at the first bytes of names.
ghost use Rattle.std.specs.Prelude.{◌≡◌, ◌≤◌, length, slice_range};
ghost use Rattle.term_lex.specs.Values.{IsTokenOf};
ghost use Rattle.symbol_table.specs.declared.error.SymbolError.TheVariants.{Refused as SymbolRefused};
ghost use Rattle.def_file.specs.Names.{token_bytes};
ghost use Rattle.def_file.specs.Errors.{refused_at};

use crate::error::FileError;
use symbol_table::SymbolError;
use term_lex::{Fault, FaultKind, Token};

/// The bytes of a token.
pub fn bytes_of<'a>(text: &'a [u8], token: Token) -> &'a [u8]
    requires { IsTokenOf text.now token }
    ensures { result.now ≡ token_bytes text.now token }
{
    &text[token.from..token.to]
}

/// The error of a fault at a name.
pub fn refused(kind: FaultKind, name: Token) -> FileError
    ensures { result ≡ refused_at (SymbolRefused kind) name.from }
{
    FileError::Refused(Fault {
        kind,
        byte: name.from,
    })
}

/// The error of a name that is refused, which stands at the byte.
pub fn refused_at(error: SymbolError, byte: usize) -> FileError
    ensures { result ≡ refused_at error byte }
{
    match error {
        SymbolError::Refused(kind) => FileError::Refused(Fault { kind, byte }),
        SymbolError::NoMemory => FileError::NoMemory,
    }
}
