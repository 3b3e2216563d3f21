// The phases of a file: its length, its reading and its names, each looked at where those before it have no fault.
ghost use Rattle.std.specs.Prelude.{◌≡◌, ◌≤◌, ◌^◌, length, IfOk, IfErr, Result};
ghost use Rattle.def_file.specs.Grammar.{IsFileText};
ghost use Rattle.def_file.specs.Views.{file};
ghost use Rattle.def_file.specs.Errors.{IfRefused, AnswersRight, AnswersAs};
ghost use Rattle.def_file.specs.Definitions.{IsFileFault, IsDefinitions};
ghost use Rattle.def_file.specs.Naming.{IsNamed};
ghost use Rattle.def_file.specs.AsRead.{ReadDefinitions, answer_read, AreLiveItems};
ghost use Rattle.term_lex.specs.declared.fault.Fault.{Fault as FaultValue};
ghost use Rattle.symbol_table.specs.Reading.{AreLiveClasses};
ghost use Rattle.def_file.specs.Notations.{notation_of};

use crate::definitions::{Definitions, Items};
use crate::error::FileError;
use crate::naming::{Named, take_names};
use crate::reading::read_file;
use crate::tree::File;
use std::alloc::Global;
use term_lex::{Fault, FaultKind, Syntax};

/// The most bytes of a file: 2^24.
const FILE_BYTES: usize = 16_777_216;

/// The file that the text is, if it is of few enough bytes, or the first fault of its length and its reading.
fn read_short(alloc: Global, text: &[u8], syntax: Syntax) -> Result<File, FileError>
    ensures short { IfOk result (λ _. length text.now ≤ 2 ^ 24) }
    ensures reads { IfOk result (λ written. IsFileText (notation_of syntax) text.now (file written)) }
    ensures refused { IfErr result (IfRefused (IsFileFault (notation_of syntax) text.now)) }
{
    if text.len() > FILE_BYTES {
        return Err(FileError::Refused(Fault {
            kind: FaultKind::FileLong,
            byte: FILE_BYTES,
        }));
    }
    let (file, _) = read_file(alloc, text, syntax)?;
    Ok(file)
}

/// The file that the text is, and its names, or the first fault of its length, its reading and its names.
pub fn read_named(alloc: Global, text: &[u8], syntax: Syntax) -> Result<(File, Named), FileError>
    ensures ok { IfOk result (λ x. IsNamed (notation_of syntax) text.now (file x.0) x.1) }
    ensures refused { IfErr result (IfRefused (IsFileFault (notation_of syntax) text.now)) }
{
    let file = read_short(alloc, text, syntax)?;
    let named = take_names(alloc, text, syntax, &file)?;
    Ok((file, named))
}

/// The definitions that a text gives, or its first fault.
fn definitions_in(alloc: Global, text: &[u8], syntax: Syntax) -> Result<Definitions, FileError>
    ensures answer { AnswersRight (IsDefinitions (notation_of syntax) text.now) (answer_read result) }
    ensures live { IfOk result (λ d. AreLiveItems d.symbols d.items) }
    ensures members { IfOk result (λ d. AreLiveClasses d.symbols d.classes) }
    ensures named { IfOk result (λ d. length d.class_names ≡ length d.classes) }
{
    let (_, named) = read_named(alloc, text, syntax)?;
    if let Some(fault) = named.taken.fault {
        return Err(FileError::Refused(fault));
    }
    Ok(Definitions {
        symbols: named.symbols,
        class_names: named.listed.class_names,
        classes: named.listed.classes,
        variables: named.listed.variables,
        items: Items::new(named.taken.items),
    })
}

/// The definitions that a text gives, its terms in the notation. No other answer is right.
///
/// Linear time in the text, but for the qualifiers of an equation, which are compared with each other and with its
/// variables; memory for the file and its definitions.
///
/// # Errors
///
/// The first fault of the first phase that has one: the length, the reading, the names and the sides; out of memory.
pub fn read_definitions(
    alloc: Global,
    text: &[u8],
    syntax: Syntax,
) -> Result<Definitions, FileError>
    ensures answer { AnswersRight (IsDefinitions (notation_of syntax) text.now) (answer_read result) }
    ensures only { (other : Result ReadDefinitions FaultValue)
        → IsDefinitions (notation_of syntax) text.now other
        → AnswersAs other (answer_read result) }
    ensures live { IfOk result (λ d. AreLiveItems d.symbols d.items) }
    ensures members { IfOk result (λ d. AreLiveClasses d.symbols d.classes) }
    ensures named { IfOk result (λ d. length d.class_names ≡ length d.classes) }
{
    definitions_in(alloc, text, syntax)
}
