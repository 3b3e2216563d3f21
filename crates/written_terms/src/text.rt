// The texts of heads.
ghost use Rattle.std.specs.Prelude.{◌≡◌, ◌++◌, OnOk};
ghost use Rattle.term_lex.specs.Strings.{written};
ghost use Rattle.symbol_table.specs.Table.{IsFront};
ghost use Rattle.written_terms.specs.Printing.{text_in, quoted};
ghost use Rattle.symbol_table.specs.Reading.{IsLiveHead};

use eq_base::{Head, NoMemory, push_numeral};
use symbol_table::Symbols;

/// Writes a byte of a string.
fn write_string_byte(byte: u8, into: &mut Vec<u8>) -> Result<(), NoMemory>
    ensures ok { OnOk result (into.new.items ≡ into.old.items ++ written byte) }
    ensures front { IsFront into.old.items into.new.items }
{
    match byte {
        b'"' => into.extend_from_slice(b"\\\"")?,
        b'\\' => into.extend_from_slice(b"\\\\")?,
        b'\n' => into.extend_from_slice(b"\\n")?,
        b'\t' => into.extend_from_slice(b"\\t")?,
        _ => into.push(byte)?,
    }
    Ok(())
}

/// Writes a string that holds the bytes.
fn write_string(bytes: &[u8], into: &mut Vec<u8>) -> Result<(), NoMemory>
    ensures ok { OnOk result (into.new.items ≡ into.old.items ++ quoted bytes.now) }
    ensures front { IsFront into.old.items into.new.items }
{
    into.push(b'"')?;
    for byte in bytes {
        write_string_byte(*byte, into)?;
    }
    into.push(b'"')?;
    Ok(())
}

/// Appends the text of a head: a name, a numeral in decimal digits, or a string between quotes.
///
/// # Errors
///
/// Out of memory; `into` then still begins with its old bytes.
pub fn write_head(symbols: &Symbols, head: Head, into: &mut Vec<u8>) -> Result<(), NoMemory>
    requires { IsLiveHead symbols.now head }
    ensures ok { OnOk result (into.new.items ≡ into.old.items ++ text_in symbols.now head) }
    ensures front { IsFront into.old.items into.new.items }
{
    match head {
        Head::Symbol(number) => into.extend_from_slice(symbols.name_of(number))?,
        Head::Numeral(value) => push_numeral(into, value)?,
        Head::Atom(number) => into.extend_from_slice(symbols.atom(number))?,
        Head::Text(number) => write_string(symbols.text(number), into)?,
    }
    Ok(())
}
