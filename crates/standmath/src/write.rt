// The printer of Standmath.
ghost use Rattle.std.specs.Prelude.{◌≡◌, ◌<◌, ◌≤◌, ◌+◌, ◌++◌, ◌∷◌, [], length, reverse, codes, OnOk};
ghost use Rattle.eq_base.specs.View.{tree_at};
ghost use Rattle.written_terms.specs.Printing.{text_in};
ghost use Rattle.symbol_table.specs.Reading.{read, IsLiveTerm};
ghost use Rattle.standmath.specs.Printing.{print};
ghost use Rattle.written_terms.specs.Readable.{IsReadableTerm};
ghost use Rattle.standmath.specs.Readable.{IsReadAgain};
ghost use Rattle.symbol_table.specs.Table.{IsFront, names_of};
ghost use Rattle.standmath.specs.Writing.{text_before, text_end, text_left, steps_left, IsOpen, AreOpen};

use eq_base::{NoMemory, TermView};
use std::alloc::Global;
use symbol_table::Symbols;
use written_terms::write_head;

/// An application that is being printed: its node, and how many of its arguments are written.
#[derive(Clone, Copy)]
struct Open {
    node: usize,
    written: u8,
}

/// Writes what stands before the next argument, behind so many.
fn write_before(written: u8, into: &mut Vec<u8>) -> Result<(), NoMemory>
    ensures ok { OnOk result (into.new.items ≡ into.old.items ++ text_before written) }
    ensures front { IsFront into.old.items into.new.items }
{
    if written == 0 {
        into.push(b'(')?;
    } else {
        into.extend_from_slice(b", ")?;
    }
    Ok(())
}

/// Writes what stands behind the last of so many arguments.
fn write_end(arity: u8, into: &mut Vec<u8>) -> Result<(), NoMemory>
    ensures ok { OnOk result (into.new.items ≡ into.old.items ++ text_end arity) }
    ensures front { IsFront into.old.items into.new.items }
{
    if arity > 0 {
        into.push(b')')?;
    }
    Ok(())
}

/// Writes on in the innermost open application: the head of its next argument, which is then open too, or its end.
fn write_next<T: TermView>(
    symbols: &Symbols,
    view: &T,
    innermost: Open,
    others: &mut Vec<Open>,
    into: &mut Vec<u8>,
) -> Result<(), NoMemory>
    requires here { IsOpen symbols.now (T.trees view.now) innermost }
    requires others { AreOpen symbols.now (T.trees view.now) (reverse others.old.items) }
    ensures text { OnOk result (
        into.new.items ++ text_left (text_in symbols.now) (T.trees view.now) (reverse others.new.items)
        ≡ into.old.items
        ++ text_left (text_in symbols.now) (T.trees view.now) (innermost ∷ reverse others.old.items)) }
    ensures opens { OnOk result (AreOpen symbols.now (T.trees view.now) (reverse others.new.items)) }
    ensures shorter { OnOk result (
        steps_left (text_in symbols.now) (T.trees view.now) (reverse others.new.items)
        < steps_left (text_in symbols.now) (T.trees view.now) (innermost ∷ reverse others.old.items)) }
    ensures front { IsFront into.old.items into.new.items }
{
    let arity = view.arity(innermost.node);
    if innermost.written == arity {
        return write_end(arity, into);
    }
    write_before(innermost.written, into)?;
    let argument = view.arg(innermost.node, usize::from(innermost.written));
    write_head(symbols, view.head(argument), into)?;
    others.push(Open {
        node: innermost.node,
        written: innermost.written + 1,
    })?;
    others.push(Open {
        node: argument,
        written: 0,
    })?;
    Ok(())
}

/// Appends the print of the term at a node: a name, a numeral in decimal digits or a string between quotes, and
/// `f(a, b)` with a comma and one blank between two arguments. With a dot behind it, it is read as the term again. Time:
/// the bytes written, and one `arg` of the view for each argument.
///
/// # Errors
///
/// Out of memory; `into` then still begins with its old bytes.
pub fn write_term<T: TermView>(
    alloc: Global,
    symbols: &Symbols,
    view: &T,
    node: usize,
    into: &mut Vec<u8>,
) -> Result<(), NoMemory>
    requires node { node < length (T.trees view.now) }
    requires printable { IsLiveTerm symbols.now (tree_at (T.trees view.now) node) }
    ensures ok { OnOk result (into.new.items
        ≡ into.old.items
        ++ print (names_of symbols.now) (read symbols.now (tree_at (T.trees view.now) node))) }
    ensures read_again { IsReadableTerm (names_of symbols.now)
        (read symbols.now (tree_at (T.trees view.now) node))
        → IsReadAgain (names_of symbols.now) (read symbols.now (tree_at (T.trees view.now) node)) }
    ensures front { IsFront into.old.items into.new.items }
{
    write_head(symbols, view.head(node), into)?;
    let mut opens = Vec::new(alloc);
    opens.push(Open { node, written: 0 })?;
    while let Some(innermost) = opens.pop() {
        write_next(symbols, view, innermost, &mut opens, into)?;
    }
    Ok(())
}
