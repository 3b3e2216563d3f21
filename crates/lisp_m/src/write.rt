// The printer.
ghost use Rattle.std.specs.Prelude.{◌≡◌, ◌<◌, ◌≤◌, ◌++◌, ◌∷◌, length, reverse, Some, OnOk, IfOk};
ghost use Rattle.eq_base.specs.Tree.{head_of, arity_of};
ghost use Rattle.eq_base.specs.View.{tree_at};
ghost use Rattle.symbol_table.specs.Table.{IsFront, names_of};
ghost use Rattle.symbol_table.specs.Reading.{read, IsLiveHead, IsLiveTerm};
ghost use Rattle.written_terms.specs.Readable.{IsReadableTerm};
ghost use Rattle.lisp_m.specs.Printing.{symbol_part, print};
ghost use Rattle.lisp_m.specs.Readable.{IsReadAgain};
ghost use Rattle.lisp_m.specs.Writing.{AreLists, part_in, print_in, piece_text, text_left, steps_left, IsNode, IsPiece, ArePieces, IsElement, WritesFront};
ghost use Rattle.lisp_m.specs.declared.write.Part.TheVariants.{Other};
ghost use Rattle.lisp_m.specs.declared.write.Piece.TheVariants.{Arguments, ListRest};

use eq_base::{Head, NoMemory, TermView};
use std::alloc::Global;
use symbol_table::Symbols;
use written_terms::{list_symbols, write_head};

/// What a term is in a list.
#[derive(Clone, Copy, Debug, PartialEq, Eq)]
pub enum Part {
    /// An element and the rest.
    Element,
    /// The end.
    End,
    /// No part of a list.
    Other,
}

/// A piece of a text that is still to be written.
#[derive(Clone, Copy)]
enum Piece {
    /// The term at a node.
    Term(usize),
    /// The arguments of a node behind so many, and the bracket.
    Arguments(usize, u8),
    /// What stands behind an element of a list: the rest is the term at a node.
    ListRest(usize),
    /// The bracket that closes a list behind its last term.
    ListEnd,
}

/// What a symbol with so many arguments is in a list.
fn symbol_part(is_cons: bool, is_nil: bool, arity: u8) -> Part
    ensures { result ≡ symbol_part is_cons is_nil arity }
{
    if is_cons && arity == 2 {
        Part::Element
    } else if is_nil && arity == 0 {
        Part::End
    } else {
        Part::Other
    }
}

/// What a head with so many arguments is in a list.
fn part_of(symbols: &Symbols, lists: Option<(u32, u32)>, head: Head, arity: u8) -> Part
    requires lists { AreLists symbols.now lists }
    requires live { IsLiveHead symbols.now head }
    ensures { result ≡ part_in symbols.now head arity }
{
    symbols.has_one_number_each();
    match head {
        Head::Symbol(number) => match lists {
            Some((cons, nil)) => symbol_part(number == cons, number == nil, arity),
            None => Part::Other,
        },
        Head::Numeral(_) | Head::Atom(_) | Head::Text(_) => Part::Other,
    }
}

/// The element at a node and the rest of its list.
fn element_of<T: TermView>(view: &T, node: usize) -> (Piece, Piece)
    requires node { node < length (T.trees view.now) }
    requires two { arity_of (tree_at (T.trees view.now) node) ≡ 2 }
    ensures { IsElement (T.trees view.now) node result.0 result.1 }
{
    (
        Piece::Term(view.arg(node, 0)),
        Piece::ListRest(view.arg(node, 1)),
    )
}

/// Begins to write a term that is no list: its head. What is left are its arguments, if it has any.
fn begin_application<T: TermView>(
    symbols: &Symbols,
    view: &T,
    node: usize,
    into: &mut Vec<u8>,
) -> Result<Option<(Piece, Piece)>, NoMemory>
    requires node { IsNode symbols.now (T.trees view.now) node }
    requires other { part_in symbols.now (head_of (tree_at (T.trees view.now) node))
        (arity_of (tree_at (T.trees view.now) node)) ≡ Other }
    ensures ok { IfOk result (λ left. WritesFront symbols.now (T.trees view.now) into.old.items into.new.items
        (print_in symbols.now (tree_at (T.trees view.now) node)) left) }
    ensures front { IsFront into.old.items into.new.items }
{
    write_head(symbols, view.head(node), into)?;
    if view.arity(node) == 0 {
        return Ok(None);
    }
    into.push(b'[')?;
    Ok(Some((Piece::Term(view.arg(node, 0)), Piece::Arguments(node, 1))))
}

/// Begins to write what stands behind so many arguments of a node: the next one, or the bracket.
fn begin_arguments<T: TermView>(
    symbols: &Symbols,
    view: &T,
    node: usize,
    written: u8,
    into: &mut Vec<u8>,
) -> Result<Option<(Piece, Piece)>, NoMemory>
    requires { IsPiece symbols.now (T.trees view.now) (Arguments node written) }
    ensures ok { IfOk result (λ left. WritesFront symbols.now (T.trees view.now) into.old.items into.new.items
        (piece_text symbols.now (T.trees view.now) (Arguments node written)) left) }
    ensures front { IsFront into.old.items into.new.items }
{
    if written == view.arity(node) {
        into.push(b']')?;
        return Ok(None);
    }
    into.extend_from_slice(b"; ")?;
    Ok(Some((
        Piece::Term(view.arg(node, usize::from(written))),
        Piece::Arguments(node, written + 1),
    )))
}

/// Begins to write a term.
fn begin_term<T: TermView>(
    symbols: &Symbols,
    lists: Option<(u32, u32)>,
    view: &T,
    node: usize,
    into: &mut Vec<u8>,
) -> Result<Option<(Piece, Piece)>, NoMemory>
    requires lists { AreLists symbols.now lists }
    requires node { IsNode symbols.now (T.trees view.now) node }
    ensures ok { IfOk result (λ left. WritesFront symbols.now (T.trees view.now) into.old.items into.new.items
        (print_in symbols.now (tree_at (T.trees view.now) node)) left) }
    ensures front { IsFront into.old.items into.new.items }
{
    match part_of(symbols, lists, view.head(node), view.arity(node)) {
        Part::Element => {
            into.push(b'(')?;
            Ok(Some(element_of(view, node)))
        }
        Part::End => {
            into.extend_from_slice(b"()")?;
            Ok(None)
        }
        Part::Other => begin_application(symbols, view, node, into),
    }
}

/// Begins to write what stands behind an element: the rest of its list.
fn begin_rest<T: TermView>(
    symbols: &Symbols,
    lists: Option<(u32, u32)>,
    view: &T,
    node: usize,
    into: &mut Vec<u8>,
) -> Result<Option<(Piece, Piece)>, NoMemory>
    requires lists { AreLists symbols.now lists }
    requires node { IsNode symbols.now (T.trees view.now) node }
    ensures ok { IfOk result (λ left. WritesFront symbols.now (T.trees view.now) into.old.items into.new.items
        (piece_text symbols.now (T.trees view.now) (ListRest node)) left) }
    ensures front { IsFront into.old.items into.new.items }
{
    match part_of(symbols, lists, view.head(node), view.arity(node)) {
        Part::Element => {
            into.push(b' ')?;
            Ok(Some(element_of(view, node)))
        }
        Part::End => {
            into.push(b')')?;
            Ok(None)
        }
        Part::Other => {
            into.extend_from_slice(b" . ")?;
            Ok(Some((Piece::Term(node), Piece::ListEnd)))
        }
    }
}

/// Begins to write a piece, and gives the pieces that are left of it, if any.
fn begin_piece<T: TermView>(
    symbols: &Symbols,
    lists: Option<(u32, u32)>,
    view: &T,
    piece: Piece,
    into: &mut Vec<u8>,
) -> Result<Option<(Piece, Piece)>, NoMemory>
    requires lists { AreLists symbols.now lists }
    requires piece { IsPiece symbols.now (T.trees view.now) piece }
    ensures ok { IfOk result (λ left. WritesFront symbols.now (T.trees view.now) into.old.items into.new.items
        (piece_text symbols.now (T.trees view.now) piece) left) }
    ensures front { IsFront into.old.items into.new.items }
{
    match piece {
        Piece::Term(node) => begin_term(symbols, lists, view, node, into),
        Piece::Arguments(node, written) => begin_arguments(symbols, view, node, written, into),
        Piece::ListRest(node) => begin_rest(symbols, lists, view, node, into),
        Piece::ListEnd => {
            into.push(b')')?;
            Ok(None)
        }
    }
}

/// Writes on in a piece; what is left of it comes before the others.
fn write_next<T: TermView>(
    symbols: &Symbols,
    lists: Option<(u32, u32)>,
    view: &T,
    piece: Piece,
    others: &mut Vec<Piece>,
    into: &mut Vec<u8>,
) -> Result<(), NoMemory>
    requires lists { AreLists symbols.now lists }
    requires here { IsPiece symbols.now (T.trees view.now) piece }
    requires others { ArePieces symbols.now (T.trees view.now) (reverse others.old.items) }
    ensures text { OnOk result (
        into.new.items ++ text_left symbols.now (T.trees view.now) (reverse others.new.items)
        ≡ into.old.items ++ text_left symbols.now (T.trees view.now) (piece ∷ reverse others.old.items)) }
    ensures pieces { OnOk result (ArePieces symbols.now (T.trees view.now) (reverse others.new.items)) }
    ensures shorter { OnOk result (
        steps_left symbols.now (T.trees view.now) (reverse others.new.items)
        < steps_left symbols.now (T.trees view.now) (piece ∷ reverse others.old.items)) }
    ensures front { IsFront into.old.items into.new.items }
{
    if let Some((first, second)) = begin_piece(symbols, lists, view, piece, into)? {
        others.push(second)?;
        others.push(first)?;
    }
    Ok(())
}

/// Appends the print of the term at a node: a name, a numeral in decimal digits or a string between quotes, `f[a; b]`
/// with a semicolon and one blank between two arguments, and, where `cons` has two arguments and `nil` none, lists as
/// `()`, `(a b)` and `(a . b)`. With a dot behind it, it is read as the term again. Time: the bytes written, and one
/// `arg` of the view for each argument; a list takes no more memory by being long.
///
/// # Errors
///
/// Out of memory; `into` then still begins with its old bytes.
pub fn write_term<T: TermView>(
    alloc: Global,
    symbols: &Symbols,
    view: &T,
    node: usize,
    into: &mut Vec<u8>,
) -> Result<(), NoMemory>
    requires node { node < length (T.trees view.now) }
    requires printable { IsLiveTerm symbols.now (tree_at (T.trees view.now) node) }
    ensures ok { OnOk result (into.new.items
        ≡ into.old.items
        ++ print (names_of symbols.now) (read symbols.now (tree_at (T.trees view.now) node))) }
    ensures read_again { IsReadableTerm (names_of symbols.now)
        (read symbols.now (tree_at (T.trees view.now) node))
        → IsReadAgain (names_of symbols.now) (read symbols.now (tree_at (T.trees view.now) node)) }
    ensures front { IsFront into.old.items into.new.items }
{
    let lists = list_symbols(symbols);
    let mut left = Vec::new(alloc);
    left.push(Piece::Term(node))?;
    while let Some(piece) = left.pop() {
        write_next(symbols, lists, view, piece, &mut left, into)?;
    }
    Ok(())
}
