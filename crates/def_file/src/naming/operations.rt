// The equation classes that a file includes.
ghost use Rattle.std.specs.Prelude.{◌≡◌, ◌≢◌, ◌↔◌, ℕ, List, ◌∷◌, [], map, IsTrue, IfOk, MatchOption};
ghost use Rattle.std.specs.List.{AllByRecursion};
ghost use Rattle.eq_base.specs.declared.rules.Op.{Op as Operator};
ghost use Rattle.symbol_table.specs.Table.{IsDeclared, Includes, names_of};
ghost use Rattle.def_file.specs.Operations.{operation_name, operation_symbol, operation_classes, HasNeeds};
ghost use Rattle.def_file.specs.Names.{Operation, token_bytes};
ghost use Rattle.def_file.specs.Naming.{IsPlaced, ArePlaced, IsTaking, knowing};
ghost use Rattle.term_lex.specs.declared.syntax.Syntax.{Syntax as SyntaxValue};
ghost use Rattle.def_file.specs.declared.naming.listed.Listed.{Listed as ListedNames};
ghost use Rattle.def_file.specs.Notations.{notation_of};

use super::faults::{bytes_of, refused};
use crate::error::FileError;
use eq_base::{Op, SymbolClass};
use symbol_table::Symbols;
use term_lex::{FaultKind, Token};

const ADDINT: &[u8] = b"addint";

const SUBINT: &[u8] = b"subint";

const MULTINT: &[u8] = b"multint";

const DIVINT: &[u8] = b"divint";

const MODINT: &[u8] = b"modint";

const EQUINT: &[u8] = b"equint";

const LESSINT: &[u8] = b"lessint";

const EQUATOM: &[u8] = b"equatom";

const EQUSTR: &[u8] = b"equstr";

const CONCATSTR: &[u8] = b"concatstr";

const LENGTHSTR: &[u8] = b"lengthstr";

/// The equation class with the name.
fn operation_named(name: &[u8]) -> Option<Op>
    ensures { MatchOption result ((op : Operator) → name.now ≢ operation_name op)
        (λ op. name.now ≡ operation_name op) }
{
    if name == ADDINT {
        Some(Op::AddInt)
    } else if name == SUBINT {
        Some(Op::SubInt)
    } else if name == MULTINT {
        Some(Op::MultInt)
    } else if name == DIVINT {
        Some(Op::DivInt)
    } else if name == MODINT {
        Some(Op::ModInt)
    } else if name == EQUINT {
        Some(Op::EquInt)
    } else if name == LESSINT {
        Some(Op::LessInt)
    } else if name == EQUATOM {
        Some(Op::EquAtom)
    } else if name == EQUSTR {
        Some(Op::EquStr)
    } else if name == CONCATSTR {
        Some(Op::ConcatStr)
    } else if name == LENGTHSTR {
        Some(Op::LengthStr)
    } else {
        None
    }
}

/// The name of the symbol at the root of the class's left sides, and its arity.
pub fn symbol_of(op: Op) -> (&'static [u8], u8)
    ensures name { result.0.now ≡ (operation_symbol op).name }
    ensures arity { result.1 ≡ (operation_symbol op).arity }
{
    match op {
        Op::AddInt => (b"add", 2),
        Op::SubInt => (b"subtract", 2),
        Op::MultInt => (b"multiply", 2),
        Op::DivInt => (b"divide", 2),
        Op::ModInt => (b"modulo", 2),
        Op::EquInt | Op::EquAtom | Op::EquStr => (b"equ", 2),
        Op::LessInt => (b"less", 2),
        Op::ConcatStr => (b"concat", 2),
        Op::LengthStr => (b"length", 1),
    }
}

/// Whether the class's symbol is declared with its arity.
fn has_symbol(op: Op, symbols: &Symbols) -> bool
    ensures { IsTrue result
        ↔ ((number : ℕ) × IsDeclared symbols.now (operation_symbol op).name number
        (operation_symbol op).arity) }
{
    let (name, arity) = symbol_of(op);
    match symbols.find(name) {
        Some((_, declared)) => declared == arity,
        None => false,
    }
}

/// Whether a class of symbols is included.
pub fn includes(symbols: &Symbols, class: SymbolClass) -> bool
    ensures { IsTrue result ↔ Includes symbols.now class }
{
    symbols.included(class.number())
}

/// Whether the classes of symbols that the class needs are included.
fn has_classes(op: Op, symbols: &Symbols) -> bool
    ensures { IsTrue result ↔ AllByRecursion (λ class. Includes symbols.now class) (operation_classes op) }
{
    match op {
        Op::AddInt | Op::SubInt | Op::MultInt | Op::DivInt | Op::ModInt => {
            includes(symbols, SymbolClass::Numerals)
        }
        Op::EquInt | Op::LessInt => {
            includes(symbols, SymbolClass::Numerals) && includes(symbols, SymbolClass::TruthValues)
        }
        Op::EquAtom => {
            includes(symbols, SymbolClass::Atoms) && includes(symbols, SymbolClass::TruthValues)
        }
        Op::EquStr => {
            includes(symbols, SymbolClass::Strings) && includes(symbols, SymbolClass::TruthValues)
        }
        Op::ConcatStr => includes(symbols, SymbolClass::Strings),
        Op::LengthStr => {
            includes(symbols, SymbolClass::Strings) && includes(symbols, SymbolClass::Numerals)
        }
    }
}

/// Whether all that the class needs is declared and included.
fn has_needs(op: Op, symbols: &Symbols) -> bool
    ensures { IsTrue result ↔ HasNeeds (names_of symbols.now) op }
{
    has_symbol(op, symbols) && has_classes(op, symbols)
}

/// Includes an equation class.
pub fn take_operation(
    text: &[u8],
    name: Token,
    symbols: &Symbols,
    operations: &mut Vec<Op>,
) -> Result<Op, FileError>
    requires placed { IsPlaced text.now (Operation name) }
    ensures taking { (syntax : SyntaxValue) (listed : ListedNames)
        → IsTaking (notation_of syntax) text.now (knowing symbols.now listed operations.old.items)
        (Operation name ∷ [])
        (knowing symbols.now listed operations.new.items) result }
    ensures named { IfOk result (λ op. token_bytes text.now name ≡ operation_name op) }
{
    let Some(op) = operation_named(bytes_of(text, name)) else {
        return Err(refused(FaultKind::UnknownEquationClass, name));
    };
    if operations.contains(&op) {
        return Err(refused(FaultKind::Twice, name));
    }
    if !has_needs(op, symbols) {
        return Err(refused(FaultKind::SchemaNeeds, name));
    }
    operations.push(op)?;
    Ok(op)
}
