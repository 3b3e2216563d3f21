// The names of the section of symbols.
ghost use Rattle.std.specs.Prelude.{◌≡◌, ◌+◌, ◌<◌, ◌≤◌, ◌^◌, ◌∷◌, [], length, map};
ghost use Rattle.std.specs.List.{flat_map};
ghost use Rattle.def_file.specs.Views.{symbol_item};
ghost use Rattle.def_file.specs.Names.{Symbol, Class, symbol_places};
ghost use Rattle.def_file.specs.Naming.{only_symbols};
ghost use Rattle.def_file.specs.Errors.{declaration_error};
ghost use Rattle.def_file.specs.Naming.{IsPlaced, ArePlaced, IsTaking};
ghost use Rattle.term_lex.specs.declared.syntax.Syntax.{Syntax as SyntaxValue};
ghost use Rattle.def_file.specs.Notations.{notation_of};

use super::faults::{bytes_of, refused_at};
use crate::error::FileError;
use crate::tree::SymbolItem;
use symbol_table::{SymbolError, Symbols};
use term_lex::{FaultKind, Token, numeral_value};

/// Where a declaration is at fault: at its name where it is declared already, else at its arity.
fn declaration_error(error: SymbolError, name: Token, arity: Token) -> FileError
    ensures { result ≡ declaration_error error name arity }
{
    match error {
        SymbolError::Refused(FaultKind::Twice) => refused_at(error, name.from),
        _ => refused_at(error, arity.from),
    }
}

/// Declares a symbol.
fn take_declaration(
    text: &[u8],
    name: Token,
    arity: Token,
    symbols: &mut Symbols,
) -> Result<(), FileError>
    requires placed { IsPlaced text.now (Symbol name arity) }
    requires room { 2 + length symbols.old.declared < 2 ^ 32 }
    ensures taking { (syntax : SyntaxValue) → IsTaking (notation_of syntax) text.now
        (only_symbols symbols.old) (Symbol name arity ∷ [])
        (only_symbols symbols.new) result }
    ensures few { length symbols.new.declared ≤ length symbols.old.declared + 1 }
{
    match symbols.declare(bytes_of(text, name), numeral_value(text, &arity)) {
        Ok(_) => Ok(()),
        Err(error) => Err(declaration_error(error, name, arity)),
    }
}

/// Includes a class of symbols.
fn take_class(text: &[u8], name: Token, symbols: &mut Symbols) -> Result<(), FileError>
    requires placed { IsPlaced text.now (Class name) }
    ensures taking { (syntax : SyntaxValue) → IsTaking (notation_of syntax) text.now
        (only_symbols symbols.old) (Class name ∷ [])
        (only_symbols symbols.new) result }
    ensures few { symbols.new.declared ≡ symbols.old.declared }
{
    match symbols.include(bytes_of(text, name)) {
        Ok(()) => Ok(()),
        Err(error) => Err(refused_at(error, name.from)),
    }
}

/// Includes classes of symbols.
fn take_classes(text: &[u8], names: &[Token], symbols: &mut Symbols) -> Result<(), FileError>
    requires placed { ArePlaced text.now (map Class names.now) }
    ensures taking { (syntax : SyntaxValue) → IsTaking (notation_of syntax) text.now
        (only_symbols symbols.old) (map Class names.now)
        (only_symbols symbols.new) result }
    ensures few { symbols.new.declared ≡ symbols.old.declared }
{
    for name in names {
        take_class(text, *name, symbols)?;
    }
    Ok(())
}

/// Takes an item of the section of symbols.
fn take_item(text: &[u8], item: &SymbolItem, symbols: &mut Symbols) -> Result<(), FileError>
    requires placed { ArePlaced text.now (symbol_places (symbol_item item.now)) }
    requires room { 2 + length symbols.old.declared < 2 ^ 32 }
    ensures taking { (syntax : SyntaxValue) → IsTaking (notation_of syntax) text.now
        (only_symbols symbols.old) (symbol_places (symbol_item item.now))
        (only_symbols symbols.new) result }
    ensures few { length symbols.new.declared ≤ length symbols.old.declared + 1 }
{
    match item {
        SymbolItem::Declares(name, arity) => take_declaration(text, *name, *arity, symbols),
        SymbolItem::Includes(_, names) => take_classes(text, names, symbols),
    }
}

/// Takes the items of the section of symbols, of which there are few.
pub fn take_symbols(
    text: &[u8],
    items: &[SymbolItem],
    symbols: &mut Symbols,
) -> Result<(), FileError>
    requires placed { ArePlaced text.now (flat_map symbol_places (map symbol_item items.now)) }
    requires room { 2 + (length symbols.old.declared + length items.now) < 2 ^ 32 }
    ensures { (syntax : SyntaxValue) → IsTaking (notation_of syntax) text.now (only_symbols symbols.old)
        (flat_map symbol_places (map symbol_item items.now)) (only_symbols symbols.new) result }
{
    for item in items {
        take_item(text, item, symbols)?;
    }
    Ok(())
}
