// The names of the list of variables.
ghost use Rattle.std.specs.Prelude.{◌≡◌, ◌+◌, ◌<◌, ◌≤◌, ◌^◌, ◌∷◌, [], length, map};
ghost use Rattle.def_file.specs.Names.{Variable};
ghost use Rattle.def_file.specs.Naming.{IsPlaced, ArePlaced, IsTaking, no_operations};
ghost use Rattle.term_lex.specs.declared.syntax.Syntax.{Syntax as SyntaxValue};
ghost use Rattle.def_file.specs.Notations.{notation_of};

use super::faults::{bytes_of, refused_at};
use super::listed::Listed;
use crate::error::FileError;
use symbol_table::Symbols;
use term_lex::Token;

/// Adds a variable.
fn take_variable(
    text: &[u8],
    name: Token,
    symbols: &Symbols,
    listed: &mut Listed,
) -> Result<(), FileError>
    requires placed { IsPlaced text.now (Variable name) }
    requires room { length listed.old.variables < 2 ^ 32 }
    ensures taking { (syntax : SyntaxValue) → IsTaking (notation_of syntax) text.now
        (no_operations symbols.now listed.old) (Variable name ∷ [])
        (no_operations symbols.now listed.new) result }
    ensures few { length listed.new.variables ≤ length listed.old.variables + 1 }
    ensures class_names { listed.new.class_names ≡ listed.old.class_names }
    ensures classes { listed.new.classes ≡ listed.old.classes }
{
    match listed.variables.add(symbols, bytes_of(text, name)) {
        Ok(()) => Ok(()),
        Err(error) => Err(refused_at(error, name.from)),
    }
}

/// Adds the variables, of which there are few.
pub fn take_variables(
    text: &[u8],
    names: &[Token],
    symbols: &Symbols,
    listed: &mut Listed,
) -> Result<(), FileError>
    requires placed { ArePlaced text.now (map Variable names.now) }
    requires room { length listed.old.variables + length names.now < 2 ^ 32 }
    ensures taking { (syntax : SyntaxValue) → IsTaking (notation_of syntax) text.now
        (no_operations symbols.now listed.old) (map Variable names.now)
        (no_operations symbols.now listed.new) result }
    ensures class_names { listed.new.class_names ≡ listed.old.class_names }
    ensures classes { listed.new.classes ≡ listed.old.classes }
{
    for name in names {
        take_variable(text, *name, symbols, listed)?;
    }
    Ok(())
}
