// The reading of a file: which lexemes it is made of.
ghost use Rattle.std.specs.Prelude.{◌≤◌, length};
ghost use Rattle.def_file.specs.Grammar.{IsFile};
ghost use Rattle.def_file.specs.Views.{file};
ghost use Rattle.def_file.specs.Reading.{IsReadIn};
ghost use Rattle.def_file.specs.Notations.{notation_of};

mod classes;
mod conditions;
mod items;
mod names;
mod symbols;
mod terms;
mod tokens;
mod variables;

use crate::error::FileError;
use crate::tree::File;
use classes::read_classes;
use items::read_items;
use std::alloc::Global;
use symbols::read_symbol_items;
use term_lex::{Syntax, TokenKind};
use tokens::{skip_kind, skip_word};
use variables::read_variables;

/// The file that the text is, and the place of its end.
pub fn read_file(alloc: Global, text: &[u8], syntax: Syntax) -> Result<(File, usize), FileError>
    ensures { let notation = notation_of syntax in
        IsReadIn notation (IsFile notation) file text.now 0 result }
{
    let symbols_at = skip_word(text, 0, b"Symbols")?;
    let (symbols, classes_at) = read_symbol_items(alloc, text, symbols_at)?;
    let (classes, for_at) = read_classes(alloc, text, classes_at)?;
    let all_at = skip_word(text, for_at, b"For")?;
    let variables_at = skip_word(text, all_at, b"all")?;
    let (variables, items_at) = read_variables(alloc, text, variables_at)?;
    let (items, end_at) = read_items(alloc, text, syntax, items_at)?;
    let end = skip_kind(text, end_at, TokenKind::End)?;
    let file = File {
        symbols,
        classes,
        variables,
        items,
    };
    Ok((file, end))
}
