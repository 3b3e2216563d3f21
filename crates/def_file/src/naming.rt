// The names of a file: what it declares, and whether each name is used as it is declared.
ghost use Rattle.std.specs.Prelude.{◌≡◌, ◌≤◌, ◌^◌, [], length, map, IfOk, IfErr};
ghost use Rattle.def_file.specs.Views.{file};
ghost use Rattle.def_file.specs.Grammar.{IsFileText};
ghost use Rattle.term_lex.specs.declared.syntax.Syntax.{Syntax as SyntaxValue};
ghost use Rattle.def_file.specs.Errors.{IfRefused};
ghost use Rattle.def_file.specs.Names.{nothing_known, listed_places, places_of, TakesAll, RefusesFirst};
ghost use Rattle.def_file.specs.Naming.{ArePlaced, IsNaming, only_symbols, no_operations, known_of};
ghost use Rattle.def_file.specs.Sides.{all_limits, AnswersLimits};
ghost use Rattle.def_file.specs.AsRead.{numbered_read, AreLiveItems};
ghost use Rattle.def_file.specs.Definitions.{MeanItems, sides_of};
ghost use Rattle.symbol_table.specs.Table.{names_of};
ghost use Rattle.symbol_table.specs.Reading.{AreLiveClasses};
ghost use Rattle.def_file.specs.Notations.{notation_of};

mod classes;
mod conditions;
mod faults;
mod items;
mod limits;
mod listed;
mod members;
mod operations;
mod symbols;
mod terms;
mod variable_classes;
mod variables;

use crate::class_names::ClassNames;
use crate::error::FileError;
use crate::tree::File;
use eq_base::{Classes, Op};
use items::{Taken, take_items};
use listed::Listed;
use members::take_class_items;
pub use operations::symbol_of;
use std::alloc::Global;
use symbol_table::{Symbols, Variables};
use symbols::take_symbols;
use term_lex::Syntax;
use variables::take_variables;

/// The names of a file, and its items in their terms.
#[derive(Drop)]
pub struct Named {
    /// The symbols.
    pub symbols: Symbols,
    /// The classes and the variables.
    pub listed: Listed,
    /// The equation classes.
    pub operations: Vec<Op>,
    /// The items.
    pub taken: Taken,
}

/// Takes the classes and the variables of a file.
fn take_listed(
    alloc: Global,
    text: &[u8],
    written: &File,
    symbols: &Symbols,
) -> Result<Listed, FileError>
    requires short { length text.now ≤ 2 ^ 24 }
    requires placed { ArePlaced text.now (listed_places (file written.now)) }
    requires few { length written.now.variables.items ≤ length text.now }
    ensures taken { (syntax : SyntaxValue) → IfOk result (λ listed. TakesAll (notation_of syntax) text.now
        (only_symbols symbols.now) (listed_places (file written.now)) (no_operations symbols.now listed)) }
    ensures refused { (syntax : SyntaxValue) → IfErr result (IfRefused (RefusesFirst (notation_of syntax)
        text.now (only_symbols symbols.now) (listed_places (file written.now)))) }
    ensures members { IfOk result (λ listed. AreLiveClasses (names_of symbols.now) listed.classes) }
    ensures named { IfOk result (λ listed. length listed.class_names ≡ length listed.classes) }
{
    let class_names = ClassNames::new(alloc);
    let classes = Classes::new(alloc);
    let variables = Variables::new(alloc);
    let mut listed = Listed {
        class_names,
        classes,
        members: 0,
        variables,
    };
    take_class_items(text, &written.classes, symbols, &mut listed)?;
    take_variables(text, &written.variables, symbols, &mut listed)?;
    Ok(listed)
}

/// Takes the names of the file that the text is.
pub fn take_names(
    alloc: Global,
    text: &[u8],
    syntax: Syntax,
    written: &File,
) -> Result<Named, FileError>
    requires short { length text.now ≤ 2 ^ 24 }
    requires reads { IsFileText (notation_of syntax) text.now (file written.now) }
    ensures naming { IsNaming (notation_of syntax) text.now (file written.now) result }
    ensures items { IfOk result (λ named. MeanItems (notation_of syntax) text.now (known_of named)
        1 (file written.now).items (map (numbered_read named.symbols) named.taken.items.items)) }
    ensures live { IfOk result (λ named. AreLiveItems named.symbols named.taken.items.items) }
    ensures members { IfOk result (λ named. AreLiveClasses (names_of named.symbols) named.listed.classes) }
    ensures named { IfOk result
        (λ named. length named.listed.class_names ≡ length named.listed.classes) }
    ensures limits { IfOk result (λ named. AnswersLimits (notation_of syntax) text.now (known_of named)
        (all_limits 0 (sides_of (file written.now))) named.taken.fault) }
{
    let mut symbols = Symbols::new(alloc);
    take_symbols(text, &written.symbols, &mut symbols)?;
    let listed = take_listed(alloc, text, written, &symbols)?;
    let mut operations = Vec::new(alloc);
    let taken = take_items(
        alloc,
        text,
        syntax,
        &written.items,
        &mut symbols,
        &listed,
        &mut operations,
    )?;
    Ok(Named {
        symbols,
        listed,
        operations,
        taken,
    })
}
