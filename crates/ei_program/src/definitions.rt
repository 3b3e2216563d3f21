// The equations of a definitions file.
ghost use Rattle.std.specs.Prelude.{IfOk, IfErr};
ghost use Rattle.def_file.specs.Errors.{IfRefused};
ghost use Rattle.ei_program.specs.Admitting.{AreUsable};
ghost use Rattle.ei_program.specs.Definitions.{Defines, RefusesFile, definitions_in};

use def_file::{Definitions, FileError, read_definitions};
use eq_base::Rules;
use qualifiers::expand;
use std::alloc::Global;
use symbol_table::Symbols;
use term_lex::Syntax;

/// What a definitions file gives.
#[derive(Drop)]
pub struct Equations {
    /// The symbols that it declares.
    pub symbols: Symbols,
    /// Its equations, with the alternatives of variables put in their places.
    pub rules: Rules,
}

/// Reads the equations of a definitions file in the notation. Linear in the text, in the sizes of its terms,
/// and in the nodes of the equations that it gives.
///
/// # Errors
///
/// The first fault of the file: of its reading, or else of its expansion; out of memory.
pub fn read_equations(alloc: Global, syntax: Syntax, text: &[u8]) -> Result<Equations, FileError>
    ensures ok { IfOk result (λ equations. Defines syntax text.now (definitions_in equations)) }
    ensures usable { IfOk result AreUsable }
    ensures refused { IfErr result (IfRefused (RefusesFile syntax text.now)) }
{
    let definitions = read_definitions(alloc, text, syntax)?;
    let rules = expand(alloc, &definitions)?;
    let Definitions { symbols, .. } = definitions;
    Ok(Equations { symbols, rules })
}
