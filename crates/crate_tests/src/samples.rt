// Files of definitions, terms and faults that several tests are given.
ghost use Rattle.std.specs.Prelude.{◌≡◌, IfOk, OnOk};
ghost use Rattle.symbol_table.specs.Reading.{IsLiveTerm};

use eq_base::{Flat, NoMemory};
use std::alloc::Global;
use symbol_table::Symbols;
use term_input::write_term;
use term_lex::{FaultKind, Syntax, TokenKind};

pub const PEANO: &str = "Symbols z: 0; s: 1; plus: 2; include truth_values.
For all x, y:
  plus(z, x) = x;
  plus(s(x), y) = s(plus(x, y)).
";

pub const DEMANDED_ARGUMENT: &str = "Symbols a: 0; b: 0; c: 0; f: 2; loop: 0; include truth_values.
For all x:
  f(x, a) = c;
  b = a;
  loop = loop.
";

pub const LISTS: &str = "Symbols cons: 2; nil: 0; append: 2; a: 0; b: 0; f: 1; g: 2. For all: .";

pub const LITERALS: &str =
    "Symbols f: 3; g: 2; include integer_numerals, strings, atomic_symbols. For all: .";

/// The fault of a token that cannot stand where it was found.
pub fn unexpected(found: TokenKind) -> FaultKind {
    FaultKind::Expected { found }
}

/// The print of a term.
pub fn printed(
    alloc: Global,
    syntax: Syntax,
    symbols: &Symbols,
    term: &Flat,
) -> Result<Vec<u8>, NoMemory>
    requires { IsLiveTerm symbols.now term.now }
{
    let mut text = Vec::new(alloc);
    write_term(alloc, syntax, symbols, term, 0, &mut text)?;
    Ok(text)
}
