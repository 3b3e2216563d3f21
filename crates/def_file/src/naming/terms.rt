// The terms of equations.
ghost use Rattle.std.specs.Prelude.{◌≡◌, ◌≤◌, ℕ, List, ◌∷◌, [], length, map, IfOk};
ghost use Rattle.eq_base.specs.declared.rules.Op.{Op as Operator};
ghost use Rattle.symbol_table.specs.Table.{Keeps};
ghost use Rattle.def_file.specs.Names.{Term};
ghost use Rattle.def_file.specs.Naming.{ArePlaced, IsTaking, knowing};
ghost use Rattle.def_file.specs.Pairs.{AreRelated};
ghost use Rattle.def_file.specs.Taking.{Lasts, IsSideTaken};
ghost use Rattle.def_file.specs.Notations.{notation_of};

use super::listed::Listed;
use crate::error::FileError;
use crate::notations::read_pattern;
use eq_base::Pattern;
use std::alloc::Global;
use symbol_table::Symbols;
use term_lex::Syntax;

/// The pattern of the term that begins at the byte.
pub fn take_term(
    alloc: Global,
    text: &[u8],
    syntax: Syntax,
    byte: usize,
    symbols: &mut Symbols,
    listed: &Listed,
) -> Result<Pattern, FileError>
    requires placed { byte ≤ length text.now }
    ensures taking { (operations : List Operator)
        → IsTaking (notation_of syntax) text.now (knowing symbols.old listed.now operations)
        (Term byte ∷ [])
        (knowing symbols.new listed.now operations) result }
    ensures pattern { IfOk result (λ pattern. Lasts
        (λ known table. IsSideTaken (notation_of syntax) text.now known table byte pattern)
        symbols.new listed.now) }
    ensures keeps { Keeps symbols.old symbols.new }
{
    let (pattern, _) = read_pattern(alloc, syntax, symbols, &listed.variables, text, byte)?;
    Ok(pattern)
}

/// The patterns of terms.
pub fn take_terms(
    alloc: Global,
    text: &[u8],
    syntax: Syntax,
    terms: &[usize],
    symbols: &mut Symbols,
    listed: &Listed,
) -> Result<Vec<Pattern>, FileError>
    requires placed { ArePlaced text.now (map Term terms.now) }
    ensures taking { (operations : List Operator)
        → IsTaking (notation_of syntax) text.now (knowing symbols.old listed.now operations)
        (map Term terms.now)
        (knowing symbols.new listed.now operations) result }
    ensures patterns { IfOk result (λ patterns. Lasts
        (λ known table. AreRelated (IsSideTaken (notation_of syntax) text.now known table)
        terms.now patterns.items)
        symbols.new listed.now) }
    ensures keeps { Keeps symbols.old symbols.new }
{
    let mut patterns = Vec::new(alloc);
    for byte in terms {
        let pattern = take_term(alloc, text, syntax, *byte, symbols, listed)?;
        patterns.push(pattern)?;
    }
    Ok(patterns)
}
