// Plain runs.
ghost use Rattle.std.specs.Prelude.{IfOk};
ghost use Rattle.symbol_table.specs.Table.{Keeps};
ghost use Rattle.symbol_table.specs.Reading.{read, read_system, AreLive, IsLiveTerm};
ghost use Rattle.orthogonal_laws.specs.Operations.{AreTruthsKnown};
ghost use Rattle.orthogonal_laws.specs.Run.{IsEnd, IsLiveEnd};

use crate::next::{Next, plain_next};
use crate::step::step;
use eq_base::{Flat, NoMemory};
use sequentiality::Regular;
use std::alloc::Global;
use symbol_table::Symbols;

/// How a plain run ends.
#[derive(Drop)]
pub enum PlainEnd {
    /// In a normal form, after so many replacements.
    Normal(Flat, u64),
    /// With the budget spent and a redex left.
    Spent(Flat),
}

/// Makes the replacement at the next redex, again and again, at most as often as the budget says. Atoms
/// and strings are their bytes; strings that are joined get their numbers in the table, also where there
/// is no memory for more. A replacement copies the term. Where there is no memory the term is dropped.
pub fn plain_run(
    alloc: Global,
    regular: &Regular,
    symbols: &mut Symbols,
    term: Flat,
    budget: u64,
) -> Result<PlainEnd, NoMemory>
    requires truths { AreTruthsKnown symbols.old regular.now }
    requires live { AreLive symbols.old regular.now }
    requires live_term { IsLiveTerm symbols.old term }
    ensures ok { IfOk result
        (IsEnd (read_system symbols.old regular.now) (read symbols.old term) budget symbols.new) }
    ensures live { IfOk result (IsLiveEnd symbols.new) }
    ensures keeps { Keeps symbols.old symbols.new }
{
    symbols.has_one_number_each();
    let rules = regular.rules();
    let mut term = term;
    let mut steps = 0;
    loop {
        match plain_next(regular, symbols, &term) {
            Next::Normal => return Ok(PlainEnd::Normal(term, steps)),
            Next::Redex { at, equation } => {
                if steps == budget {
                    return Ok(PlainEnd::Spent(term));
                }
                term = step(alloc, rules, symbols, &term, at, equation)?;
                steps += 1;
            }
        }
    }
}
