// Where a term is rewritten next.
ghost use Rattle.std.specs.Prelude.{◌≡◌, ◌↔◌, ℕ};
ghost use Rattle.eq_base.specs.Rewriting.{IsNormal};
ghost use Rattle.eq_base.specs.Rules.{system_of};
ghost use Rattle.symbol_table.specs.Table.{HasOneNumberEach};
ghost use Rattle.symbol_table.specs.Reading.{read, read_system, AreLive, IsLiveTerm};
ghost use Rattle.sequentiality.specs.Regular.{AreRegular};
ghost use Rattle.orthogonal_laws.specs.Operations.{Values};
ghost use Rattle.orthogonal_laws.specs.Results.{AreValuesBy};
ghost use Rattle.orthogonal_laws.specs.Next.{IsNextRedex};
ghost use Rattle.orthogonal_laws.specs.Demanded.{IsNextBy};

use crate::demand::{argument_toward, demanded_redex, last_failure};
use eq_base::{Flat, Rules};
use sequentiality::Regular;
use symbol_table::Symbols;

/// Where a term is rewritten next.
#[derive(Clone, Copy, PartialEq, Eq, Debug)]
pub enum Next {
    /// The next redex, and the number of the first equation that fits there.
    Redex {
        /// The node's number in preorder.
        at: usize,
        /// The equation's number, counted from 0.
        equation: usize,
    },
    /// Nowhere: the term is a normal form.
    Normal,
}

/// The next redex and the first equation that fits there, or that the term is normal. Atoms and strings
/// are their bytes, as the table has them. It takes no memory.
pub fn plain_next(regular: &Regular, symbols: &Symbols, term: &Flat) -> Next
    requires live { AreLive symbols.now regular.now }
    requires live_term { IsLiveTerm symbols.now term.now }
    ensures redex { (at equation : ℕ) →
        (result ≡ Next.Redex at equation)
        ↔ IsNextRedex (read_system symbols.now regular.now) (read symbols.now term.now) at equation }
    ensures normal { (result ≡ Next.Normal)
        ↔ IsNormal (read_system symbols.now regular.now) (read symbols.now term.now) }
{
    symbols.has_one_number_each();
    next_by_number(regular.rules(), symbols, term)
}

// The next redex, by the numbers of atoms and strings. It is the demanded redex of the first node in
// preorder that has one.
//
// The nodes on a way down that came to no redex have none either. So where the search comes to the
// next of them, one look shows the one after it. At worst each node's way is walked to its end.
fn next_by_number(rules: &Rules, symbols: &Symbols, term: &Flat) -> Next
    requires regular { AreRegular rules.now }
    requires distinct { HasOneNumberEach symbols.now }
    requires live { IsLiveTerm symbols.now term.now }
    ensures { (values : Values) → AreValuesBy symbols.now values →
        IsNextBy (system_of values rules.now) term.now result }
{
    // The next node of such a way down, and the last node at which a left side fails on it.
    let mut way = term.len();
    let mut last = way;
    for at in 0..term.len() {
        let mut from = last;
        if at != way {
            if let Some(fit) = demanded_redex(rules, symbols, term, at) {
                return Next::Redex {
                    at: fit.at,
                    equation: fit.equation,
                };
            }
            from = at;
        }
        if let Some(own) = last_failure(rules, term, at) {
            let failing = from.max(own);
            if failing > at {
                way = argument_toward(term, at, failing);
                last = failing;
            }
        }
    }
    Next::Normal
}
