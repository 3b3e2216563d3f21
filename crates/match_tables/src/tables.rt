// The tables and their states.
ghost use Rattle.std.specs.Prelude.{◌≡◌, ℕ, ◌<◌, ◌≤◌, List, [], length, IfOk, IfErr, Some, slice_get};
ghost use Rattle.eq_base.specs.Cells.{kind_of};
ghost use Rattle.eq_base.specs.RuleList.{RuleList};
ghost use Rattle.regularity.specs.WellFormed.{AreWellFormed};
ghost use Rattle.match_tables.specs.Completing.{AreEnds};
ghost use Rattle.match_tables.specs.Searching.{Extends, AreFound, IsStopped};
ghost use Rattle.match_tables.specs.Tabled.{AreRows, AreRoots, AreRootsBelow, IsBelow, AreTablesOf};

use crate::advance::{Advance, Want};
use crate::completed::{End, ends_of};
use crate::row::{State, state_of};
use crate::search::{Move, Search, Stop};
use crate::sets::ItemSets;
use crate::step::Step;
use eq_base::{Cell, Head, NoMemory, Rules};
use sequentiality::Regular;
use std::alloc::Global;

/// Where the heads of terms lead from one item set to the next.
///
/// The row of a state holds the heads that items below the roots name, each with its move, and a move for the
/// other numerals, atoms and strings. Every other symbol leads where it leads from the roots alone, which is one
/// look-up in a dense table.
#[derive(Drop)]
pub struct Tables {
    sets: ItemSets,
    ends: Vec<End>,
    roots: Vec<Move>,
    states: Vec<State>,
}

impl Tables {
    ghost use Rattle.match_laws.specs.Items.{ItemSet};
    ghost use Rattle.match_tables.specs.Answering.{StandsFor, IsWanted, IsAdvance, SkipLeads};
    ghost use Rattle.match_tables.specs.Rows.{MeetsNone, IsRight};
    ghost use Rattle.match_tables.specs.Tabled.{IsState, IsBuilt};
    ghost use Rattle.match_tables.specs.declared.completed.End.{End};
    ghost use Rattle.eq_base.specs.declared.head.Head.TheVariants.{Symbol};
    ghost use Rattle.match_tables.specs.declared.step.Step.TheVariants.{Read};

    /// The tables of equations, or none where the reachable item sets hold together more than 2^22 items below
    /// the roots. It stops soon after that many are found.
    pub fn build(alloc: Global, regular: &Regular) -> Result<Option<Tables>, NoMemory>
        ensures { IfOk result (IsBuilt regular.now) }
    {
        match find(alloc, regular.rules()) {
            Ok(tables) => Ok(Some(tables)),
            Err(Stop::Past) => Ok(None),
            Err(Stop::NoMemory) => Err(NoMemory),
        }
    }

    /// The state of the roots alone.
    pub fn start(&self) -> usize
        ensures { (rules : RuleList) → AreTablesOf rules self.now → StandsFor self.now.sets result [] }
    {
        0
    }

    /// Where a head leads, in expected constant time.
    pub fn read(&self, state: usize, head: Head) -> Advance
        requires { IsState self.now state }
        ensures { (rules : RuleList) → AreTablesOf rules self.now → (items : ItemSet)
            → StandsFor self.now.sets state items → IsAdvance rules self.now.sets items head result }
    {
        let to = self.states[state].on_head(head, self.on_root(head));
        let next = to.next;
        match to.completed {
            None => Advance::Go(next),
            Some(equation) => Advance::Redex {
                equation: equation as usize,
                height: self.height(equation),
                next,
            },
        }
    }

    // How far below its root a left side has its last tested cell.
    fn height(&self, equation: u16) -> usize
        ensures { (end : End) → slice_get self.now.ends.items equation ≡ Some end → result ≡ end.height }
    {
        match self.ends.get(equation as usize) {
            Some(end) => end.height as usize,
            None => 0,
        }
    }

    /// Where a skip leads.
    pub fn skip(&self, state: usize) -> usize
        requires { IsState self.now state }
        ensures { (rules : RuleList) → AreTablesOf rules self.now → (items : ItemSet)
            → StandsFor self.now.sets state items → SkipLeads rules self.now.sets items result }
    {
        self.states[state].skip
    }

    /// What the state wants.
    pub fn wants(&self, state: usize) -> Want
        requires { IsState self.now state }
        ensures { (rules : RuleList) → AreTablesOf rules self.now → (items : ItemSet)
            → StandsFor self.now.sets state items → IsWanted rules items result }
    {
        self.states[state].want
    }

    // Where a head leads that no item below the roots meets.
    fn on_root(&self, head: Head) -> Move
        ensures { (rules : RuleList) → AreTablesOf rules self.now → (items : ItemSet)
            → MeetsNone rules items head → (symbol : ℕ) → head ≡ Symbol symbol
            → IsRight rules self.now.sets items (Read head) result }
    {
        let nowhere = Move {
            next: 0,
            completed: None,
        };
        match head {
            Head::Symbol(symbol) if (symbol as usize) < self.roots.len() => {
                self.roots[symbol as usize]
            }
            _ => nowhere,
        }
    }
}

// The tables of equations.
fn find(alloc: Global, rules: &Rules) -> Result<Tables, Stop>
    requires { AreWellFormed rules.now }
    ensures ok { IfOk result (λ tables. AreTablesOf rules.now tables) }
    ensures err { IfErr result (IsStopped rules.now) }
{
    let ends = ends_of(alloc, rules)?;
    let mut search = Search::new(alloc)?;
    let roots = roots_of(alloc, &mut search, rules, &ends)?;
    let states = states_of(alloc, &mut search, rules, &ends)?;
    Ok(Tables {
        sets: search.finish(),
        ends,
        roots,
        states,
    })
}

// The states, in the order in which their item sets are found.
fn states_of(
    alloc: Global,
    search: &mut Search,
    rules: &Rules,
    ends: &[End],
) -> Result<Vec<State>, Stop>
    requires rules { AreWellFormed rules.now }
    requires ends { AreEnds rules.now ends.now }
    requires found { AreFound rules.now search.old }
    ensures rows { IfOk result (λ states. AreRows rules.now search.new states.items) }
    ensures as_many { IfOk result (λ states. length states.items ≡ length search.new) }
    ensures found { IfOk result (λ states. AreFound rules.now search.new) }
    ensures extends { IfOk result (λ states. Extends search.old search.new) }
    ensures err { IfErr result (IsStopped rules.now) }
{
    let mut states = Vec::new(alloc);
    while states.len() < search.len() {
        let state = state_of(alloc, search, rules, ends, states.len())?;
        states.push(state)?;
    }
    Ok(states)
}

// Where the symbols lead from the roots alone.
fn roots_of(
    alloc: Global,
    search: &mut Search,
    rules: &Rules,
    ends: &[End],
) -> Result<Vec<Move>, Stop>
    requires rules { AreWellFormed rules.now }
    requires ends { AreEnds rules.now ends.now }
    requires found { AreFound rules.now search.old }
    requires start { slice_get search.old 0 ≡ Some [] }
    ensures roots { IfOk result (λ roots. AreRoots rules.now search.new roots.items) }
    ensures found { IfOk result (λ roots. AreFound rules.now search.new) }
    ensures extends { IfOk result (λ roots. Extends search.old search.new) }
    ensures err { IfErr result (IsStopped rules.now) }
{
    let mut roots = Vec::new(alloc);
    for symbol in 0..end_of_roots(rules) {
        let step = Step::Read(Head::Symbol(symbol as u32));
        let to = search.go(alloc, rules, ends, 0, step)?;
        roots.push(to)?;
    }
    Ok(roots)
}

// One more than the greatest symbol at the root of a left side.
fn end_of_roots(rules: &Rules) -> usize
    ensures above { AreRootsBelow rules.now result }
    ensures small { result ≤ 4294967296 }
{
    let mut end = 0;
    for number in 0..rules.len() {
        let own = end_of_root(rules.equation(number).left.cell(0));
        if end < own {
            end = own;
        }
    }
    end
}

// One more than the symbol in a cell, or 0 where there is none.
fn end_of_root(cell: Cell) -> usize
    ensures above { IsBelow (kind_of cell) result }
    ensures small { result ≤ 4294967296 }
{
    match cell {
        Cell::Head(Head::Symbol(symbol), _) => symbol as usize + 1,
        _ => 0,
    }
}
