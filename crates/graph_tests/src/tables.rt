// Tables of item sets.
ghost use Rattle.graph_tests.specs.KnownStates.{AreSomeTables, IsKnown};

use crate::stores::addition;
use eq_base::{
    Cell, Classes, Equation, Head, NoMemory, Origin, Pattern, PatternMaker, Right, Rules,
    SymbolClass,
};
use match_tables::{Advance, Tables, Want};
use regularity::are_well_formed;
use sequentiality::Regular;
use std::alloc::Global;
use std::test::Fail;

const Z: Head = Head::Symbol(2);

const S: Head = Head::Symbol(3);

const PLUS: Head = Head::Symbol(4);

// The state of the roots alone.
fn first(tables: &Tables) -> usize
    requires { AreSomeTables tables.now }
    ensures { IsKnown tables.now result }
{
    tables.start()
}

// The state behind a read.
fn behind(tables: &Tables, state: usize, head: Head) -> usize
    requires { IsKnown tables.now state }
    ensures { IsKnown tables.now result }
{
    match tables.read(state, head) {
        Advance::Go(next) => next,
        Advance::Redex {
            equation: _,
            height: _,
            next,
        } => next,
    }
}

// The state past a variable.
fn past(tables: &Tables, state: usize) -> usize
    requires { IsKnown tables.now state }
    ensures { IsKnown tables.now result }
{
    tables.skip(state)
}

// Whether a read names an equation at a height.
fn names(tables: &Tables, state: usize, head: Head, equation: usize, height: usize) -> bool
    requires { IsKnown tables.now state }
{
    match tables.read(state, head) {
        Advance::Go(_) => false,
        Advance::Redex {
            equation: own,
            height: above,
            next: _,
        } => own == equation && above == height,
    }
}

// Whether this is what the state wants.
fn wants(tables: &Tables, state: usize, want: Want) -> bool
    requires { IsKnown tables.now state }
{
    tables.wants(state) == want
}

// Whether the tables of addition have the five states that they should.
fn has_five_states(tables: &Tables) -> bool
    requires { AreSomeTables tables.now }
{
    let start = first(tables);
    let plus = behind(tables, start, PLUS);
    let zero = behind(tables, plus, Z);
    let one = behind(tables, plus, S);
    let after = past(tables, one);
    wants(tables, start, Want::Nothing)
        && wants(tables, plus, Want::Read)
        && names(tables, plus, Z, 0, 1)
        && wants(tables, zero, Want::Skip)
        && names(tables, plus, S, 1, 1)
        && wants(tables, one, Want::Skip)
        && wants(tables, after, Want::Skip)
        && past(tables, after) == start
        && behind(tables, plus, Head::Numeral(0)) == start
}

#[test]
fn addition_has_five_states(rt: HostRuntime) -> Result<(), Fail> {
    let rules = addition(rt.alloc())?;
    if !are_well_formed(&rules, &[0, 0, 0, 1, 2]) {
        panic!(rt; "the equations are well formed");
    }
    let Ok(regular) = Regular::admit(rt.alloc(), rules) else {
        panic!(rt; "the equations break nothing");
    };
    let Some(tables) = Tables::build(rt.alloc(), &regular)? else {
        panic!(rt; "there are tables");
    };
    assert!(rt; has_five_states(&tables));
    Ok(())
}

// The symbol with 25 arguments.
const WIDE: Head = Head::Symbol(2);

// A constant.
fn constant(i: u8) -> Head {
    Head::Symbol(u32::from(i) + 2)
}

// The wide symbol over 0 at one argument, its constant at the last one, and numerals at the others.
fn wide_left(alloc: Global, i: u8) -> Result<Option<Pattern>, NoMemory> {
    let mut maker = PatternMaker::new(alloc);
    maker.push_cell(Cell::Head(WIDE, 25))?;
    for at in 1..26u8 {
        let cell = if at == i {
            Cell::Head(Head::Numeral(0), 0)
        } else if at == 25 {
            Cell::Head(constant(i), 0)
        } else {
            Cell::Class(u32::from(at), SymbolClass::Numerals.number())
        };
        if maker.missing() > 0 {
            maker.push_cell(cell)?;
        }
    }
    Ok(if maker.missing() == 0 {
        Some(maker.finish())
    } else {
        None
    })
}

// A constant as a right side.
fn constant_right(alloc: Global, i: u8) -> Result<Pattern, NoMemory> {
    let mut maker = PatternMaker::new(alloc);
    maker.push_cell(Cell::Head(constant(i), 0))?;
    Ok(maker.finish())
}

// The 24 equations whose left sides have 0 at one argument each.
fn wide_rules(alloc: Global) -> Result<Rules, NoMemory> {
    let mut rules = Rules::new(alloc, Classes::new(alloc));
    for i in 1..25u8 {
        if let Some(left) = wide_left(alloc, i)? {
            rules.push(Equation {
                left,
                right: Right::Tree(constant_right(alloc, i)?),
                origin: Origin {
                    item: u32::from(i),
                    part: 0,
                },
            })?;
        }
    }
    Ok(rules)
}

#[test]
fn wide_left_sides_have_no_tables(rt: HostRuntime) -> Result<(), Fail> {
    let rules = wide_rules(rt.alloc())?;
    assert_eq!(rt; rules.len(), 24);
    if !are_well_formed(&rules, &[0, 0, 25]) {
        panic!(rt; "the equations are well formed");
    }
    let Ok(regular) = Regular::admit(rt.alloc(), rules) else {
        panic!(rt; "the equations break nothing");
    };
    assert!(rt; Tables::build(rt.alloc(), &regular)?.is_none());
    Ok(())
}
