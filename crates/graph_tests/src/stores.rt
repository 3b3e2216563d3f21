// Stores: the numbers of nodes, sizes, numerals.
ghost use Rattle.std.specs.Prelude.{◌≡◌, ◌≤◌, ◌+◌, IfOk};
ghost use Rattle.graph_tests.specs.AdditionStores.{two_and_one, zero_equation, successor_equation, addition_rules, start_trees, one_step, two_steps, three_steps};

use eq_base::{
    Cell, Classes, Equation, Flat, FlatMaker, Head, NoMemory, Origin, Pattern, PatternMaker, Right,
    Rules,
};
use regularity::are_well_formed;
use sequentiality::Regular;
use std::alloc::Global;
use std::test::Fail;
use term_graph::{Made, Store};

const Z: Head = Head::Symbol(2);

const S: Head = Head::Symbol(3);

const PLUS: Head = Head::Symbol(4);

const NIL: u32 = 5;

const CONS: u32 = 6;

// plus(z, x) = x
fn zero_equation(alloc: Global) -> Result<Equation, NoMemory>
    ensures { IfOk result (λ e. e ≡ zero_equation) }
{
    let mut left = PatternMaker::new(alloc);
    left.push_cell(Cell::Head(PLUS, 2))?;
    left.push_cell(Cell::Head(Z, 0))?;
    left.push_cell(Cell::Var(0))?;
    let mut right = PatternMaker::new(alloc);
    right.push_cell(Cell::Var(0))?;
    Ok(Equation {
        left: left.finish(),
        right: Right::Tree(right.finish()),
        origin: Origin { item: 1, part: 0 },
    })
}

// plus(s(x), y) = s(plus(x, y))
fn successor_equation(alloc: Global) -> Result<Equation, NoMemory>
    ensures { IfOk result (λ e. e ≡ successor_equation) }
{
    let mut left = PatternMaker::new(alloc);
    left.push_cell(Cell::Head(PLUS, 2))?;
    left.push_cell(Cell::Head(S, 1))?;
    left.push_cell(Cell::Var(0))?;
    left.push_cell(Cell::Var(1))?;
    let mut right = PatternMaker::new(alloc);
    right.push_cell(Cell::Head(S, 1))?;
    right.push_cell(Cell::Head(PLUS, 2))?;
    right.push_cell(Cell::Var(0))?;
    right.push_cell(Cell::Var(1))?;
    Ok(Equation {
        left: left.finish(),
        right: Right::Tree(right.finish()),
        origin: Origin { item: 2, part: 0 },
    })
}

// Both equations.
pub fn addition(alloc: Global) -> Result<Rules, NoMemory>
    ensures { IfOk result (λ rules. rules ≡ addition_rules) }
{
    let mut rules = Rules::new(alloc, Classes::new(alloc));
    rules.push(zero_equation(alloc)?)?;
    rules.push(successor_equation(alloc)?)?;
    Ok(rules)
}

// plus(s(s(z)), s(z))
fn sum(alloc: Global) -> Result<Flat, NoMemory>
    ensures { IfOk result (λ flat. flat ≡ two_and_one) }
{
    let mut maker = FlatMaker::new(alloc);
    maker.push_cell(PLUS, 2)?;
    maker.push_cell(S, 1)?;
    maker.push_cell(S, 1)?;
    maker.push_cell(Z, 0)?;
    maker.push_cell(S, 1)?;
    maker.push_cell(Z, 0)?;
    Ok(maker.finish())
}

// Pushes a symbol over its arguments, where a term is missing.
fn push(maker: &mut FlatMaker, symbol: u32, arity: u8) -> Result<(), NoMemory> {
    if maker.missing() > 0 {
        maker.push_cell(Head::Symbol(symbol), arity)?;
    }
    Ok(())
}

// A list of so many constants.
fn list(alloc: Global, len: u32) -> Result<Option<Flat>, NoMemory> {
    let mut maker = FlatMaker::new(alloc);
    for _ in 0..len {
        push(&mut maker, CONS, 2)?;
        push(&mut maker, NIL, 0)?;
    }
    push(&mut maker, NIL, 0)?;
    Ok(if maker.missing() == 0 {
        Some(maker.finish())
    } else {
        None
    })
}

// The node of an argument, if there is one.
fn argument(store: &Store, node: usize, i: usize) -> Option<usize> {
    if node < store.len() && i < usize::from(store.arity(node)) {
        Some(store.arg(node, i))
    } else {
        None
    }
}

// Node 0 is replaced by the second equation.
fn first_step(store: &mut Store, regular: &Regular) -> Made
    requires same { regular.now ≡ addition_rules }
    requires trees { store.old.trees ≡ start_trees }
    requires room { 4 ≤ store.old.spare }
    ensures trees { store.new.trees ≡ one_step }
    ensures spare { store.old.spare ≤ store.new.spare + 4 }
{
    store.replace(regular, 0, 1)
}

// Node 6 is replaced by the second equation.
fn second_step(store: &mut Store, regular: &Regular) -> Made
    requires same { regular.now ≡ addition_rules }
    requires trees { store.old.trees ≡ one_step }
    requires room { 4 ≤ store.old.spare }
    ensures trees { store.new.trees ≡ two_steps }
    ensures spare { store.old.spare ≤ store.new.spare + 4 }
{
    store.replace(regular, 6, 1)
}

// Node 7 is replaced by the first equation.
fn third_step(store: &mut Store, regular: &Regular) -> Made
    requires same { regular.now ≡ addition_rules }
    requires trees { store.old.trees ≡ two_steps }
    requires room { 1 ≤ store.old.spare }
    ensures trees { store.new.trees ≡ three_steps }
{
    store.replace(regular, 7, 0)
}

// Whether a node has these arguments.
fn has_arguments(store: &Store, node: usize, arguments: &[usize]) -> bool {
    for (i, wanted) in arguments.iter().enumerate() {
        if argument(store, node, i) != Some(*wanted) {
            return false;
        }
    }
    true
}

// Whether the nodes have the numbers of the example after each of its steps.
fn is_numbered(store: &mut Store, regular: &Regular) -> bool
    requires same { regular.now ≡ addition_rules }
    requires trees { store.old.trees ≡ start_trees }
    requires room { 9 ≤ store.old.spare }
{
    let first = first_step(store, regular);
    let after_first = has_arguments(store, 0, &[6]) && has_arguments(store, 6, &[2, 4]);
    let second = second_step(store, regular);
    let after_second = has_arguments(store, 6, &[7]) && has_arguments(store, 7, &[3, 4]);
    let third = third_step(store, regular);
    let after_third = has_arguments(store, 6, &[4]) && store.len() == 8;
    first == Made { first: 6, made: 1 }
        && second == Made { first: 7, made: 1 }
        && third == Made { first: 8, made: 0 }
        && after_first
        && after_second
        && after_third
}

#[test]
fn new_nodes_have_the_next_numbers(rt: HostRuntime) -> Result<(), Fail> {
    let rules = addition(rt.alloc())?;
    if !are_well_formed(&rules, &[0, 0, 0, 1, 2]) {
        panic!(rt; "the equations are well formed");
    }
    let Ok(regular) = Regular::admit(rt.alloc(), rules) else {
        panic!(rt; "the equations break nothing");
    };
    let mut store = Store::from_flat(rt.alloc(), &sum(rt.alloc())?)?;
    store.reserve(9)?;
    assert!(rt; is_numbered(&mut store, &regular));
    Ok(())
}

#[test]
fn long_list_has_its_size(rt: HostRuntime) -> Result<(), Fail> {
    let Some(list) = list(rt.alloc(), 300_000)? else {
        panic!(rt; "the cells are a term");
    };
    let store = Store::from_flat(rt.alloc(), &list)?;
    if store.len() > 0 {
        assert_eq!(rt; store.tree_size(rt.alloc(), 0)?, 600_001);
    }
    assert_eq!(rt; store.len(), 600_001);
    Ok(())
}

#[test]
fn numerals_are_put_whole(rt: HostRuntime) -> Result<(), Fail> {
    let mut store = Store::from_flat(rt.alloc(), &sum(rt.alloc())?)?;
    for value in [0, -1, i128::MAX, i128::MIN, 1 << 64, -1 - (1 << 64)] {
        if store.len() == 0 || store.follow(0) != 0 {
            panic!(rt; "node 0 is no indirection");
        }
        assert_eq!(rt;
            store.put(0, Head::Numeral(value)),
            Made { first: 6, made: 0 }
        );
        if store.len() > 0 {
            assert_eq!(rt; store.head(0), Head::Numeral(value));
        }
    }
    Ok(())
}
