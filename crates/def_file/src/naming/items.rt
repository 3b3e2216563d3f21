// The items of the section of equations.
ghost use Rattle.std.specs.Prelude.{◌≡◌, ◌≤◌, ◌<◌, ◌^◌, ℕ, List, ◌∷◌, ◌++◌, [], length, map, IfOk, OnOk};
ghost use Rattle.std.specs.List.{flat_map};
ghost use Rattle.eq_base.specs.declared.rules.Op.{Op as Operator};
ghost use Rattle.symbol_table.specs.Table.{Keeps};
ghost use Rattle.def_file.specs.Views.{sides, equation_item};
ghost use Rattle.def_file.specs.Names.{Operation, token_bytes, equation_places, item_places};
ghost use Rattle.def_file.specs.Naming.{ArePlaced, IsTaking, knowing};
ghost use Rattle.def_file.specs.Operations.{operation_name};
ghost use Rattle.def_file.specs.Pairs.{AreRelated};
ghost use Rattle.def_file.specs.Sides.{equation_of, all_limits, AnswersLimits};
ghost use Rattle.def_file.specs.AsRead.{numbered_read, AreLiveItems};
ghost use Rattle.def_file.specs.Definitions.{MeanItems};
ghost use Rattle.def_file.specs.Taking.{Lasts, TakesEquation, TakesItem, class_item, items_behind, equations_behind, fault_behind};
ghost use Rattle.term_lex.specs.declared.syntax.Syntax.{Syntax as SyntaxValue};
ghost use Rattle.def_file.specs.declared.naming.listed.Listed.{Listed as ListedNames};
ghost use Rattle.def_file.specs.Notations.{notation_of};

use super::classes::written;
use super::conditions::{TakenCondition, take_conditions};
use super::limits::equation_fault;
use super::listed::Listed;
use super::operations::take_operation;
use super::terms::take_term;
use crate::definitions::{Item, Numbered, Written};
use crate::error::FileError;
use crate::tree::{EquationItem, Sides};
use eq_base::{NoMemory, Op, Pattern};
use std::alloc::Global;
use symbol_table::Symbols;
use term_lex::{Fault, Syntax, Token};

/// An equation whose names are known.
#[derive(Drop)]
pub struct TakenEquation {
    /// The left side.
    pub left: Pattern,
    /// The right side.
    pub right: Pattern,
    /// What its variables may stand for.
    pub conditions: Vec<TakenCondition>,
}

/// An item whose names are known.
#[derive(Drop)]
pub enum TakenItem {
    /// An equation, and the first limit that it passes.
    Equates(Written, Option<Fault>),
    /// Equation classes, with the first bytes of their names.
    Includes(Vec<(Op, usize)>),
}

/// Takes an equation.
fn take_equation(
    alloc: Global,
    text: &[u8],
    syntax: Syntax,
    equation: &Sides,
    symbols: &mut Symbols,
    listed: &Listed,
) -> Result<TakenEquation, FileError>
    requires placed { ArePlaced text.now (equation_places (sides equation.now)) }
    ensures taking { (operations : List Operator)
        → IsTaking (notation_of syntax) text.now (knowing symbols.old listed.now operations)
        (equation_places (sides equation.now)) (knowing symbols.new listed.now operations) result }
    ensures equation { IfOk result (λ taken. Lasts
        (λ known table. TakesEquation (notation_of syntax) text.now known table
        (sides equation.now) taken) symbols.new listed.now) }
    ensures keeps { Keeps symbols.old symbols.new }
{
    let left = take_term(alloc, text, syntax, equation.left, symbols, listed)?;
    let right = take_term(alloc, text, syntax, equation.right, symbols, listed)?;
    let conditions = take_conditions(alloc, text, syntax, &equation.conditions, symbols, listed)?;
    Ok(TakenEquation {
        left,
        right,
        conditions,
    })
}

/// Includes equation classes.
fn take_operations(
    alloc: Global,
    text: &[u8],
    names: &[Token],
    symbols: &Symbols,
    operations: &mut Vec<Op>,
) -> Result<Vec<(Op, usize)>, FileError>
    requires placed { ArePlaced text.now (map Operation names.now) }
    ensures taking { (syntax : SyntaxValue) (listed : ListedNames)
        → IsTaking (notation_of syntax) text.now (knowing symbols.now listed operations.old.items)
        (map Operation names.now)
        (knowing symbols.now listed operations.new.items) result }
    ensures operations { IfOk result
        (λ taken. AreRelated (λ name o. (token_bytes text.now name ≡ operation_name o.0)
        × (o.1 ≡ name.from)) names.now taken.items) }
{
    let mut taken = Vec::new(alloc);
    for name in names {
        let op = take_operation(text, *name, symbols, operations)?;
        taken.push((op, name.from))?;
    }
    Ok(taken)
}

/// Takes an item of the section of equations, where so many equations stand before it.
fn take_item(
    alloc: Global,
    text: &[u8],
    syntax: Syntax,
    item: &EquationItem,
    before: usize,
    symbols: &mut Symbols,
    listed: &Listed,
    operations: &mut Vec<Op>,
) -> Result<TakenItem, FileError>
    requires placed { ArePlaced text.now (item_places (equation_item item.now)) }
    ensures taking { IsTaking (notation_of syntax) text.now
        (knowing symbols.old listed.now operations.old.items)
        (item_places (equation_item item.now))
        (knowing symbols.new listed.now operations.new.items) result }
    ensures item { IfOk result (λ taken. Lasts
        (λ known table. TakesItem (notation_of syntax) text.now known table before
        (equation_item item.now) taken) symbols.new listed.now) }
    ensures keeps { Keeps symbols.old symbols.new }
{
    match item {
        EquationItem::Equates(equation) => {
            let taken = take_equation(alloc, text, syntax, equation, symbols, listed)?;
            let fault = equation_fault(before, equation, &taken);
            let written = written(alloc, equation.left, taken)?;
            Ok(TakenItem::Equates(written, fault))
        }
        EquationItem::Includes(_, names) => {
            let taken = take_operations(alloc, text, names, symbols, operations)?;
            Ok(TakenItem::Includes(taken))
        }
    }
}

/// The items that were taken.
#[derive(Drop)]
pub struct Taken {
    /// The items, an include giving one for each of its names.
    pub items: Vec<Numbered>,
    /// How many of them are equations.
    pub equations: usize,
    /// The first limit that one of them passes.
    pub fault: Option<Fault>,
}

/// Adds the equation classes, as items with the number.
fn push_classes(
    items: &mut Vec<Numbered>,
    number: u32,
    operations: &[(Op, usize)],
) -> Result<(), NoMemory>
    ensures { OnOk result (items.new.items ≡ items.old.items ++ map (class_item number) operations.now) }
{
    for (op, byte) in operations {
        items.push(Numbered {
            item: Item::Class(*op, *byte),
            number,
        })?;
    }
    Ok(())
}

impl Taken {
    /// Adds an item with the number.
    fn push(&mut self, number: u32, item: TakenItem) -> Result<(), NoMemory>
        requires room { self.old.equations < 2 ^ 32 }
        ensures items { OnOk result (self.new.items.items ≡ items_behind number self.old.items.items item) }
        ensures equations { OnOk result (self.new.equations ≡ equations_behind self.old.equations item) }
        ensures fault { OnOk result (self.new.fault ≡ fault_behind self.old.fault item) }
    {
        match item {
            TakenItem::Equates(equation, fault) => {
                self.items.push(Numbered {
                    item: Item::Equation(equation),
                    number,
                })?;
                self.equations += 1;
                if self.fault.is_none() {
                    self.fault = fault;
                }
            }
            TakenItem::Includes(operations) => push_classes(&mut self.items, number, &operations)?,
        }
        Ok(())
    }
}

/// Takes the items of the section of equations.
pub fn take_items(
    alloc: Global,
    text: &[u8],
    syntax: Syntax,
    items: &[EquationItem],
    symbols: &mut Symbols,
    listed: &Listed,
    operations: &mut Vec<Op>,
) -> Result<Taken, FileError>
    requires placed { ArePlaced text.now (flat_map item_places (map equation_item items.now)) }
    requires room { length items.now ≤ 2 ^ 24 }
    ensures taking { IsTaking (notation_of syntax) text.now
        (knowing symbols.old listed.now operations.old.items)
        (flat_map item_places (map equation_item items.now))
        (knowing symbols.new listed.now operations.new.items) result }
    ensures items { IfOk result (λ taken. Lasts
        (λ known table. MeanItems (notation_of syntax) text.now known 1 (map equation_item items.now)
        (map (numbered_read table) taken.items.items)) symbols.new listed.now) }
    ensures live { IfOk result (λ taken. Lasts
        (λ known table. AreLiveItems table taken.items.items) symbols.new listed.now) }
    ensures limits { IfOk result (λ taken. Lasts
        (λ known table. AnswersLimits (notation_of syntax) text.now known
        (all_limits 0 (flat_map equation_of
        (map equation_item items.now))) taken.fault) symbols.new listed.now) }
    ensures keeps { Keeps symbols.old symbols.new }
{
    let mut taken = Taken {
        items: Vec::new(alloc),
        equations: 0,
        fault: None,
    };
    for (i, item) in items.iter().enumerate() {
        let before = taken.equations;
        let next = take_item(
            alloc, text, syntax, item, before, symbols, listed, operations,
        )?;
        taken.push(i as u32 + 1, next)?;
    }
    Ok(taken)
}
