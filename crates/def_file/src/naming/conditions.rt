// What the variables of an equation may stand for.
ghost use Rattle.std.specs.Prelude.{◌≡◌, List, ◌∷◌, ◌++◌, [], map, IfOk, OnOk, Some, slice_get};
ghost use Rattle.eq_base.specs.declared.rules.Op.{Op as Operator};
ghost use Rattle.symbol_table.specs.Table.{Table, Keeps};
ghost use Rattle.term_lex.specs.Values.{IsTokenOf};
ghost use Rattle.term_lex.specs.declared.token.Token.{Token as TokenValue};
ghost use Rattle.def_file.specs.Views.{condition, restriction};
ghost use Rattle.def_file.specs.Names.{Qualified, ClassOf, token_bytes, restriction_places, condition_places};
ghost use Rattle.def_file.specs.Naming.{ArePlaced, IsPlaced, IsTaking, knowing};
ghost use Rattle.def_file.specs.Definitions.{NamesClass};
ghost use Rattle.def_file.specs.Pairs.{AreRelated};
ghost use Rattle.def_file.specs.Taking.{Lasts, TakesChoice, TakesCondition};
ghost use Rattle.term_lex.specs.declared.syntax.Syntax.{Syntax as SyntaxValue};
ghost use Rattle.def_file.specs.Notations.{notation_of};

use super::faults::{bytes_of, refused};
use super::listed::Listed;
use super::operations::includes;
use super::terms::take_terms;
use crate::error::FileError;
use crate::tree::{Condition, Restriction};
use eq_base::Pattern;
use std::alloc::Global;
use symbol_table::{Interned, Symbols, class_named};
use term_lex::{FaultKind, Syntax, Token};

/// What a qualified variable may stand for.
#[derive(Drop)]
pub enum Choice {
    /// The constants of the class with the number.
    InClass(u8),
    /// The instances of patterns.
    OneOf(Vec<Pattern>),
}

/// A qualified variable.
#[derive(Drop)]
pub struct TakenCondition {
    /// The number of the variable.
    pub variable: u32,
    /// What it may stand for.
    pub choice: Choice,
    /// The first byte of its name before `is`.
    pub byte: usize,
}

/// The number of the variable before `is`, behind the names that are qualified so far. It is qualified then.
fn take_qualified(
    text: &[u8],
    name: Token,
    listed: &Listed,
    qualified: &mut Interned,
) -> Result<u32, FileError>
    requires name { IsTokenOf text.now name }
    ensures taking { (syntax : SyntaxValue) (table : Table) (operations : List Operator)
        (before : List TokenValue) → qualified.old ≡ map (token_bytes text.now) before
        → IsTaking (notation_of syntax) text.now (knowing table listed.now operations)
        (Qualified before name ∷ []) (knowing table listed.now operations) result }
    ensures variable { IfOk result
        (λ x. slice_get listed.now.variables x ≡ Some (token_bytes text.now name)) }
    ensures qualified { OnOk result (qualified.new ≡ qualified.old ++ token_bytes text.now name ∷ []) }
{
    let bytes = bytes_of(text, name);
    let Some(variable) = listed.variables.find(bytes) else {
        return Err(refused(FaultKind::QualifiedUnknown, name));
    };
    if qualified.find(bytes).is_some() {
        return Err(refused(FaultKind::QualifiedTwice, name));
    }
    qualified.intern(bytes)?;
    Ok(variable)
}

/// The number of the class behind `is in`: of a symbol class that is included, or of a class of the file.
fn take_class_of(
    text: &[u8],
    name: Token,
    symbols: &Symbols,
    listed: &Listed,
) -> Result<u8, FileError>
    requires placed { IsPlaced text.now (ClassOf name) }
    ensures taking { (syntax : SyntaxValue) (operations : List Operator)
        → IsTaking (notation_of syntax) text.now (knowing symbols.now listed.now operations)
        (ClassOf name ∷ [])
        (knowing symbols.now listed.now operations) result }
    ensures class { IfOk result (NamesClass listed.now.class_names (token_bytes text.now name)) }
{
    let bytes = bytes_of(text, name);
    let Some(class) = class_named(bytes) else {
        return match listed.class_names.number(bytes) {
            Some(class) => Ok(class),
            None => Err(refused(FaultKind::UnknownClass, name)),
        };
    };
    if !includes(symbols, class) {
        return Err(refused(FaultKind::NotIncluded, name));
    }
    Ok(class.number())
}

/// What stands behind `is`.
fn take_restriction(
    alloc: Global,
    text: &[u8],
    syntax: Syntax,
    written: &Restriction,
    symbols: &mut Symbols,
    listed: &Listed,
) -> Result<Choice, FileError>
    requires placed { ArePlaced text.now (restriction_places (restriction written.now)) }
    ensures taking { (operations : List Operator)
        → IsTaking (notation_of syntax) text.now (knowing symbols.old listed.now operations)
        (restriction_places (restriction written.now)) (knowing symbols.new listed.now operations) result }
    ensures choice { IfOk result (λ choice. Lasts
        (λ known table. TakesChoice (notation_of syntax) text.now known table
        (restriction written.now) choice) symbols.new listed.now) }
    ensures keeps { Keeps symbols.old symbols.new }
{
    match written {
        Restriction::InClass(name) => {
            let class = take_class_of(text, *name, symbols, listed)?;
            Ok(Choice::InClass(class))
        }
        Restriction::OneOf(terms) => {
            let patterns = take_terms(alloc, text, syntax, terms, symbols, listed)?;
            Ok(Choice::OneOf(patterns))
        }
    }
}

/// A condition, behind the names that are qualified so far.
fn take_condition(
    alloc: Global,
    text: &[u8],
    syntax: Syntax,
    condition: &Condition,
    symbols: &mut Symbols,
    listed: &Listed,
    qualified: &mut Interned,
) -> Result<TakenCondition, FileError>
    requires name { IsTokenOf text.now condition.now.variable }
    requires placed { ArePlaced text.now (restriction_places (restriction condition.now.restriction)) }
    ensures taking { (operations : List Operator)
        (before : List TokenValue) → qualified.old ≡ map (token_bytes text.now) before
        → IsTaking (notation_of syntax) text.now (knowing symbols.old listed.now operations)
        (Qualified before condition.now.variable
        ∷ restriction_places (restriction condition.now.restriction))
        (knowing symbols.new listed.now operations) result }
    ensures condition { IfOk result
        (λ taken. Lasts (λ known table. TakesCondition (notation_of syntax) text.now known table
        condition.now.variable (restriction condition.now.restriction) taken) symbols.new listed.now) }
    ensures keeps { Keeps symbols.old symbols.new }
    ensures qualified { OnOk result (qualified.new
        ≡ qualified.old ++ token_bytes text.now condition.now.variable ∷ []) }
{
    let variable = take_qualified(text, condition.variable, listed, qualified)?;
    let choice = take_restriction(alloc, text, syntax, &condition.restriction, symbols, listed)?;
    Ok(TakenCondition {
        variable,
        choice,
        byte: condition.variable.from,
    })
}

/// The conditions of an equation. A name before `is` is looked up in constant time on average.
pub fn take_conditions(
    alloc: Global,
    text: &[u8],
    syntax: Syntax,
    conditions: &[Condition],
    symbols: &mut Symbols,
    listed: &Listed,
) -> Result<Vec<TakenCondition>, FileError>
    requires placed { ArePlaced text.now (condition_places [] (map condition conditions.now)) }
    ensures taking { (operations : List Operator)
        → IsTaking (notation_of syntax) text.now (knowing symbols.old listed.now operations)
        (condition_places [] (map condition conditions.now))
        (knowing symbols.new listed.now operations) result }
    ensures conditions { IfOk result
        (λ taken. Lasts (λ known table. AreRelated
        (λ c t. TakesCondition (notation_of syntax) text.now known table c.variable c.restriction t)
        (map condition conditions.now) taken.items) symbols.new listed.now) }
    ensures keeps { Keeps symbols.old symbols.new }
{
    let mut taken = Vec::new(alloc);
    let mut qualified = Interned::new(alloc);
    for next in conditions {
        let condition = take_condition(alloc, text, syntax, next, symbols, listed, &mut qualified)?;
        taken.push(condition)?;
    }
    Ok(taken)
}
