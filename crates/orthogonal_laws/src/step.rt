// A step at a node.
ghost use Rattle.std.specs.Prelude.{◌≡◌, ◌+◌, ◌<◌, Some, IsSome, IsTrue, IfOk};
ghost use Rattle.eq_base.specs.Tree.{node, empty, head_of, size, nth_subtree};
ghost use Rattle.eq_base.specs.Rewriting.{IsRedexBy};
ghost use Rattle.eq_base.specs.Operations.{application, compares, value_of};
ghost use Rattle.eq_base.specs.declared.head.Head.{Head};
ghost use Rattle.eq_base.specs.declared.meeting.SymbolClass.TheVariants.{TruthValues};
ghost use Rattle.symbol_table.specs.Table.{HasOneNumberEach, Includes, Keeps};
ghost use Rattle.symbol_table.specs.Reading.{read, read_head, read_system, AreLive, IsLiveHead, IsLiveTerm};
ghost use Rattle.sequentiality.specs.Regular.{AreRegular};
ghost use Rattle.orthogonal_laws.specs.Matching.{HasShapeOf};
ghost use Rattle.orthogonal_laws.specs.Operations.{AreTruthsKnown};
ghost use Rattle.orthogonal_laws.specs.Stepping.{IsReadStep, AreJoined, IsJoined};

use crate::replacing::{put, replace};
use crate::values::value_at;
use builtin::Value;
use eq_base::{Flat, Head, NoMemory, Op, Right, Rules};
use std::alloc::Global;
use symbol_table::Symbols;

// The symbols of the truth values.
const TRUE: u32 = 0;

const FALSE: u32 = 1;

/// The term after the root step by an equation at a node. A joined string gets its number in the table.
pub fn step(
    alloc: Global,
    rules: &Rules,
    symbols: &mut Symbols,
    term: &Flat,
    at: usize,
    equation: usize,
) -> Result<Flat, NoMemory>
    requires regular { AreRegular rules.now }
    requires truths { AreTruthsKnown symbols.old rules.now }
    requires live { AreLive symbols.old rules.now }
    requires live_term { IsLiveTerm symbols.old term.now }
    requires at { at < size term.now }
    requires redex { IsRedexBy (read_system symbols.old rules.now) equation
        (nth_subtree (read symbols.old term.now) at) }
    ensures ok { IfOk result (IsReadStep symbols.old symbols.new rules.now term.now at equation) }
    ensures keeps { Keeps symbols.old symbols.new }
{
    symbols.has_one_number_each();
    let rule = rules.equation(equation);
    match &rule.right {
        Right::Tree(right) => replace(alloc, &rule.left, right, term, at),
        Right::Schema(op) => {
            let head = value_head(*op, symbols, term, at)?;
            put(alloc, head, term, at)
        }
    }
}

// The head of an operation's value at a node.
fn value_head(op: Op, symbols: &mut Symbols, term: &Flat, at: usize) -> Result<Head, NoMemory>
    requires truth { IsTrue (compares op) → Includes symbols.old TruthValues }
    requires live { IsLiveTerm symbols.old term.now }
    requires at { at < size term.now }
    requires applied { (f : Head)
        × HasShapeOf (application op f) (nth_subtree term.now at) }
    requires some { IsSome (value_of op (read symbols.old (nth_subtree term.now at))) }
    ensures ok { IfOk result (λ head. IsLiveHead symbols.new head
        × (value_of op (read symbols.old (nth_subtree term.now at))
        ≡ Some (node (read_head symbols.new head) empty))) }
    ensures keeps { Keeps symbols.old symbols.new }
{
    symbols.has_one_number_each();
    match value_at(op, symbols, term, at) {
        Value::Numeral(value) => Ok(Head::Numeral(value)),
        Value::Truth(truth) => Ok(Head::Symbol(if truth { TRUE } else { FALSE })),
        Value::Join => join_at(symbols, term, at),
        Value::NoEquation | Value::Past => unreachable!(),
    }
}

// The head of the joined operands at a node, which are strings.
fn join_at(symbols: &mut Symbols, term: &Flat, at: usize) -> Result<Head, NoMemory>
    requires live { IsLiveTerm symbols.old term.now }
    requires there { at + 2 < size term.now }
    requires joins { AreJoined symbols.old (head_of (nth_subtree term.now (at + 1)))
        (head_of (nth_subtree term.now (at + 2))) }
    ensures ok { IfOk result (IsJoined symbols.old symbols.new (head_of (nth_subtree term.now (at + 1)))
        (head_of (nth_subtree term.now (at + 2)))) }
    ensures keeps { Keeps symbols.old symbols.new }
{
    let len = term.len();
    prove!(at < len);
    let Head::Text(one) = term.head(at + 1) else {
        unreachable!()
    };
    let Head::Text(other) = term.head(at + 2) else {
        unreachable!()
    };
    Ok(Head::Text(symbols.intern_joined(one, other)?))
}
