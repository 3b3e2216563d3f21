// Whether an equation that is met at a node gives something there, and what an operation gives.
ghost use Rattle.std.specs.Prelude.{◌≡◌, ◌<◌, ◌↔◌, IsTrue};
ghost use Rattle.eq_base.specs.Tree.{head_of, size, nth_subtree};
ghost use Rattle.eq_base.specs.Operations.{application, application_value};
ghost use Rattle.eq_base.specs.declared.head.Head.{Head};
ghost use Rattle.builtin.specs.Values.{IsRead, IsValue};
ghost use Rattle.symbol_table.specs.Table.{HasOneNumberEach};
ghost use Rattle.symbol_table.specs.Reading.{read_head, read, IsLiveTerm};
ghost use Rattle.regularity.specs.WellFormed.{IsApplicationOf};
ghost use Rattle.orthogonal_laws.specs.Matching.{HasShapeOf};
ghost use Rattle.orthogonal_laws.specs.Results.{HasResult, HasNumberOf};

use builtin::{Operand, Value, evaluate};
use eq_base::{Equation, Flat, Head, Op, Right};
use symbol_table::Symbols;

/// Whether an equation whose left side is met at a node gives something there: a pattern always does, and
/// an operation where it has a value within the limits.
pub fn has_result(equation: &Equation, symbols: &Symbols, term: &Flat, at: usize) -> bool
    requires distinct { HasOneNumberEach symbols.now }
    requires live { IsLiveTerm symbols.now term.now }
    requires at { at < size term.now }
    requires met { HasShapeOf equation.now.left (nth_subtree term.now at) }
    requires applied { IsApplicationOf equation.now }
    ensures { IsTrue result ↔ HasResult symbols.now equation.now.right (nth_subtree term.now at) }
{
    match &equation.right {
        Right::Tree(_) => true,
        Right::Schema(op) => !matches!(
            value_at(*op, symbols, term, at),
            Value::NoEquation | Value::Past
        ),
    }
}

/// The value of an operation at a node that is its application.
pub fn value_at(op: Op, symbols: &Symbols, term: &Flat, at: usize) -> Value
    requires distinct { HasOneNumberEach symbols.now }
    requires live { IsLiveTerm symbols.now term.now }
    requires at { at < size term.now }
    requires applied { (f : Head)
        × HasShapeOf (application op f) (nth_subtree term.now at) }
    ensures { IsValue (application_value op (read symbols.now (nth_subtree term.now at))) result }
{
    let len = term.len();
    prove!(at < len);
    let one = operand_at(symbols, term, at + 1);
    let other = match op {
        Op::LengthStr => Operand::Other,
        _ => operand_at(symbols, term, at + 2),
    };
    evaluate(op, one, other)
}

// The operand at a node.
fn operand_at<'a>(symbols: &'a Symbols, term: &Flat, at: usize) -> Operand<'a>
    requires live { IsLiveTerm symbols.now term.now }
    requires at { at < size term.now }
    ensures read { IsRead result (read_head symbols.now (head_of (nth_subtree term.now at))) }
    ensures number { HasNumberOf result (head_of (nth_subtree term.now at)) }
{
    match term.head(at) {
        Head::Symbol(_) => Operand::Other,
        Head::Numeral(value) => Operand::Numeral(value),
        Head::Atom(number) => Operand::Atom(number),
        Head::Text(number) => Operand::Text(number, symbols.text(number)),
    }
}
