// The values of the operations, exactly.
ghost use Rattle.std.specs.Prelude.{◌≡◌, ◌≢◌, ◌↔◌, ℕ, ℤ, List, FitsSigned, SomeIff, Some};
ghost use Rattle.std.specs.Int.{w128};
ghost use Rattle.eq_base.specs.ReadHead.{ReadHead, numeral, atom, text};
ghost use Rattle.eq_base.specs.Operations.{of_numerals, of_atoms, of_two};
ghost use Rattle.eq_base.specs.declared.rules.Op.TheVariants.{DivInt, ModInt, LengthStr};
ghost use Rattle.builtin.specs.Values.{IsRead, AreToldApart, value_by, IsValue};

use eq_base::{MOST_TEXT_BYTES, Op};

/// An operand, as far as operations look at it.
#[derive(Clone, Copy)]
pub enum Operand<'a> {
    /// A numeral.
    Numeral(i128),
    /// An atom, by its number.
    Atom(usize),
    /// A string, by its number and its bytes.
    Text(usize, &'a [u8]),
    /// A symbol, which no operation takes.
    Other,
}

/// The value of an operation.
#[derive(Clone, Copy, PartialEq, Eq, Debug)]
pub enum Value {
    /// A numeral.
    Numeral(i128),
    /// A truth value.
    Truth(bool),
    /// The two strings, one after the other.
    Join,
    /// There is no value: an operand is of another kind, or the divisor is 0.
    NoEquation,
    /// The value is past the limits.
    Past,
}

/// The value of an operation on two operands; `LengthStr` does not look at the other one. Atoms and
/// strings are compared by their numbers. It takes no memory.
pub fn evaluate(op: Op, one: Operand<'_>, other: Operand<'_>) -> Value
    ensures { (a b : ReadHead) → IsRead one.entry a → IsRead other.entry b
        → AreToldApart one.entry other.entry a b → IsValue (value_by op a b) result }
{
    match one {
        Operand::Numeral(a) => match other {
            Operand::Numeral(b) => value_of_numerals(op, a, b),
            _ => Value::NoEquation,
        },
        Operand::Atom(a) => match other {
            Operand::Atom(b) => value_of_atoms(op, a, b),
            _ => Value::NoEquation,
        },
        Operand::Text(number, bytes) => match op {
            Op::LengthStr => Value::Numeral(bytes.len() as i128),
            _ => value_of_texts(op, number, bytes, other),
        },
        Operand::Other => Value::NoEquation,
    }
}

// The value of two numerals.
fn value_of_numerals(op: Op, a: i128, b: i128) -> Value
    ensures { IsValue (of_numerals op a b) result }
{
    match op {
        Op::AddInt => within_limits(a.checked_add(b)),
        Op::SubInt => within_limits(a.checked_sub(b)),
        Op::MultInt => within_limits(a.checked_mul(b)),
        Op::DivInt => quotient(a, b),
        Op::ModInt => remainder(a, b),
        Op::EquInt => Value::Truth(a == b),
        Op::LessInt => Value::Truth(a < b),
        Op::EquAtom | Op::EquStr | Op::ConcatStr | Op::LengthStr => Value::NoEquation,
    }
}

// The number, where it is within the limits.
fn within_limits(found: Option<i128>) -> Value
    ensures { (i : ℤ) → SomeIff found (FitsSigned w128 i) i → IsValue (Some (numeral i)) result }
{
    match found {
        Some(value) => Value::Numeral(value),
        None => Value::Past,
    }
}

// The Euclidean quotient. It is past the limits where the least numeral is divided by -1.
fn quotient(a: i128, b: i128) -> Value
    ensures { IsValue (of_numerals DivInt a b) result }
{
    if b == 0 {
        return Value::NoEquation;
    }
    match a.checked_div_euclid(b) {
        Some(value) => Value::Numeral(value),
        None => Value::Past,
    }
}

// The Euclidean remainder. It is 0 also where the quotient is past the limits.
fn remainder(a: i128, b: i128) -> Value
    ensures { IsValue (of_numerals ModInt a b) result }
{
    if b == 0 {
        return Value::NoEquation;
    }
    match a.checked_rem_euclid(b) {
        Some(value) => Value::Numeral(value),
        None => Value::Numeral(0),
    }
}

// The value of two atoms, by their numbers.
fn value_of_atoms(op: Op, a: usize, b: usize) -> Value
    ensures { (x y : List ℕ) → (a ≡ b) ↔ (atom x ≡ atom y) → IsValue (of_atoms op x y) result }
{
    match op {
        Op::EquAtom => Value::Truth(a == b),
        _ => Value::NoEquation,
    }
}

// The value of a string and another operand, where it is not the length of the string.
fn value_of_texts(op: Op, number: usize, bytes: &[u8], other: Operand<'_>) -> Value
    requires { op ≢ LengthStr }
    ensures { (b : ReadHead) → IsRead other.entry b
        → AreToldApart (Operand.Text number bytes.entry) other.entry (text bytes.now) b
        → IsValue (of_two op (text bytes.now) b) result }
{
    let Operand::Text(another, more) = other else {
        return Value::NoEquation;
    };
    match op {
        Op::EquStr => Value::Truth(number == another),
        Op::ConcatStr if bytes.len() + more.len() <= MOST_TEXT_BYTES => Value::Join,
        Op::ConcatStr => Value::Past,
        _ => Value::NoEquation,
    }
}
