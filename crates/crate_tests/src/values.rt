// Decimal numerals, and the table of values at the edges of 128 bits.
use builtin::{Operand, Value, evaluate};
use eq_base::{Op, push_numeral};
use std::test::Fail;

const MIN: i128 = i128::MIN;

const MAX: i128 = i128::MAX;

#[test]
fn numerals_are_written_in_decimal(rt: HostRuntime) -> Result<(), Fail> {
    for (value, want) in [
        (0, "0"),
        (-10, "-10"),
        (MAX, "170141183460469231731687303715884105727"),
        (MIN, "-170141183460469231731687303715884105728"),
    ] {
        let mut text = Vec::new(rt.alloc());
        push_numeral(&mut text, value)?;
        assert_eq!(rt; text.as_slice(), want.as_bytes());
    }
    Ok(())
}

#[test]
fn numerals_have_the_values_of_the_table(rt: HostRuntime) {
    for (op, a, b, want) in [
        (Op::AddInt, MAX, MIN, Value::Numeral(-1)),
        (Op::AddInt, MAX, 1, Value::Past),
        (Op::SubInt, 2, 3, Value::Numeral(-1)),
        (Op::SubInt, 0, MIN, Value::Past),
        (Op::MultInt, -4, 3, Value::Numeral(-12)),
        (Op::MultInt, MIN, -1, Value::Past),
        (Op::DivInt, 7, 2, Value::Numeral(3)),
        (Op::DivInt, -7, 2, Value::Numeral(-4)),
        (Op::DivInt, 7, -2, Value::Numeral(-3)),
        (Op::DivInt, -7, -2, Value::Numeral(4)),
        (Op::DivInt, 5, 0, Value::NoEquation),
        (Op::DivInt, MIN, -1, Value::Past),
        (Op::ModInt, 7, 2, Value::Numeral(1)),
        (Op::ModInt, -7, 2, Value::Numeral(1)),
        (Op::ModInt, 7, -2, Value::Numeral(1)),
        (Op::ModInt, -7, -2, Value::Numeral(1)),
        (Op::ModInt, 5, 0, Value::NoEquation),
        (Op::ModInt, MIN, -1, Value::Numeral(0)),
        (Op::EquInt, 4, 5, Value::Truth(false)),
        (Op::LessInt, MIN, MAX, Value::Truth(true)),
        (Op::LessInt, 4, 4, Value::Truth(false)),
        (Op::EquAtom, 4, 4, Value::NoEquation),
    ] {
        assert_eq!(rt;
            evaluate(op, Operand::Numeral(a), Operand::Numeral(b)),
            want
        );
    }
}

#[test]
fn atoms_and_strings_have_the_values_of_the_table(rt: HostRuntime) -> Result<(), Fail> {
    let half: Vec<u8> = vec![in rt.alloc(); 0u8; 32_768]?;
    let long = Operand::Text(0, half.as_slice());
    let short = Operand::Text(1, b"ab");
    for (op, one, other, want) in [
        (
            Op::EquAtom,
            Operand::Atom(3),
            Operand::Atom(3),
            Value::Truth(true),
        ),
        (
            Op::EquAtom,
            Operand::Atom(3),
            Operand::Atom(4),
            Value::Truth(false),
        ),
        (
            Op::EquAtom,
            Operand::Atom(3),
            Operand::Numeral(3),
            Value::NoEquation,
        ),
        (Op::EquStr, short, short, Value::Truth(true)),
        (Op::EquStr, short, long, Value::Truth(false)),
        (Op::ConcatStr, short, long, Value::Join),
        (Op::ConcatStr, long, long, Value::Past),
        (Op::ConcatStr, short, Operand::Atom(0), Value::NoEquation),
        (Op::LengthStr, short, Operand::Other, Value::Numeral(2)),
    ] {
        assert_eq!(rt; evaluate(op, one, other), want);
    }
    Ok(())
}
