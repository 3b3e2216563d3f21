// The equations that qualified equations and included operations give.
use def_file::{FileError, read_definitions};
use eq_base::{Right, Rules};
use qualifiers::expand;
use std::alloc::Global;
use std::test::Fail;
use term_lex::{Fault, FaultKind, Syntax};

const EITHER: &str = "Symbols a: 0; b: 0; s: 1; f: 1; g: 1.
For all x, y:
  f(x) = g(x) where x is either a or s(y) end or end where.
";

const ARITHMETIC: &str = "Symbols add: 2; divide: 2; modulo: 2; fst: 2; include integer_numerals.
For all x, y:
  fst(x, y) = x;
  include addint, divint, modint.
";

const NESTED: &str = "Symbols a: 0; b: 0; s: 1; f: 2.
For all x, y, z:
  f(x, z) = s(x) where x is either s(y) or s(s(y)) end or, y is either a or b end or end where.
";

const CHAIN: &str = "Symbols a: 0; s: 1; f: 1.
For all x, y, z:
  f(x) = s(x) where z is either a or s(a) end or, y is either z end or, x is either y end or end where.
";

const CIRCLE: &str = "Symbols f: 1; a: 0. For all x, y, z: f(x) = a where
  x is either y end or, y is either z end or, z is either y end or end where.
";

const MANY: &str =
    "Symbols a: 0; b: 0; f: 6. For all c, d, e, g, h, i: f(c, d, e, g, h, i) = a where
  c is either a or b or f(a, a, a, a, a, a) or f(b, b, b, b, b, b) end or,
  d is either c or a or b or f(c, c, c, c, c, c) end or,
  e is either d or a or b or f(d, d, d, d, d, d) end or,
  g is either a or b or c or d end or,
  h is either a or b or c or d end or,
  i is either a or b or c or d end or
  end where.
";

const DOUBLING: &str = "Symbols a: 0; p: 2; f: 1. For all c, d, e, g, h, i, j, k, l: f(c) = a where
  c is either p(d, d) end or, d is either p(e, e) end or, e is either p(g, g) end or,
  g is either p(h, h) end or, h is either p(i, i) end or, i is either p(j, j) end or,
  j is either p(k, k) end or, k is either a end or, l is either a end or
  end where.
";

/// The expansion of a file, or its fault.
fn expansion(alloc: Global, text: &[u8]) -> Result<Rules, FileError> {
    let definitions = read_definitions(alloc, text, Syntax::Standmath)?;
    expand(alloc, &definitions)
}

/// How many equations a file gives, and the item, the part and the cells of both sides of the equation with a
/// number, an operation having none on the right.
fn told(
    alloc: Global,
    text: &str,
    number: usize,
) -> Result<(usize, u32, u32, usize, usize), FileError> {
    let rules = expansion(alloc, text.as_bytes())?;
    if number >= rules.len() {
        return Ok((rules.len(), 0, 0, 0, 0));
    }
    let equation = rules.equation(number);
    let right = match &equation.right {
        Right::Tree(pattern) => pattern.len(),
        Right::Schema(_) => 0,
    };
    Ok((
        rules.len(),
        equation.origin.item,
        equation.origin.part,
        equation.left.len(),
        right,
    ))
}

#[test]
fn equations(rt: HostRuntime) {
    for (text, number, wanted) in [
        (EITHER, 0, (2, 1, 1, 2, 2)),
        (EITHER, 1, (2, 1, 2, 3, 3)),
        (ARITHMETIC, 0, (4, 1, 0, 3, 1)),
        (ARITHMETIC, 3, (4, 2, 3, 3, 0)),
        (NESTED, 2, (4, 1, 3, 5, 4)),
        (CHAIN, 1, (2, 1, 2, 3, 3)),
    ] {
        assert_eq!(rt; told(rt.alloc(), text, number), Ok(wanted), "{text}");
    }
}

#[test]
fn faults(rt: HostRuntime) -> Result<(), Fail> {
    for (text, kind, byte) in [
        (CIRCLE, FaultKind::QualifierCircle, 76),
        (MANY, FaultKind::ExpansionPast, 52),
        (DOUBLING, FaultKind::ExpansionPast, 61),
    ] {
        let fault = Fault { kind, byte };
        assert_eq!(rt;
            told(rt.alloc(), text, 0),
            Err(FileError::Refused(fault)),
            "{text}"
        );
    }
    Ok(())
}
