// Files of definitions for the worked rows.
pub const PEANO: &str = "Symbols z: 0; s: 1; plus: 2.
For all x, y:
  plus(z, x) = x;
  plus(s(x), y) = s(plus(x, y)).
";

pub const LAZY: &str = "Symbols a: 0; cons: 2; car: 1; loop: 0.
For all x, y:
  car(cons(x, y)) = x;
  loop = loop.
";

pub const DEMANDED_ARGUMENT: &str = "Symbols a: 0; b: 0; c: 0; f: 2; loop: 0.
For all x:
  f(x, a) = c;
  b = a;
  loop = loop.
";

pub const SHARING: &str = "Symbols d: 1; p: 2; w: 0; z: 0.
For all x:
  d(x) = p(x, x);
  w = z.
";

pub const COMBINATORS: &str = "Symbols AP: 2; S: 0; K: 0; q: 0.
For all x, y, z:
  AP(AP(AP(S, x), y), z) = AP(AP(x, z), AP(y, z));
  AP(AP(K, x), y) = x.
";

pub const INNER_OVERLAP: &str = "Symbols a: 0; b: 0; c: 0; f: 2; g: 2.
For all x, y:
  f(g(x, a), y) = x;
  g(b, c) = b.
";

pub const PARALLEL_OR: &str = "Symbols or: 2; include truth_values.
For all x:
  or(true, x) = true;
  or(x, true) = true.
";

pub const BROKEN: &str = "Symbols if: 3; g: 2; first: 1; pred: 1; succ: 1; h: 1; k: 1; c: 0;
  include integer_numerals.
For all x, y:
  if(x, y, y) = y;
  g(0, x) = 0;
  g(x, 1) = 1;
  first(pred(x)) = c;
  pred(succ(x)) = x;
  h(x) = k(y).
";

pub const FREE_VARIABLES: &str = "Symbols c: 0; p: 52.
For all x:
  c = p(
    x, x, x, x, x, x, x, x, x, x, x, x, x,
    x, x, x, x, x, x, x, x, x, x, x, x, x,
    x, x, x, x, x, x, x, x, x, x, x, x, x,
    x, x, x, x, x, x, x, x, x, x, x, x, x).
";

pub const EITHER: &str = "Symbols a: 0; b: 0; s: 1; f: 1; g: 1.
For all x, y:
  f(x) = g(x) where x is either a or s(y) end or end where.
";

pub const APPEND: &str = "Symbols cons: 2; nil: 0; append: 2; include integer_numerals.
For all x, y, z:
  append[(); y] = y;
  append[(x . y); z] = (x . append[y; z]).
";

pub const ARITHMETIC: &str = "Symbols add: 2; divide: 2; modulo: 2; fst: 2;
  include integer_numerals.
For all x, y:
  fst(x, y) = x;
  include addint, divint, modint.
";

pub const TEXT: &str = "Symbols concat: 2; length: 1; equ: 2;
  include strings, integer_numerals, truth_values, atomic_symbols.
For all:
  include concatstr, lengthstr, equint, equatom, equstr.
";

pub const FACTORIAL: &str = "Symbols fact: 1; if: 3; equ: 2; multiply: 2; subtract: 2;
  include integer_numerals, truth_values.
For all x, y:
  if(true, x, y) = x;
  if(false, x, y) = y;
  fact(x) = if(equ(x, 0), 1, multiply(x, fact(subtract(x, 1))));
  include equint, multint, subint.
";

pub const CLASSES: &str = "Symbols h: 1; include integer_numerals.
For all n:
  h(n) = 1 where n is in integer_numerals end where;
  h(n) = 1 where n is in integer_numerals end where;
  h(0) = 1.
";

pub const SHARED_CLASSES: &str = "Symbols f: 1; a: 0; b: 0; c: 0.
Classes low: a, b; high: b, c.
For all x:
  f(x) = a where x is in low end where;
  f(x) = c where x is in high end where.
";

pub const APART_CLASSES: &str = "Symbols f: 1; a: 0; b: 0; c: 0.
Classes low: a, b; high: c.
For all x:
  f(x) = a where x is in low end where;
  f(x) = c where x is in high end where.
";

pub const SAME_RIGHT_SIDES: &str = "Symbols f: 1; a: 0; b: 0; c: 0.
Classes low: a, b; high: b, c.
For all x:
  f(x) = x where x is in low end where;
  f(x) = x where x is in high end where.
";

pub const MANY_CHOICES: &str = "Symbols a: 0; b: 0; f: 13.
For all c, d, e, g, h, i, j, k, l, m, n, o, p:
  f(c, d, e, g, h, i, j, k, l, m, n, o, p) = a where
    c is either a or b end or,
    d is either a or b end or,
    e is either a or b end or,
    g is either a or b end or,
    h is either a or b end or,
    i is either a or b end or,
    j is either a or b end or,
    k is either a or b end or,
    l is either a or b end or,
    m is either a or b end or,
    n is either a or b end or,
    o is either a or b end or,
    p is either a or b end or
  end where.
";

pub const TWICE: &str = "Symbols a: 0; a: 1. For all: a = a.";
