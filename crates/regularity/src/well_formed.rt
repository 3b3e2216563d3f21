// Whether equations are well formed, by a table of the numbers of arguments of symbols.
ghost use Rattle.std.specs.Prelude.{◌≡◌, ◌+◌, ◌<◌, ◌≤◌, ◌↔◌, IsTrue, length, All};
ghost use Rattle.eq_base.specs.ClassLists.{members_of};
ghost use Rattle.regularity.specs.Arities.{HasArities};
ghost use Rattle.regularity.specs.WellFormed.{right_size, HasSymbolRoot, IsApplicationOf, AreWellFormed};
ghost use Rattle.regularity.specs.WellFormed.{arity_by, GivesConstantsNone, IsWellFormedBy};
ghost use Rattle.regularity.specs.Looking.{HasArityBy};
ghost use Rattle.regularity.specs.WellFormed.{AreWellFormedBy, most_classes};

use builtin::is_schema_left;
use eq_base::{
    Cell, Classes, Equation, FIRST_CLASS, Head, MOST_EQUATIONS, MOST_LEFT_CELLS, MOST_RIGHT_CELLS,
    Pattern, Right, Rules,
};

/// The most classes that a file lists.
pub const MOST_CLASSES: usize = 250;

/// Whether equations are few and small enough, have a symbol at the root of each left side, give an
/// operation only to its application, and give each head of a left side the number of arguments that a
/// table has for it, by the numbers of symbols. A symbol past the table has none, as the truth values
/// and the members of the classes have to. It takes no memory, and time linear in the left sides and classes.
pub fn are_well_formed(rules: &Rules, arities: &[u8]) -> bool
    ensures exact { IsTrue result ↔ AreWellFormedBy arities.now rules.now }
    ensures well_formed { IsTrue result → AreWellFormed rules.now }
{
    let classes = rules.classes();
    if rules.len() > MOST_EQUATIONS
        || classes.len() > MOST_CLASSES
        || !gives_constants_none(classes, arities)
    {
        return false;
    }
    for number in 0..rules.len() {
        if !is_well_formed(rules.equation(number), arities) {
            return false;
        }
    }
    true
}

// Whether an equation is well formed by a table.
fn is_well_formed(equation: &Equation, arities: &[u8]) -> bool
    ensures { IsTrue result ↔ IsWellFormedBy arities.now equation.now }
{
    has_symbol_root(&equation.left)
        && equation.left.len() <= MOST_LEFT_CELLS
        && right_len(&equation.right) <= MOST_RIGHT_CELLS
        && is_applied(equation)
        && has_arities(&equation.left, arities)
}

// Whether the root of a left side is a symbol.
fn has_symbol_root(left: &Pattern) -> bool
    ensures { IsTrue result ↔ HasSymbolRoot left.now }
{
    matches!(left.cell(0), Cell::Head(Head::Symbol(_), _))
}

// Whether the left side is the application of the operation on the right, if there is one.
fn is_applied(equation: &Equation) -> bool
    ensures { IsTrue result ↔ IsApplicationOf equation.now }
{
    match &equation.right {
        Right::Tree(_) => true,
        Right::Schema(op) => is_schema_left(*op, &equation.left),
    }
}

// How many cells a right side has; an operation has none.
fn right_len(right: &Right) -> usize
    ensures { result ≡ right_size right.now }
{
    match right {
        Right::Tree(right) => right.len(),
        Right::Schema(_) => 0,
    }
}

// Whether each head of a pattern has as many arguments as a table says.
fn has_arities(pattern: &Pattern, arities: &[u8]) -> bool
    ensures { IsTrue result ↔ HasArities (arity_by arities.now) pattern.now }
{
    for at in 0..pattern.len() {
        if !has_arity(pattern.cell(at), arities) {
            return false;
        }
    }
    true
}

// Whether a head in a cell has as many arguments as a table says.
fn has_arity(cell: Cell, arities: &[u8]) -> bool
    ensures { IsTrue result ↔ HasArityBy arities.now cell }
{
    match cell {
        Cell::Head(head, arity) => arity == arity_of(head, arities),
        Cell::Var(_) | Cell::Class(_, _) => true,
    }
}

// The number of arguments that a table gives a head.
fn arity_of(head: Head, arities: &[u8]) -> u8
    ensures { result ≡ arity_by arities.now head }
{
    match head {
        Head::Symbol(symbol) => arities.get(symbol as usize).copied().unwrap_or(0),
        Head::Numeral(_) | Head::Atom(_) | Head::Text(_) => 0,
    }
}

// Whether a table gives the heads of classes no arguments: the truth values, and what the classes list.
fn gives_constants_none(classes: &Classes, arities: &[u8]) -> bool
    requires { length classes.now ≤ most_classes }
    ensures { IsTrue result ↔ GivesConstantsNone arities.now classes.now }
{
    if arity_of(Head::Symbol(0), arities) > 0 || arity_of(Head::Symbol(1), arities) > 0 {
        return false;
    }
    for number in 0..classes.len() {
        if !gives_members_none(classes, FIRST_CLASS + number as u8, arities) {
            return false;
        }
    }
    true
}

// Whether a table gives the members of a class of the file no arguments.
fn gives_members_none(classes: &Classes, class: u8, arities: &[u8]) -> bool
    requires first { 4 ≤ class }
    requires known { class < 4 + length classes.now }
    ensures { IsTrue result ↔ All (λ h. arity_by arities.now h ≡ 0) (members_of classes.now class) }
{
    for number in 0..classes.members(class) {
        if arity_of(classes.member(class, number), arities) > 0 {
            return false;
        }
    }
    true
}
