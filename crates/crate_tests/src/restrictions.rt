// Comparisons of left sides, and the breaks of restrictions.
ghost use Rattle.eq_base.specs.Cells.{CellTakesArguments};
ghost use Rattle.regularity.specs.WellFormed.{AreWellFormed};

use eq_base::{
    Cell, Classes, Equation, FIRST_CLASS, Head, NoMemory, Origin, Pattern, PatternMaker, Right,
    Rules, push_numeral,
};
use regularity::{Break, are_well_formed};
use sequentiality::{AdmitError, Comparison, Regular, compare};
use std::alloc::Global;
use std::test::Fail;

/// The class of numerals.
const NUMERALS: u8 = 0;

/// The cell of a letter: x, y and z are variables, n is one of the class of numerals, u and v are ones of the
/// classes of the file, t is the truth value that has the number 0, and every other letter is a symbol.
fn cell_of(letter: u8) -> Cell
    ensures { CellTakesArguments result }
{
    match letter {
        b'x' | b'y' | b'z' => Cell::Var(u32::from(letter)),
        b'n' => Cell::Class(u32::from(letter), NUMERALS),
        b'u' | b'v' => Cell::Class(u32::from(letter), FIRST_CLASS + (letter - b'u')),
        b't' => Cell::Head(Head::Symbol(0), 0),
        b'0' | b'1' | b'2' => Cell::Head(Head::Numeral(i128::from(letter)), 0),
        _ => Cell::Head(Head::Symbol(u32::from(letter)), arity_of(letter)),
    }
}

/// How many arguments a symbol has.
fn arity_of(letter: u8) -> u8 {
    match letter {
        b'h' | b'k' | b'F' | b'p' | b's' => 1,
        b'f' | b'g' | b'o' | b'A' | b'P' => 2,
        b'i' => 3,
        _ => 0,
    }
}

/// The numbers of arguments of all symbols.
fn arities(alloc: Global) -> Result<Vec<u8>, NoMemory> {
    let mut arities = Vec::new(alloc);
    for letter in 0..128 {
        arities.push(arity_of(letter))?;
    }
    Ok(arities)
}

/// The pattern with these letters in preorder, if there is one.
fn pattern(alloc: Global, letters: &str) -> Result<Option<Pattern>, NoMemory> {
    let mut maker = PatternMaker::new(alloc);
    for letter in letters.as_bytes() {
        if maker.missing() == 0 {
            return Ok(None);
        }
        maker.push_cell(cell_of(*letter))?;
    }
    Ok(if maker.missing() == 0 {
        Some(maker.finish())
    } else {
        None
    })
}

/// The classes of the file: 0 and 1, and 1 and 2.
fn classes(alloc: Global) -> Result<Classes, NoMemory> {
    let mut classes = Classes::new(alloc);
    let first = classes.begin()?;
    let second = classes.begin()?;
    classes.add(first, Head::Numeral(i128::from(b'0')))?;
    classes.add(first, Head::Numeral(i128::from(b'1')))?;
    classes.add(second, Head::Numeral(i128::from(b'1')))?;
    classes.add(second, Head::Numeral(i128::from(b'2')))?;
    Ok(classes)
}

/// The equations that a text has, with `=` between the sides and a blank between two equations, if they are some.
fn rules_of(alloc: Global, text: &str) -> Result<Option<Rules>, NoMemory> {
    let mut rules = Rules::new(alloc, classes(alloc)?);
    for equation in text.split(' ') {
        let Some((left, right)) = equation.split_once('=') else {
            return Ok(None);
        };
        let Some(left) = pattern(alloc, left)? else {
            return Ok(None);
        };
        let Some(right) = pattern(alloc, right)? else {
            return Ok(None);
        };
        rules.push(Equation {
            left,
            right: Right::Tree(right),
            origin: Origin { item: 1, part: 0 },
        })?;
    }
    Ok(Some(rules))
}

/// What the comparison of the first left side's part at a position and the second left side comes to.
fn compared(rules: &Rules, place: usize) -> Option<Comparison>
    requires { AreWellFormed rules.now }
{
    if rules.len() < 2 {
        return None;
    }
    let one = rules.equation(0);
    let other = rules.equation(1);
    if place < one.left.len() {
        Some(compare(rules.classes(), &one.left, place, &other.left))
    } else {
        None
    }
}

#[test]
fn comparisons_stop_at_the_first_difference(rt: HostRuntime) -> Result<(), Fail> {
    let alloc = rt.alloc();
    let arities = arities(alloc)?;
    for (text, place, wanted) in [
        ("fgxay=c gbc=c", 1, Comparison::Mismatch(1)),
        ("otx=c oxt=c", 0, Comparison::Mismatch(1)),
        ("g0x=c gx1=c", 0, Comparison::Mismatch(1)),
        ("Fpx=c psx=c", 1, Comparison::Mismatch(1)),
        ("AAASxyz=c AAASxyz=c", 1, Comparison::Clash(2)),
        ("AAASxyz=c AAKxy=c", 0, Comparison::Clash(2)),
        ("hn=c h0=c", 0, Comparison::Common),
        ("hhx=c hhx=c", 1, Comparison::Mismatch(1)),
    ] {
        let Some(rules) = rules_of(alloc, text)? else {
            panic!(rt; "no equations: {text}");
        };
        assert!(rt; are_well_formed(&rules, &arities));
        assert_eq!(rt; compared(&rules, place), Some(wanted), "{text}");
    }
    Ok(())
}

/// Appends the number of a break's restriction, of its first equation, of the position in it and of its second
/// equation, with a semicolon.
fn push_break(text: &mut Vec<u8>, told: &Break) -> Result<(), NoMemory> {
    let restriction = u16::from(told.restriction);
    for number in [restriction, told.first, told.place, told.second] {
        text.push(b' ')?;
        push_numeral(text, i128::from(number))?;
    }
    text.push(b';')?;
    Ok(())
}

/// The breaks of equations, one after another. Nothing where there is no memory.
fn breaks_of(alloc: Global, rules: Rules) -> Result<Vec<u8>, NoMemory>
    requires { AreWellFormed rules }
{
    let mut text = Vec::new(alloc);
    if let Err(AdmitError::Broken(found, _rules)) = Regular::admit(alloc, rules) {
        for told in found.iter() {
            push_break(&mut text, told)?;
        }
    }
    Ok(text)
}

#[test]
fn breaks_are_listed(rt: HostRuntime) -> Result<(), Fail> {
    let alloc = rt.alloc();
    let arities = arities(alloc)?;
    for (text, breaks) in [
        ("AAASxyz=AAxzAyz AAKxy=x", ""),
        ("hn=1 hn=1 h0=1", ""),
        ("otx=t oxt=t", " 5 0 0 1;"),
        (
            "ixyy=y g0x=0 gx1=1 Fpx=c psx=x hx=ky",
            " 1 0 3 0; 2 5 1 5; 3 1 0 2; 4 3 1 4;",
        ),
        ("hu=1 hv=2 h2=2 hn=1", " 3 0 0 1; 3 1 0 3; 3 2 0 3;"),
    ] {
        let Some(rules) = rules_of(alloc, text)? else {
            panic!(rt; "no equations: {text}");
        };
        assert!(rt; are_well_formed(&rules, &arities));
        let found = breaks_of(alloc, rules)?;
        assert_eq!(rt; found.as_slice(), breaks.as_bytes(), "{text}");
    }
    Ok(())
}
