// Equations, and lists of them.
ghost use Rattle.std.specs.Prelude.{◌≡◌, ◌<◌, [], ◌∷◌, ◌++◌, length, OnOk, OnErr, slice_get, Some};
ghost use Rattle.std.specs.Slice.Iter.{iter_rest};
ghost use Rattle.std.specs.Iterator.Adapters.{IterYieldsInOrder};

use crate::classes::Classes;
use crate::head::NoMemory;
use crate::pattern::Pattern;
use std::alloc::Global;
use std::marker::Model;
use std::slice::Iter;

/// A built-in operation. All take two operands but `LengthStr`, which takes one.
#[derive(Clone, Copy, PartialEq, Eq, Debug)]
pub enum Op {
    /// The sum of two numerals.
    AddInt,
    /// The difference of two numerals.
    SubInt,
    /// The product of two numerals.
    MultInt,
    /// The quotient of two numerals.
    DivInt,
    /// The remainder of two numerals.
    ModInt,
    /// Whether two numerals are the same.
    EquInt,
    /// Whether a numeral is less than another.
    LessInt,
    /// Whether two atoms are the same.
    EquAtom,
    /// Whether two strings are the same.
    EquStr,
    /// Two strings, one after the other.
    ConcatStr,
    /// The length of a string.
    LengthStr,
}

/// Where in a file an equation comes from.
#[derive(Clone, Copy, PartialEq, Eq, Debug)]
pub struct Origin {
    /// The number of the item, counted from 1.
    pub item: u32,
    /// Which of the item's equations it is, counted from 1, or 0 where the item gives only one.
    pub part: u32,
}

/// A right side.
#[derive(Drop)]
pub enum Right {
    /// A pattern over the variables of the left side.
    Tree(Pattern),
    /// The value of an operation.
    Schema(Op),
}

/// An equation, used from left to right.
#[derive(Drop)]
pub struct Equation {
    /// What it rewrites.
    pub left: Pattern,
    /// What it puts there.
    pub right: Right,
    /// Where it comes from.
    pub origin: Origin,
}

/// A list of equations, and the classes of their file.
#[derive(Drop)]
pub struct Rules {
    classes: Classes,
    equations: Vec<Equation>,
}

impl Model for Rules {
    ghost use Rattle.std.specs.Coded.{code_by, coded×, coded_list};
    ghost use Rattle.std.specs.Prelude.{refl};
    ghost use Rattle.eq_base.specs.contracts.head.Head as head_type;
    ghost use Rattle.eq_base.specs.contracts.rules.Equation as equation_type;
    ghost use Rattle.eq_base.specs.RuleList.{RuleList};

    ghost Value = { RuleList };

    ghost coded = { code_by _ (coded× (coded_list (coded_list head_type.the_row.coded))
        (coded_list equation_type.the_row.coded)) (λ r. (r.classes, r.equations))
        (λ p. record { classes = p.0; equations = p.1 }) (λ _. refl) };

    ghost view = { λ r. record { classes = r.classes; equations = r.equations.items } };
}

impl Rules {
    /// No equations, of a file with these classes. It takes no memory.
    pub fn new(alloc: Global, classes: Classes) -> Rules
        ensures { result ≡ record { classes = classes; equations = [] } }
    {
        Rules {
            classes,
            equations: Vec::new(alloc),
        }
    }

    /// The classes of the file.
    pub fn classes(&self) -> &Classes
        ensures { result.now ≡ self.now.classes }
    {
        &self.classes
    }

    /// Adds an equation at the end. Where there is no memory the equation is dropped.
    pub fn push(&mut self, equation: Equation) -> Result<(), NoMemory>
        ensures ok { OnOk result (self.new
            ≡ record self.old { equations = self.old.equations ++ equation ∷ [] }) }
        ensures err { OnErr result (self.new ≡ self.old) }
    {
        self.equations.push(equation)?;
        Ok(())
    }

    /// The number of equations.
    pub fn len(&self) -> usize
        ensures { result ≡ length self.now.equations }
    {
        self.equations.len()
    }

    /// The equation with a number, counted from 0.
    pub fn equation(&self, number: usize) -> &Equation
        requires { number < length self.now.equations }
        ensures { slice_get self.now.equations number ≡ Some result.now }
    {
        &self.equations[number]
    }

    /// The equations, in their order.
    pub fn iter(&self) -> Iter<'_, Equation>
        ensures rest { iter_rest result ≡ self.now.equations }
        ensures len { length (iter_rest result) ≡ length self.now.equations }
        ensures runs { IterYieldsInOrder Equation }
    {
        self.equations.iter()
    }
}
