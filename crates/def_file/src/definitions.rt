// What a definitions file says.
ghost use Rattle.std.specs.Prelude.{◌≡◌, ◌+◌, ◌≤◌, ◌<◌, ◌↔◌, length, slice_get, Some, IfSome, IsNone};
ghost use Rattle.std.specs.Slice.Iter.{iter_rest};
ghost use Rattle.def_file.specs.Definitions.{NamesClass};
ghost use Rattle.def_file.specs.declared.definitions.Numbered.{Numbered as NumberedItem};

use crate::class_names::ClassNames;
use eq_base::{Classes, Op, Pattern};
use std::marker::Model;
use std::slice;
use symbol_table::{Symbols, Variables};

/// The alternatives of a qualified variable. Contracts see the list of them.
#[derive(Drop)]
pub struct Choices {
    alternatives: Vec<Pattern>,
}

impl Model for Choices {
    ghost use Rattle.std.specs.Prelude.{List};
    ghost use Rattle.std.specs.Coded.{coded_list};
    ghost use Rattle.eq_base.specs.contracts.pattern.Pattern as pattern_type;
    ghost use Rattle.eq_base.specs.Tree.{Tree};
    ghost use Rattle.eq_base.specs.Pattern.{PatternCell};
    ghost use Rattle.eq_base.specs.declared.head.Head.{Head};

    ghost Value = { List (Tree (PatternCell Head)) };

    ghost coded = { coded_list pattern_type.the_row.coded };

    ghost view = { λ c. c.alternatives.items };
}

impl Choices {
    /// These alternatives.
    pub(crate) fn new(alternatives: Vec<Pattern>) -> Choices
        ensures { result ≡ alternatives.items }
    {
        Choices { alternatives }
    }

    /// How many alternatives there are.
    pub fn len(&self) -> usize
        ensures { result ≡ length self.now }
    {
        self.alternatives.len()
    }

    /// The alternative with that number.
    pub fn get(&self, i: usize) -> &Pattern
        requires { i < length self.now }
        ensures { slice_get self.now i ≡ Some result.now }
    {
        &self.alternatives[i]
    }

    /// The alternatives, one after another.
    pub fn iter(&self) -> slice::Iter<'_, Pattern>
        ensures { iter_rest result ≡ self.now }
    {
        self.alternatives.iter()
    }
}

/// A qualified variable.
#[derive(Drop)]
pub struct Qualifier {
    /// The number of the variable.
    pub variable: u32,
    /// What it may stand for; none where it is in a class, which its cells then name.
    pub choices: Choices,
    /// The first byte of its name before `is`.
    pub byte: usize,
}

/// The qualifiers of an equation. Contracts see the list of them.
#[derive(Drop)]
pub struct Qualifiers {
    list: Vec<Qualifier>,
}

impl Model for Qualifiers {
    ghost use Rattle.std.specs.Prelude.{List};
    ghost use Rattle.std.specs.Coded.{coded_list};
    ghost use Rattle.def_file.specs.contracts.definitions.Qualifier as qualifier_type;
    ghost use Rattle.def_file.specs.declared.definitions.Qualifier.{Qualifier};

    ghost Value = { List Qualifier };

    ghost coded = { coded_list qualifier_type.the_row.coded };

    ghost view = { λ q. q.list.items };
}

impl Qualifiers {
    /// These qualifiers.
    pub(crate) fn new(list: Vec<Qualifier>) -> Qualifiers
        ensures { result ≡ list.items }
    {
        Qualifiers { list }
    }

    /// How many qualifiers there are.
    pub fn len(&self) -> usize
        ensures { result ≡ length self.now }
    {
        self.list.len()
    }

    /// The qualifier with that number.
    pub fn get(&self, i: usize) -> &Qualifier
        requires { i < length self.now }
        ensures { slice_get self.now i ≡ Some result.now }
    {
        &self.list[i]
    }

    /// The qualifiers, one after another.
    pub fn iter(&self) -> slice::Iter<'_, Qualifier>
        ensures { iter_rest result ≡ self.now }
    {
        self.list.iter()
    }
}

/// A written equation.
#[derive(Drop)]
pub struct Written {
    /// The left side.
    pub left: Pattern,
    /// The right side.
    pub right: Pattern,
    /// What its variables may stand for.
    pub qualifiers: Qualifiers,
    /// Its first byte.
    pub byte: usize,
}

/// What an item of a file gives.
#[derive(Drop)]
pub enum Item {
    /// An equation.
    Equation(Written),
    /// The equations of an operation, whose class is named at the byte.
    Class(Op, usize),
}

/// An item, and the number of the written item that gives it, counted from 1.
#[derive(Drop)]
pub struct Numbered {
    /// The item.
    pub item: Item,
    /// The number.
    pub number: u32,
}

/// The items of a file, an include giving one for each of its names. Contracts see the list of them.
#[derive(Drop)]
pub struct Items {
    list: Vec<Numbered>,
}

impl Model for Items {
    ghost use Rattle.std.specs.Prelude.{List};
    ghost use Rattle.std.specs.Coded.{coded_list};
    ghost use Rattle.def_file.specs.contracts.definitions.Numbered as numbered_type;
    ghost use Rattle.def_file.specs.declared.definitions.Numbered.{Numbered};

    ghost Value = { List Numbered };

    ghost coded = { coded_list numbered_type.the_row.coded };

    ghost view = { λ i. i.list.items };
}

/// The symbols, the classes, the variables and the items of a file.
#[derive(Drop)]
pub struct Definitions {
    /// The symbols.
    pub symbols: Symbols,
    /// The names of the classes.
    pub class_names: ClassNames,
    /// The classes, which have the numbers behind those of the symbol classes.
    pub classes: Classes,
    /// The variables, by their numbers.
    pub variables: Variables,
    /// The items in their order.
    pub items: Items,
}

impl Items {
    /// These items.
    pub(crate) fn new(list: Vec<Numbered>) -> Items
        ensures { result ≡ list.items }
    {
        Items { list }
    }

    /// The number of items.
    pub fn len(&self) -> usize
        ensures { result ≡ length self.now }
    {
        self.list.len()
    }

    /// The item with that place in the list.
    fn get(&self, place: usize) -> Option<&Numbered>
        ensures some { IfSome result (λ numbered. slice_get self.now place ≡ Some numbered.now) }
        ensures none { IsNone result ↔ (length self.now ≤ place) }
    {
        self.list.get(place)
    }
}

impl Definitions {
    /// The name of the class with the number, of a symbol class or of one of the file.
    pub fn class_name(&self, class: u8) -> &[u8]
        requires { class < 4 + length self.now.class_names }
        ensures { NamesClass self.now.class_names result.now class }
    {
        match class {
            0 => b"integer_numerals",
            1 => b"atomic_symbols",
            2 => b"truth_values",
            3 => b"strings",
            _ => self.class_names.name(class),
        }
    }

    /// The item with that place in the list.
    pub fn item(&self, number: usize) -> Option<&Item>
        ensures some { IfSome result (λ item. (n : NumberedItem) × (slice_get self.now.items number ≡ Some n)
            × (n.item ≡ item.now)) }
        ensures none { IsNone result ↔ (length self.now.items ≤ number) }
    {
        let numbered = self.items.get(number)?;
        Some(&numbered.item)
    }

    /// The number of the written item that gives the item with that place, counted from 1.
    pub fn item_number(&self, number: usize) -> u32
        requires { number < length self.now.items }
        ensures { (n : NumberedItem) × (slice_get self.now.items number ≡ Some n) × (result ≡ n.number) }
    {
        self.items.list[number].number
    }
}
