// Breaks of the restrictions, and lists of them.
ghost use Rattle.std.specs.Prelude.{◌≡◌, ◌<◌, [], ◌∷◌, ◌++◌, length, OnOk, OnErr, slice_get, Some, ◌↔◌};
ghost use Rattle.std.specs.Prelude.{IsTrue, Contains};
ghost use Rattle.std.specs.Slice.Iter.{iter_rest};
ghost use Rattle.std.specs.Iterator.Adapters.{IterYieldsInOrder};
ghost use Rattle.regularity.specs.Listing.{Precedes, IsOrdered, break_at};

use eq_base::NoMemory;
use std::alloc::Global;
use std::marker::Model;
use std::slice::Iter;

/// A break of a restriction.
#[derive(Clone, Copy, PartialEq, Eq, Debug)]
pub struct Break {
    /// The number of the restriction, from 1 for RE1 to 5 for RE5.
    pub restriction: u8,
    /// The first equation, counted from 0.
    pub first: u16,
    /// The position, by its number in preorder: on the right side for RE2, else on the first left side.
    pub place: u16,
    /// The second equation, which is the first one for RE1 and RE2.
    pub second: u16,
}

impl Break {
    /// Whether the break comes before another in lists.
    pub fn precedes(self, other: Break) -> bool
        ensures { IsTrue result ↔ Precedes self other }
    {
        if self.restriction != other.restriction {
            self.restriction < other.restriction
        } else if self.first != other.first {
            self.first < other.first
        } else if self.place != other.place {
            self.place < other.place
        } else {
            self.second < other.second
        }
    }

    /// The break of a restriction by two equations at a position.
    pub fn new(restriction: u8, first: usize, place: usize, second: usize) -> Break
        requires first { first < 65536 }
        requires place { place < 65536 }
        requires second { second < 65536 }
        ensures { result ≡ break_at restriction first place second }
    {
        Break {
            restriction,
            first: first as u16,
            place: place as u16,
            second: second as u16,
        }
    }
}

/// A list of breaks.
#[derive(Drop)]
pub struct Breaks {
    items: Vec<Break>,
}

impl Model for Breaks {
    ghost use Rattle.std.specs.Prelude.{List};
    ghost use Rattle.regularity.specs.declared.breaks.Break.{Break};

    ghost Value = { List Break };

    ghost view = { λ b. b.items.items };
}

impl Breaks {
    /// No breaks. It takes no memory.
    pub fn new(alloc: Global) -> Breaks
        ensures { result ≡ [] }
    {
        Breaks {
            items: Vec::new(alloc),
        }
    }

    /// Adds a break at the end.
    pub fn push(&mut self, found: Break) -> Result<(), NoMemory>
        ensures ok { OnOk result (self.new ≡ self.old ++ found ∷ []) }
        ensures err { OnErr result (self.new ≡ self.old) }
    {
        self.items.push(found)?;
        Ok(())
    }

    /// Adds the breaks of another list at the end.
    ///
    /// # Errors
    ///
    /// Out of memory; the list is then unchanged.
    pub fn append(&mut self, other: &Breaks) -> Result<(), NoMemory>
        ensures ok { OnOk result (self.new ≡ self.old ++ other.now) }
        ensures err { OnErr result (self.new ≡ self.old) }
    {
        self.items.extend_from_slice(&other.items)?;
        Ok(())
    }

    /// The number of breaks.
    pub fn len(&self) -> usize
        ensures { result ≡ length self.now }
    {
        self.items.len()
    }

    /// The break with a number, counted from 0.
    pub fn get(&self, i: usize) -> Break
        requires { i < length self.now }
        ensures { slice_get self.now i ≡ Some result }
    {
        self.items[i]
    }

    /// The breaks, in their order.
    pub fn iter(&self) -> Iter<'_, Break>
        ensures rest { iter_rest result ≡ self.now }
        ensures len { length (iter_rest result) ≡ length self.now }
        ensures runs { IterYieldsInOrder Break }
    {
        self.items.iter()
    }

    /// Whether an ordered list has the break, in logarithmic time.
    pub fn has(&self, wanted: Break) -> bool
        requires { IsOrdered self.now }
        ensures { IsTrue result ↔ Contains self.now wanted }
    {
        let mut from = 0;
        let mut to = self.len();
        while from < to {
            let middle = from + (to - from) / 2;
            let here = self.get(middle);
            if here.precedes(wanted) {
                from = middle + 1;
            } else if wanted.precedes(here) {
                to = middle;
            } else {
                return true;
            }
        }
        false
    }
}
