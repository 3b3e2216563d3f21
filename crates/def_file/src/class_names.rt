// The names of the classes of a file.
ghost use Rattle.std.specs.Prelude.{◌≡◌, ◌↔◌, ◌+◌, ◌-◌, ◌<◌, ◌≤◌, [], ◌∷◌, ◌++◌, Some, IsNone, IfSome, length, slice_get};
ghost use Rattle.std.specs.Prelude.{Contains, OnOk, OnErr};

use eq_base::{FIRST_CLASS, NoMemory};
use std::alloc::Global;
use std::marker::Model;
use symbol_table::Interned;

/// The names of the classes of a file, of which there are at most 250. Contracts see the list of them.
///
/// A look-up takes constant time on average.
#[derive(Drop)]
pub struct ClassNames {
    names: Interned,
}

impl Model for ClassNames {
    ghost use Rattle.std.specs.Prelude.{ℕ, ◌≤◌, List, length};

    ghost Value = { List (List ℕ) };

    ghost view = { λ c. c.names };

    ghost invariant = { λ c. length c.names ≤ 250 };
}

impl ClassNames {
    /// No names. It takes no memory.
    pub fn new(alloc: Global) -> ClassNames
        ensures { result ≡ [] }
    {
        ClassNames {
            names: Interned::new(alloc),
        }
    }

    /// How many names there are.
    pub fn len(&self) -> usize
        ensures { result ≡ length self.now }
    {
        self.names.len()
    }

    /// Adds a name at the end. Out of memory leaves the names as they were.
    pub fn add(&mut self, name: &[u8]) -> Result<(), NoMemory>
        requires few { length self.old < 250 }
        requires fresh { ¬ Contains self.old name.now }
        ensures ok { OnOk result (self.new ≡ self.old ++ name.now ∷ []) }
        ensures err { OnErr result (self.new ≡ self.old) }
    {
        self.names.intern(name)?;
        Ok(())
    }

    /// The number of the class with the name.
    pub fn number(&self, name: &[u8]) -> Option<u8>
        ensures some { IfSome result (λ class. (4 ≤ class)
            × (slice_get self.now (class - 4) ≡ Some name.now)) }
        ensures none { IsNone result ↔ (¬ Contains self.now name.now) }
    {
        let place = self.names.find(name)?;
        Some(FIRST_CLASS + place as u8)
    }

    /// The name of the class with the number.
    pub fn name(&self, class: u8) -> &[u8]
        requires first { 4 ≤ class }
        requires known { class < 4 + length self.now }
        ensures { slice_get self.now (class - 4) ≡ Some result.now }
    {
        self.names.get((class - FIRST_CLASS) as usize)
    }
}
