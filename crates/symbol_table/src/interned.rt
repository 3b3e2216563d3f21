// Byte strings by number.
ghost use Rattle.std.specs.Prelude.{◌≡◌, ◌↔◌, ℕ, ◌<◌, [], Some, length, take, slice_get, Contains, IsNone};
ghost use Rattle.std.specs.Prelude.{IfOk, OnErr};
ghost use Rattle.symbol_table.specs.Table.{AreDistinct, Interns};

use eq_base::NoMemory;
use indexmap::IndexSet;
use std::alloc::Global;
use std::marker::Model;

/// Distinct byte strings, each with its index as its number. Contracts see the list of them.
///
/// A look-up takes constant time on average.
#[derive(Drop)]
pub struct Interned {
    keys: IndexSet<Vec<u8>>,
}

impl Model for Interned {
    ghost use Rattle.std.specs.Prelude.{ℕ, List};
    ghost use Rattle.symbol_table.specs.Entries.{bytes_of};
    ghost use Rattle.symbol_table.specs.Table.{AreDistinct};

    ghost Value = { List (List ℕ) };

    ghost view = { λ s. bytes_of s.keys.keys };

    ghost invariant = { λ s. AreDistinct (bytes_of s.keys.keys) };
}

impl Interned {
    /// No byte strings. It takes no memory.
    pub fn new(alloc: Global) -> Interned
        ensures { result ≡ [] }
    {
        Interned {
            keys: IndexSet::new(alloc),
        }
    }

    /// How many byte strings there are.
    pub fn len(&self) -> usize
        ensures len { result ≡ length self.now }
        ensures distinct { AreDistinct self.now }
    {
        self.keys.len()
    }

    /// The number of the bytes.
    pub fn find(&self, bytes: &[u8]) -> Option<usize>
        ensures listed { (number : ℕ) → (result ≡ Some number)
            ↔ (slice_get self.now number ≡ Some bytes.now) }
        ensures none { IsNone result ↔ (¬ Contains self.now bytes.now) }
        ensures distinct { AreDistinct self.now }
    {
        let (number, _) = self.keys.get_full(bytes)?;
        Some(number)
    }

    /// The bytes with that number.
    pub fn get(&self, number: usize) -> &[u8]
        requires { number < length self.now }
        ensures bytes { slice_get self.now number ≡ Some result.now }
        ensures distinct { AreDistinct self.now }
    {
        self.keys.get_index(number).unwrap().as_slice()
    }

    /// The number of the bytes, which are copied if they are new. Out of memory leaves all as it was.
    pub fn intern(&mut self, bytes: &[u8]) -> Result<usize, NoMemory>
        ensures ok { IfOk result (Interns self.old self.new bytes.now) }
        ensures err { OnErr result (self.new ≡ self.old) }
        ensures distinct { AreDistinct self.new }
    {
        if let Some(number) = self.find(bytes) {
            return Ok(number);
        }
        let bytes = bytes.to_vec(*self.keys.allocator())?;
        self.insert(bytes)
    }

    /// The number of the bytes, which are kept if they are new. Out of memory leaves all as it was.
    pub fn insert(&mut self, bytes: Vec<u8>) -> Result<usize, NoMemory>
        ensures ok { IfOk result (Interns self.old self.new bytes.items) }
        ensures err { OnErr result (self.new ≡ self.old) }
        ensures distinct { AreDistinct self.new }
    {
        let (number, _) = self.keys.insert_full(bytes)?;
        Ok(number)
    }

    /// Gives up the byte strings from that number on.
    pub fn truncate(&mut self, len: usize)
        ensures cut { self.new ≡ take len self.old }
        ensures distinct { AreDistinct self.new }
    {
        self.keys.truncate(len);
    }
}
