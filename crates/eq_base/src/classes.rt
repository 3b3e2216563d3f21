// Classes that a file lists: constants, by the numbers of their classes.
ghost use Rattle.std.specs.Prelude.{◌≡◌, ◌+◌, ◌<◌, ◌≤◌, ◌↔◌, [], ◌∷◌, ◌++◌, length, slice_get, Some};
ghost use Rattle.std.specs.Prelude.{Contains, IsTrue, IfOk, OnOk, OnErr, if◌then◌else◌};
ghost use Rattle.eq_base.specs.ClassLists.{members_of, with_member};

use crate::head::{Head, NoMemory};
use indexmap::IndexSet;
use std::alloc::Global;
use std::marker::Model;

/// The number of the first class of a file, behind the symbol classes.
pub const FIRST_CLASS: u8 = 4;

/// The classes of a file, each a finite list of constants. They have the numbers from 4 on, in their order, and may
/// share members. Contracts see the list of the lists.
///
/// Whether a class lists a head is found in constant time on average.
#[derive(Drop)]
pub struct Classes {
    sets: Vec<IndexSet<Head>>,
}

impl Model for Classes {
    ghost use Rattle.std.specs.Prelude.{List, map};
    ghost use Rattle.eq_base.specs.declared.head.Head.{Head};

    ghost Value = { List (List Head) };

    ghost view = { λ c. map (λ set. set.keys) c.sets.items };
}

impl Classes {
    /// No classes. It takes no memory.
    pub fn new(alloc: Global) -> Classes
        ensures { result ≡ [] }
    {
        Classes {
            sets: Vec::new(alloc),
        }
    }

    /// Begins a class behind the others, with no members, and answers its number.
    pub fn begin(&mut self) -> Result<u8, NoMemory>
        requires { length self.old < 250 }
        ensures ok { OnOk result (self.new ≡ self.old ++ [] ∷ []) }
        ensures number { IfOk result (λ class. class ≡ 4 + length self.old) }
        ensures err { OnErr result (self.new ≡ self.old) }
    {
        let class = FIRST_CLASS + self.sets.len() as u8;
        let alloc = *self.sets.allocator();
        self.sets.push(IndexSet::new(alloc))?;
        Ok(class)
    }

    /// Adds a head at the end of a class, unless the class lists it already, and answers whether it did.
    pub fn add(&mut self, class: u8, head: Head) -> Result<bool, NoMemory>
        requires first { 4 ≤ class }
        requires known { class < 4 + length self.old }
        ensures fresh { IfOk result (λ added. IsTrue added ↔ (¬ Contains (members_of self.old class) head)) }
        ensures ok { IfOk result (λ added. self.new
            ≡ if added then with_member self.old class head else self.old) }
        ensures err { OnErr result (self.new ≡ self.old) }
        ensures len { length self.new ≡ length self.old }
    {
        let added = self.sets[(class - FIRST_CLASS) as usize].insert(head)?;
        Ok(added)
    }

    /// Whether the class lists the head, in constant time on average.
    pub fn holds(&self, class: u8, head: Head) -> bool
        requires first { 4 ≤ class }
        requires known { class < 4 + length self.now }
        ensures { IsTrue result ↔ Contains (members_of self.now class) head }
    {
        self.sets[(class - FIRST_CLASS) as usize].contains(&head)
    }

    /// The number of classes.
    pub fn len(&self) -> usize
        ensures { result ≡ length self.now }
    {
        self.sets.len()
    }

    /// The number of a class's members.
    pub fn members(&self, class: u8) -> usize
        requires first { 4 ≤ class }
        requires known { class < 4 + length self.now }
        ensures { result ≡ length (members_of self.now class) }
    {
        self.sets[(class - FIRST_CLASS) as usize].len()
    }

    /// The member of a class with a number, counted from 0.
    pub fn member(&self, class: u8, number: usize) -> Head
        requires first { 4 ≤ class }
        requires known { class < 4 + length self.now }
        requires there { number < length (members_of self.now class) }
        ensures { slice_get (members_of self.now class) number ≡ Some result }
    {
        self.sets[(class - FIRST_CLASS) as usize].as_slice()[number]
    }

    /// The same classes, in memory of their own.
    pub fn copy(&self, alloc: Global) -> Result<Classes, NoMemory>
        ensures { IfOk result (λ copy. copy ≡ self.now) }
    {
        let sets = self.sets.to_vec(alloc)?;
        Ok(Classes { sets })
    }
}
