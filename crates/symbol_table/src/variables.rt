ghost use Rattle.std.specs.Prelude.{◌≡◌, ◌↔◌, ℕ, ◌<◌, ◌^◌, [], Some, length, slice_get, Contains, IsNone};
ghost use Rattle.std.specs.Prelude.{OnOk, IfErr, OnErr};
ghost use Rattle.symbol_table.specs.Refusing.{IfRefused, RefusesVariable};
ghost use Rattle.symbol_table.specs.Table.{AreDistinct};
ghost use Rattle.symbol_table.specs.Variables.{AddsVariable};

use crate::error::SymbolError;
use crate::interned::Interned;
use crate::symbols::Symbols;
use std::alloc::Global;
use std::marker::Model;
use term_lex::FaultKind;

/// The variables of a file. Contracts see the list of their names, in the order in which they were added.
#[derive(Drop)]
pub struct Variables {
    names: Interned,
}

impl Model for Variables {
    ghost use Rattle.std.specs.Prelude.{ℕ, ◌^◌, ◌≤◌, List, length};

    ghost Value = { List (List ℕ) };

    ghost view = { λ v. v.names };

    ghost invariant = { λ v. length v.names ≤ 2 ^ 32 };
}

impl Variables {
    /// No variables. It takes no memory.
    pub fn new(alloc: Global) -> Variables
        ensures { result ≡ [] }
    {
        Variables {
            names: Interned::new(alloc),
        }
    }

    /// Adds a name at the end, if it is no variable and no declared symbol. An error leaves the variables as they were.
    pub fn add(&mut self, symbols: &Symbols, name: &[u8]) -> Result<(), SymbolError>
        requires { length self.old < 2 ^ 32 }
        ensures ok { OnOk result (AddsVariable symbols.now self.old self.new name.now) }
        ensures refused { IfErr result (IfRefused (RefusesVariable symbols.now self.old name.now)) }
        ensures err { OnErr result (self.new ≡ self.old) }
    {
        if self.find(name).is_some() || symbols.find(name).is_some() {
            return Err(SymbolError::Refused(FaultKind::VariableTwice));
        }
        self.names.intern(name)?;
        Ok(())
    }

    /// The number of a variable: its index.
    pub fn find(&self, name: &[u8]) -> Option<u32>
        ensures listed { (index : ℕ) → (result ≡ Some index) ↔ (slice_get self.now index ≡ Some name.now) }
        ensures none { IsNone result ↔ (¬ Contains self.now name.now) }
        ensures distinct { AreDistinct self.now }
    {
        let index = self.names.find(name)?;
        Some(index as u32)
    }

    /// Each name has one number. It does nothing.
    pub fn has_one_number_each(&self)
        ensures { AreDistinct self.now }
    {
        let _ = self.names.len();
    }
}
