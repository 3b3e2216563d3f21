// The classes of variables.
ghost use Rattle.std.specs.Prelude.{◌≡◌, ◌↔◌, ℕ, length, nat_eq, IsTrue, IfOk};
ghost use Rattle.indexmap.specs.IndexMap.{get};
ghost use Rattle.def_file.specs.Definitions.{class_of};

use eq_base::NoMemory;
use indexmap::IndexMap;
use std::alloc::Global;
use std::marker::Model;

/// The variables that are in classes, each with the number of its class. Contracts see the list of them.
///
/// A look-up takes constant time on average.
#[derive(Drop)]
pub struct VariableClasses {
    list: Vec<(u32, u8)>,
    table: IndexMap<u32, u8>,
}

impl Model for VariableClasses {
    ghost use Rattle.std.specs.Prelude.{◌≡◌, ℕ, List, nat_eq};
    ghost use Rattle.indexmap.specs.IndexMap.{get};
    ghost use Rattle.def_file.specs.Definitions.{class_of};

    ghost Value = { List (ℕ × ℕ) };

    ghost view = { λ c. c.list.items };

    ghost invariant = { λ c. (x : ℕ) → get nat_eq c.table x ≡ class_of c.list.items x };
}

/// The classes by their variables. The first class of a variable counts.
fn table_of(alloc: Global, list: &[(u32, u8)]) -> Result<IndexMap<u32, u8>, NoMemory>
    ensures { IfOk result (λ table. (x : ℕ) → get nat_eq table x ≡ class_of list.now x) }
{
    let mut table = IndexMap::new(alloc);
    for i in 0..list.len() {
        let (variable, class) = list[list.len() - 1 - i];
        table.insert(variable, class)?;
    }
    Ok(table)
}

impl VariableClasses {
    /// These variables with their classes.
    pub fn new(alloc: Global, list: Vec<(u32, u8)>) -> Result<VariableClasses, NoMemory>
        ensures { IfOk result (λ classes. classes ≡ list.items) }
    {
        let table = table_of(alloc, &list)?;
        Ok(VariableClasses { list, table })
    }

    /// Whether no variable is in a class.
    pub fn is_empty(&self) -> bool
        ensures { IsTrue result ↔ (length self.now ≡ 0) }
    {
        self.list.is_empty()
    }

    /// The class of the variable, if it is in one.
    pub fn class(&self, variable: u32) -> Option<u8>
        ensures { result ≡ class_of self.now variable }
    {
        self.table.get(&variable).copied()
    }
}
