ghost use Rattle.std.specs.Prelude.{◌≡◌, ◌↔◌, ℕ, ◌+◌, ◌<◌, ◌≤◌, ◌^◌, [], ◌++◌, Some, length, take, slice_get};
ghost use Rattle.std.specs.Prelude.{slice_index_or, IsTrue, IfSome, IsNone, IfOk, OnOk, IfErr, OnErr};
ghost use Rattle.eq_base.specs.declared.head.Head.{Head as HeadValue};
ghost use Rattle.eq_base.specs.declared.meeting.SymbolClass.{SymbolClass as Class};
ghost use Rattle.eq_base.specs.Meeting.{class_number};
ghost use Rattle.eq_base.specs.Limits.{most_arguments, most_text_bytes};
ghost use Rattle.symbol_table.specs.Table.{no_names, Includes, IsDeclared, HasName, HasTruthName, IsLive};
ghost use Rattle.symbol_table.specs.Table.{HasOneNumberEach, Declares, AddsClass, InternsAtom, InternsText};
ghost use Rattle.symbol_table.specs.Table.{Resolves};
ghost use Rattle.symbol_table.specs.Reading.{read_head, IsLiveHead};
ghost use Rattle.symbol_table.specs.Refusing.{IfRefused, RefusesDeclaration, IsTaken, RefusesInclude};
ghost use Rattle.symbol_table.specs.Refusing.{RefusesUse};

use crate::classes::class_named;
use crate::error::SymbolError;
use crate::interned::Interned;
use eq_base::{Head, NoMemory, SymbolClass};
use indexmap::IndexMap;
use std::alloc::{AllocError, Global};
use std::marker::Model;
use term_lex::FaultKind;

/// The truth value with the number 0, where the class is included.
const TRUE: &[u8] = b"true";

/// The truth value with the number 1, where the class is included.
const FALSE: &[u8] = b"false";

/// The number of the first declared symbol, behind the truth values.
const FIRST_DECLARED: u32 = 2;

/// The names of a run: the declared symbols, the included classes, and the atoms and texts that have been met. Contracts
/// see them as a table of lists.
///
/// Two numbers are equal exactly where the bytes are. A look-up takes constant time on average, and the bytes of a name
/// are copied once, when it gets its number.
#[derive(Drop)]
pub struct Symbols {
    arities: IndexMap<Vec<u8>, u8>,
    classes: Vec<SymbolClass>,
    atoms: Interned,
    texts: Interned,
}

impl Model for Symbols {
    ghost use Rattle.symbol_table.specs.Table.{Table};
    ghost use Rattle.symbol_table.specs.Entries.{table_of, IsTable};

    ghost Value = { Table };

    ghost view = { λ s. table_of s.arities.entries s.classes.items s.atoms s.texts };

    ghost invariant = { λ s. IsTable (table_of s.arities.entries s.classes.items s.atoms s.texts) };
}

/// How many atoms and texts a table had, so that those that came later can be given up.
#[derive(Clone, Copy, PartialEq, Eq, Debug)]
pub struct Mark {
    /// The number of atoms.
    pub atoms: usize,
    /// The number of texts.
    pub texts: usize,
}

impl Symbols {
    /// A table of nothing. It takes no memory.
    pub fn new(alloc: Global) -> Symbols
        ensures { result ≡ no_names }
    {
        Symbols {
            arities: IndexMap::new(alloc),
            classes: Vec::new(alloc),
            atoms: Interned::new(alloc),
            texts: Interned::new(alloc),
        }
    }

    /// Declares a name with an arity of 0 to 255, and answers its number. A refusal leaves the table as it was.
    ///
    /// # Errors
    ///
    /// `Twice` where the name is declared, else `ArityPast`; out of memory.
    pub fn declare(&mut self, name: &[u8], arity: i128) -> Result<u32, SymbolError>
        requires { 2 + length self.old.declared < 2 ^ 32 }
        ensures ok { IfOk result (Declares self.old self.new name.now arity) }
        ensures refused { IfErr result (IfRefused (RefusesDeclaration self.old name.now arity)) }
        ensures err { OnErr result (self.new ≡ self.old) }
    {
        if self.find(name).is_some() {
            return Err(SymbolError::Refused(FaultKind::Twice));
        }
        let Ok(arity) = u8::try_from(arity) else {
            return Err(SymbolError::Refused(FaultKind::ArityPast));
        };
        let number = FIRST_DECLARED + self.arities.len() as u32;
        let name = name.to_vec(*self.arities.allocator())?;
        self.arities.insert(name, arity)?;
        Ok(number)
    }

    /// Includes the class with that name; with the truth values, `true` and `false` are declared as the symbols 0 and 1.
    /// A refusal leaves the table as it was.
    ///
    /// # Errors
    ///
    /// `UnknownClass` where no class has the name, `Twice` where the class is included or a truth value is declared; out
    /// of memory.
    pub fn include(&mut self, class: &[u8]) -> Result<(), SymbolError>
        ensures ok { OnOk result (AddsClass self.old self.new class.now) }
        ensures refused { IfErr result (IfRefused (RefusesInclude self.old class.now)) }
        ensures err { OnErr result (self.new ≡ self.old) }
    {
        let Some(class) = class_named(class) else {
            return Err(SymbolError::Refused(FaultKind::UnknownClass));
        };
        if self.is_taken(class) {
            return Err(SymbolError::Refused(FaultKind::Twice));
        }
        self.classes.push(class)?;
        Ok(())
    }

    /// Whether the class with that number is included.
    pub fn included(&self, class: u8) -> bool
        ensures included { IsTrue result ↔ ((c : Class) × (class ≡ class_number c) × Includes self.now c) }
        ensures distinct { HasOneNumberEach self.now }
    {
        self.classes
            .iter()
            .any(|included| included.number() == class)
    }

    /// The number and the arity of a declared name.
    pub fn find(&self, name: &[u8]) -> Option<(u32, u8)>
        ensures declared { (number arity : ℕ) → (result ≡ Some (number, arity))
            ↔ IsDeclared self.now name.now number arity }
        ensures none { IsNone result ↔ (¬ HasName self.now name.now) }
        ensures distinct { HasOneNumberEach self.now }
    {
        if let Some((index, _, arity)) = self.arities.get_full(name) {
            return Some((FIRST_DECLARED + index as u32, *arity));
        }
        let number = self.find_truth_value(name)?;
        Some((number, 0))
    }

    /// Whether the class may not be included: it is already, or its symbols are declared.
    fn is_taken(&self, class: SymbolClass) -> bool
        ensures { IsTrue result ↔ IsTaken self.now class }
    {
        self.included(class.number()) || class == SymbolClass::TruthValues && self.has_truth_name()
    }

    /// Whether `true` or `false` is declared.
    fn has_truth_name(&self) -> bool
        ensures { IsTrue result ↔ HasTruthName self.now }
    {
        self.find(TRUE).is_some() || self.find(FALSE).is_some()
    }

    /// The number of a truth value whose class is included.
    fn find_truth_value(&self, name: &[u8]) -> Option<u32>
        ensures found { IfSome result (λ number. IsDeclared self.now name.now number 0) }
        ensures none { IsNone result → (number arity : ℕ) → IsDeclared self.now name.now number arity
            → 2 ≤ number }
    {
        if !self.included(SymbolClass::TruthValues.number()) {
            return None;
        }
        if name == TRUE {
            return Some(0);
        }
        (name == FALSE).then_some(1)
    }

    /// The head that a name with so many arguments stands for: the symbol that is declared so, or an atom where no symbol
    /// has the name and atoms are included.
    ///
    /// # Errors
    ///
    /// `WrongArity` where the name is declared with another number of arguments, `Unknown` where it is not declared and
    /// no atom; out of memory. An error leaves the table as it was.
    pub fn resolve(&mut self, name: &[u8], args: usize) -> Result<Head, SymbolError>
        ensures ok { IfOk result (Resolves self.old self.new name.now args) }
        ensures few { IfOk result (λ _. args ≤ most_arguments) }
        ensures refused { IfErr result (IfRefused (RefusesUse self.old name.now args)) }
        ensures err { OnErr result (self.new ≡ self.old) }
        ensures distinct { HasOneNumberEach self.new }
    {
        match self.find(name) {
            Some((number, declared)) if usize::from(declared) == args => Ok(Head::Symbol(number)),
            Some((_, declared)) => Err(SymbolError::Refused(FaultKind::WrongArity {
                declared,
                found: args,
            })),
            None if args == 0 && self.included(SymbolClass::Atoms.number()) => {
                Ok(Head::Atom(self.intern_atom(name)?))
            }
            None => Err(SymbolError::Refused(FaultKind::Unknown)),
        }
    }

    /// The number of an atom, which is a new one if the atom is new. Out of memory leaves the table as it was.
    pub fn intern_atom(&mut self, name: &[u8]) -> Result<usize, NoMemory>
        ensures ok { IfOk result (InternsAtom self.old self.new name.now) }
        ensures err { OnErr result (self.new ≡ self.old) }
        ensures distinct { HasOneNumberEach self.new }
    {
        self.atoms.intern(name)
    }

    /// The number of a text, which is a new one if the text is new. Out of memory leaves the table as it was.
    pub fn intern_text(&mut self, bytes: &[u8]) -> Result<usize, NoMemory>
        ensures ok { IfOk result (InternsText self.old self.new bytes.now) }
        ensures err { OnErr result (self.new ≡ self.old) }
        ensures distinct { HasOneNumberEach self.new }
    {
        self.texts.intern(bytes)
    }

    /// The number of the one text with the other behind it. Each byte is copied once. Out of memory leaves the table as
    /// it was.
    pub fn intern_joined(&mut self, one: usize, other: usize) -> Result<usize, NoMemory>
        requires one { one < length self.old.texts }
        requires other { other < length self.old.texts }
        requires short { length (slice_index_or self.old.texts one [])
            + length (slice_index_or self.old.texts other []) ≤ most_text_bytes }
        ensures ok { IfOk result (InternsText self.old self.new
            (slice_index_or self.old.texts one [] ++ slice_index_or self.old.texts other [])) }
        ensures err { OnErr result (self.new ≡ self.old) }
        ensures distinct { HasOneNumberEach self.new }
    {
        let alloc = *self.arities.allocator();
        let bytes = joined(alloc, self.texts.get(one), self.texts.get(other))?;
        self.texts.insert(bytes)
    }

    /// Each name, atom and text has one number, and heads whose numbers are live are read differently where they differ.
    /// It does nothing.
    pub fn has_one_number_each(&self)
        ensures distinct { HasOneNumberEach self.now }
        ensures apart { (one other : HeadValue) → IsLiveHead self.now one → IsLiveHead self.now other
            → read_head self.now one ≡ read_head self.now other → one ≡ other }
    {
        let _ = &self.arities;
    }

    /// The name of a declared symbol.
    pub fn name_of(&self, number: u32) -> &[u8]
        requires { IsLive self.now number }
        ensures { (arity : ℕ) × IsDeclared self.now result.now number arity }
    {
        match number {
            0 => TRUE,
            1 => FALSE,
            _ => {
                let index = (number - FIRST_DECLARED) as usize;
                let (name, _) = self.arities.get_index(index).unwrap();
                name.as_slice()
            }
        }
    }

    /// The bytes of an atom.
    pub fn atom(&self, number: usize) -> &[u8]
        requires { number < length self.now.atoms }
        ensures { slice_get self.now.atoms number ≡ Some result.now }
    {
        self.atoms.get(number)
    }

    /// The bytes of a text.
    pub fn text(&self, number: usize) -> &[u8]
        requires { number < length self.now.texts }
        ensures { slice_get self.now.texts number ≡ Some result.now }
    {
        self.texts.get(number)
    }

    /// How many atoms and texts there are.
    pub fn mark(&self) -> Mark
        ensures { result ≡ record { atoms = length self.now.atoms; texts = length self.now.texts } }
    {
        Mark {
            atoms: self.atoms.len(),
            texts: self.texts.len(),
        }
    }

    /// Gives up the atoms and texts that came after the mark; those before it keep their numbers.
    pub fn cut_to(&mut self, mark: Mark)
        requires atoms { mark.atoms ≤ length self.old.atoms }
        requires texts { mark.texts ≤ length self.old.texts }
        ensures { self.new ≡ record self.old {
          atoms = take mark.atoms self.old.atoms;
          texts = take mark.texts self.old.texts;
        } }
    {
        self.atoms.truncate(mark.atoms);
        self.texts.truncate(mark.texts);
    }
}

/// The one text with the other behind it.
fn joined(alloc: Global, one: &[u8], other: &[u8]) -> Result<Vec<u8>, AllocError>
    requires { length one.now + length other.now < 2 ^ 64 }
    ensures { IfOk result (λ bytes. bytes.items ≡ one.now ++ other.now) }
{
    let mut bytes = Vec::with_capacity(alloc, one.len() + other.len())?;
    bytes.extend_from_slice(one)?;
    bytes.extend_from_slice(other)?;
    Ok(bytes)
}
