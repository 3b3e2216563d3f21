//! Definitions files: the symbols, the variables and the equations that a text gives, or its first fault.
#![tactic(auto)]

mod class_names;
mod definitions;
mod error;
mod naming;
mod notations;
mod phases;
mod reading;
mod tree;

pub use class_names::ClassNames;
pub use definitions::{
    Choices, Definitions, Item, Items, Numbered, Qualifier, Qualifiers, Written,
};
pub use error::FileError;
pub use naming::symbol_of;
pub use phases::read_definitions;
