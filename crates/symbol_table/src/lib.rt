//! Names: the declared symbols with their numbers, the atoms and texts, and the variables of a file.
#![tactic(auto)]

mod classes;
mod error;
mod interned;
mod symbols;
mod variables;

pub use classes::class_named;
pub use error::SymbolError;
pub use interned::Interned;
pub use symbols::{Mark, Symbols};
pub use variables::Variables;
