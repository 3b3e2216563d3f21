// The operations on numerals, atoms and strings.
#![tactic(auto)]

pub mod laws;
mod left;
pub mod value;

pub use left::{is_schema_left, schema_left};
pub use value::{Operand, Value, evaluate};
