//! The order in which left sides can be tested, RE5, and lists of equations that keep all restrictions.
#![tactic(auto)]

pub mod comparison;
pub mod order;
pub mod regular;

pub use comparison::{Comparison, compare};
pub use order::breaks;
pub use regular::{AdmitError, Regular};
