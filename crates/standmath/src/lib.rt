//! The reader and the printer of terms in the standard notation: a name with its arguments in round brackets.
#![tactic(auto)]

mod mentions;
mod place;
mod read;
mod scan;
mod write;

pub use read::{read_pattern, read_term};
pub use scan::skip_term;
pub use write::write_term;
pub use written_terms::ReadError;
