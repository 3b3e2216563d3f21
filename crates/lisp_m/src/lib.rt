//! The reader and the printer of terms with lists: arguments in square brackets, lists in round ones.
#![tactic(auto)]

mod mentions;
mod place;
mod read;
mod scan;
mod write;

pub use read::{read_pattern, read_term};
pub use scan::skip_term;
pub use write::write_term;
pub use written_terms::ReadError;
