//! What an input is read as: terms, one after another.
#![tactic(auto)]

pub mod laws;
mod notation;
mod source_state;
mod stream;

pub use notation::{read_term, write_term};
pub use source_state::SourceState;
pub use stream::Stream;
