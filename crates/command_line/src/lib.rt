//! The words of the program: options and operands, and what they ask for.
#![tactic(auto)]

mod given;
mod laws;
mod part;
mod task;
mod words;

pub use laws::words_ask_once;
pub use task::{Asked, Mode, Task};
pub use words::read_words;
