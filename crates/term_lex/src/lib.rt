//! Tokens: the words of a text, with their places and the faults of their spelling.
#![tactic(auto)]

mod fault;
mod numeral;
mod scan;
mod string;
mod syntax;
mod token;

pub use fault::{Fault, FaultKind, misplaced};
pub use numeral::numeral_value;
pub use scan::{gap_len, next_token};
pub use string::string_value;
pub use syntax::Syntax;
pub use token::{Token, TokenKind};
