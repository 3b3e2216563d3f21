//! The machine that reduces a term on the shared graph, and goes on from where it stood.
#![tactic(auto)]

mod machine;

pub use machine::Machine;
