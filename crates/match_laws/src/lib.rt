//! What item sets mean: which left sides may still be met while a term is read in preorder.
#![tactic(auto)]

pub mod laws;
