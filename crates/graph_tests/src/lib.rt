//! Tests of the crates on which the machine stands.
#![tactic(auto)]

#[cfg(test)]
mod stores;
#[cfg(test)]
mod tables;
