// Tests of the watches, over events that are made by hand.
#![tactic(auto)]

#[cfg(test)]
mod watches;
