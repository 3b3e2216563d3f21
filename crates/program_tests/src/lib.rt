//! Tests of the program: the worked rows, its command line, failing ports, limits, and hostile texts.
#![tactic(auto)]

#[cfg(test)]
mod hostile;
#[cfg(test)]
mod limits;
#[cfg(test)]
mod rows;
#[cfg(test)]
mod samples;
