//! The restrictions on equations one by one and two by two: RE1 to RE4.
#![tactic(auto)]

pub mod breaks;
pub mod common;
pub mod facing;
pub mod laws;
mod merge;
pub mod pairs;
pub mod single;
pub mod well_formed;

pub use breaks::{Break, Breaks};
pub use common::has_common;
pub use facing::{Facing, facing_of};
pub use pairs::{is_tested, overlaps};
pub use single::{check_single, tell_singles};
pub use well_formed::{MOST_CLASSES, are_well_formed};
