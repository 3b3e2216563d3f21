// Watches: objects of the caller's that are told of each replacement, and what they report.
#![tactic(auto)]

mod boxes;
mod event;
pub mod laws;
mod profile;
mod sizes;
mod text;
mod trace;
mod watch;

pub use boxes::{clear_each, named, report_each, tell};
pub use event::Event;
pub use profile::Profile;
pub use sizes::Sizes;
pub use trace::Trace;
pub use watch::Watch;
