//! `ei`, the equation interpreter: it reads equations from a file and terms from its input, and prints their
//! normal forms.
#![tactic(auto)]

mod answer;
mod definitions;
mod dots;
mod gap;
mod laws;
mod line;
mod loading;
mod outcome;
mod positions;
mod reading;
mod ready;
mod restrictions;
mod run;
mod settings;
mod status;
mod stop;
mod taking;
mod telling;
mod top_call;

pub use laws::{lines_are_right, one_answer_is_due, one_thing_is_due};
pub use loading::load;
pub use outcome::Outcome;
pub use ready::Ready;
pub use settings::Settings;
pub use status::Status;
pub use stop::Stop;
pub use top_call::{answer_terms, ei};
