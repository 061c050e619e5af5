//! The sequential interlock of any plant, by its plan: states, answers, and the laws of every history.
#![tactic(auto)]

mod answers;
pub mod examples;
pub mod laws;
mod refusals;
pub mod state;

pub use answers::{answer, apply};
pub use state::{LAST_STAMP, State, ZoneState};
