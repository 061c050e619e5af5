//! Records runs of the cell by six threads: each run's history is written as a script.
#![tactic(auto)]

pub mod history;
pub mod laws;
pub mod record;
pub mod scripts;
pub mod serve;

pub use scripts::script_of;
