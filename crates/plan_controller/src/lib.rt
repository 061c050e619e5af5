//! The controller of any machine of a plan: it goes through the machine's program, a step a turn.
#![tactic(auto)]

pub mod bench;
pub mod controller;
pub mod examples;
pub mod faults;
pub mod laws;
pub mod line;
pub mod outcome;
pub mod step;
pub mod wired;

pub use bench::PlanBench;
pub use controller::{PlanController, TakenTurn};
pub use faults::{Faults, Mendable};
pub use line::PlanLine;
pub use outcome::Outcome;
pub use step::{Step, lines_of};
pub use wired::PlanWired;
