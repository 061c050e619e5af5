//! The cell that a configuration describes: a closure over each of its curves, and its simulation.
#![tactic(auto)]

pub mod gauges;
pub mod laws;
pub mod simulation;

pub use gauges::cell_with_gauges;
pub use simulation::{simulate_configured, simulate_configured_observed};
