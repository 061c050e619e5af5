//! What the program of the production cell does. Its words say whether it replays a script,
//! simulates the cell, or runs it by six workers.
#![tactic(auto)]

pub mod laws;
pub mod reporting;
pub mod serve;
pub mod serve_replay;
pub mod serve_run;
pub mod serve_sim;
pub mod start;
