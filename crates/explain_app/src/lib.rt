//! Explains why `cell` refuses a script or a configuration, in words. It prints nothing exactly if
//! `cell` accepts the input.
#![tactic(auto)]

pub mod explain;
pub mod laws;
mod report;
pub mod serve;
mod sink;
pub mod verdict;

pub use explain::{explain_configuration, explain_script};
pub use verdict::Verdict;
