//! The production cell as a plant with a plan, in laws: its own interlock only refuses more.
#![tactic(auto)]

pub mod laws;
