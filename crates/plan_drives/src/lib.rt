//! Programs with drives: which motors a machine may run at a line of its program, by its own done calls alone.
#![tactic(auto)]

mod check;
pub mod examples;
pub mod facts;
mod in_step;
pub mod laws;
pub mod line;
pub mod undriven;

pub use check::first_undriven;
pub use in_step::{first_out_of_step, is_in_step, is_known_in, opens_by_poses};
pub use line::Line;
pub use undriven::{Lack, Undriven};
