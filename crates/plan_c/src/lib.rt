//! The interlock of any plan for programs in C: calls on the word of a state, by a plan that was opened once.
//! `bindings/bagunjoki_plan.h` declares the functions, and has the loop over a shared word.
#![tactic(auto)]

mod by_plan;
mod calls;
mod exports;
mod faults;
pub mod laws;
mod line;
mod opened;
mod places;
mod reply;
mod resume;
#[cfg(test)]
mod tests;
mod turn;
