//! The interlock for programs in C: calls on the word of a state, with a number for each name.
//! `bindings/bagunjoki.h` declares the functions, and has the loop over a shared word.
#![tactic(auto)]

mod calls;
mod exports;
pub mod laws;
mod numbers;
mod reply;
#[cfg(test)]
mod tests;
