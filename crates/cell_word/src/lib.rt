//! A state of the interlock as one 64-bit word, for an atomic that is exchanged as a whole.
#![tactic(auto)]

mod bits;
mod changes;
mod codes;
mod guards;
pub mod laws;
mod parties;
mod patterns;
mod pose_guards;
mod state_words;
mod step;
mod word;

pub use changes::masks;
pub use step::{step_state_word, step_word};
pub use word::{pack, stamp_of, unpack};
