//! The word of a plan: which bits of 64 tell which part of a state, and calls on such words.
#![tactic(auto)]

mod answer;
mod bits;
mod codes;
mod guards;
pub mod laws;
pub mod layout;
mod pose_guards;
mod sound;
mod step;
mod word;

pub use answer::answer_word;
pub use codes::{can_have, code_of, zone_code, zone_of_code};
pub use layout::{Field, Layout};
pub use sound::is_lawful_zone;
pub use step::{step_state_word, step_word};
pub use word::{pack, stamp_of, unpack};
