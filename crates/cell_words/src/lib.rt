//! The words that the program of the production cell was started with, and what they ask for.
#![tactic(auto)]

mod help;
pub mod laws;
pub mod refusal;
pub mod words;

pub use program_shell::words_of;
pub use refusal::{refuse, refuse_in_own_words};
pub use words::{Mode, RunFlags, read_flags, read_words};
