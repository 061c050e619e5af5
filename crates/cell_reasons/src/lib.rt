//! What is wrong with a script or a configuration that is refused, in words. No contract says anything of the words.
#![tactic(auto)]

mod call_words;
pub mod config_words;
mod fields;
mod nearest;
mod quoted;
mod records;
pub mod script_words;
mod section_words;
mod source;
mod start_words;
mod unknown_keys;
