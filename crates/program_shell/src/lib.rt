//! The shell of the programs: their words, how they end, what they print of faults, and their version.
#![tactic(auto)]

pub mod asked;
pub mod exit;
pub mod faults;
pub mod laws;
pub mod printing;
pub mod version;
pub mod words;

pub use asked::{Asked, asked_of};
pub use exit::Exit;
pub use faults::{fail, write_fault};
pub use printing::print;
pub use version::{VERSION, asks_for_version, print_version};
pub use words::{
    NOT_TEXT, refuse_bytes, refuse_words, texts_of, texts_or_exit, words_of, words_or_exit,
};
