//! Doubles for tests: environments with given arguments, and readers and writers that fail or are
//! interrupted.
#![tactic(auto)]

pub mod failing;
pub mod given;
pub mod interrupted;
pub mod parts;

pub use failing::{FailingReader, FailingWriter};
pub use given::Given;
pub use interrupted::{Failure, InterruptedReader, InterruptedWriter};
pub use parts::{arguments_between, arguments_in, bytes_in, count_parts, part, words_in};
