//! Reads the records of a text, one at a time, by `csv`, and the numbers in them; and says how a script of records
//! ends.
#![tactic(auto)]

pub mod laws;
pub mod number;
pub mod reading;
pub mod script_end;

pub use number::{MAX_DIGITS, read_number};
pub use reading::read_row;
pub use script_end::{MAX_RECORDS, Outcome, ScriptFault, push_end};
