//! Answers scripts: `replay` reads the bytes of a script and writes the bytes of its answers.
#![tactic(auto)]

mod answers;
mod buffered;
pub mod fault;
pub mod laws;
mod lent;
mod limited;
mod records;
pub mod replay_script;
mod request;
mod script_start;
mod version;

pub use csv_rows::{MAX_RECORDS, Outcome, ScriptFault};
pub use fault::ReplayFault;
pub use limited::MAX_BYTES;
pub use replay_script::replay;
pub use version::Version;
