//! The input and the record of a run: the turns of a schedule, each machine's counts and journal,
//! and each machine's status at the end.
#![tactic(auto)]

pub mod by_machine;
pub mod counts;
pub mod laws;
pub mod notebook;
pub mod run_record;
pub mod schedule;
pub mod status;
pub mod turn_call;

pub use by_machine::ByMachine;
pub use counts::Counts;
pub use notebook::Notebook;
pub use run_record::RunRecord;
pub use schedule::Turn;
pub use status::Status;
pub use turn_call::{TurnCall, done_event};
