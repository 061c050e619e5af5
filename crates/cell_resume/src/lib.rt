//! Going on after a power cut: the interlock's word and the step of each machine are handed out
//! after a turn, and taken back after a test.
#![tactic(auto)]

pub mod checkpoint;
pub mod crane;
pub mod deposit;
pub mod fault;
pub mod feed;
pub mod laws;
pub mod press;
pub mod resumable;
pub mod resume;
pub mod resuming;
pub mod robot;
pub mod table;

pub use cell_team::Team;
pub use checkpoint::{Checkpoint, CheckpointBytes};
pub use fault::ResumeFault;
pub use resumable::{Resumable, Resumed};
pub use resume::resume_at;
pub use resuming::ResumedCell;
