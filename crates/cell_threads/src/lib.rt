//! Any six workers over one interlock, each in a thread of its own, and their watch.
#![tactic(auto)]

pub mod fault;
pub mod gate;
pub mod laws;
pub mod paced;
pub mod six;
pub mod six_of;
mod start;
mod take_turns;
mod threads;
pub mod watching;
pub mod worker;
pub mod worker_result;

pub use fault::RunFault;
pub use gate::{Gate, OpenGate};
pub use paced::PacedGate;
pub use six::{SixRecord, run_watched, run_workers};
pub use six_of::SixOf;
pub use watching::{NoWatch, Watching};
pub use worker::Worker;
pub use worker_result::{UnitOutput, WorkerResult};
