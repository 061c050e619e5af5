//! Six workers over one interlock, whose machines are those of a cell, and laws of their records.
#![tactic(auto)]

pub mod laws;
pub mod run;

pub use cell_threads::{
    Gate, NoWatch, OpenGate, PacedGate, RunFault, SixOf, SixRecord, UnitOutput, Watching, Worker,
    WorkerResult, run_watched, run_workers,
};
pub use run::run_cell;
