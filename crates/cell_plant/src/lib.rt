//! The whole cell, and a simulation of it.
#![tactic(auto)]

pub mod cell;
pub mod frame;
pub mod laws;
mod notebooks;
pub mod observer;
pub mod simulation;
pub mod watch;

pub use cell::{Cell, CraneUnit, DepositUnit, FeedUnit, PressUnit, RobotUnit, TableUnit};
pub use cell_notes::{Counts, RunRecord, Status, Turn};
pub use cell_unit::SimFault;
pub use frame::{Frame, MachineSteps};
pub use observer::{NoObserver, Observer, SeenFault};
pub use simulation::{simulate, simulate_observed};
pub use watch::{WatchPart, WatchProgram, WatchProgress, WatchUnit};
