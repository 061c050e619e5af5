//! The two traits of a machine, its program and its part; the controller that performs any machine's
//! program, step by step; and the controller at the end of its line.
#![tactic(auto)]

pub mod commands;
pub mod controller;
pub mod fault;
pub mod laws;
pub mod part;
pub mod program;
pub mod row;
pub mod share;
pub mod unwired;
pub mod wired;

pub use commands::Commands;
pub use controller::{Controller, TakenTurn};
pub use fault::CtlFault;
pub use part::{Part, PartSensors, Sensors, Values};
pub use program::Program;
pub use row::{Row, Waits};
pub use share::{Share, ZoneShare, are_kept};
pub use unwired::Unwired;
pub use wired::Wired;
