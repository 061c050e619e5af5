//! Plans in TOML documents: from a document to a plan with names and programs, or to the first fault with its line.
#![tactic(auto)]

mod copying;
pub mod document;
pub mod fault;
mod fault_words;
mod first;
pub mod laws;
mod lines;
mod locating;
mod motors;
mod naming;
mod parts;
mod plant_faults;
mod plant_programs;
mod plant_tables;
pub mod plants;
mod programs;
mod reading;
mod refusals;
mod resolving;
mod row_kinds;
mod row_names;
mod sensors;
mod tables;
mod values;
mod zones;

pub use document::{
    Document, HazardRow, MachineRow, MotorRow, PoseRow, PostureRow, WayRow, ZoneRow,
};
pub use fault::{
    DocumentFault, Key, Location, PlanTextFault, RowNames, RowOf, TooWide, WayEnd, Wrong,
    WrongPair, WrongText,
};
pub use motors::NamedMotors;
pub use plants::ProgrammedPlant;
pub use reading::{MAX_BYTES, plan_of, plant_of, read_plan};
pub use resolving::ProgrammedPlan;
