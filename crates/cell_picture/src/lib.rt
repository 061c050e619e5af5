//! A picture of a run that loops: SVG whose animated attributes have a column of values each.
#![tactic(auto)]

pub mod frames;
pub mod laws;
pub mod picture;
mod pieces;
mod plates;
mod ramp;
mod span;
mod values;

pub use frames::LoopFrames;
pub use picture::loop_picture;
