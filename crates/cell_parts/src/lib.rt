//! The parts of the plant: axes, belts, motors, magnets and sensors of the production cell. Also
//! its collisions, and what its positions and motors demand of the interlock.
#![tactic(auto)]

pub mod axis;
pub mod belt;
pub mod laws;
pub mod parts;
pub mod plant;
mod potentiometer;

pub use axis::Axis;
pub use belt::Belt;
pub use parts::{CranePart, DepositPart, FeedPart, PressPart, RobotPart, TablePart};
pub use plant::{CranePlant, PlantState, RobotPlant, TablePlant};
