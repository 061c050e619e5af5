//! The controller of the robot.
#![tactic(auto)]

pub mod laws;
pub mod robot;
pub mod share;

pub use cell_control::CtlFault;
pub use robot::{
    RobotCtl, RobotMagnets, RobotNotes, RobotProgram, RobotProgress, RobotReading, RobotStep,
};
pub use share::{Grip, RobotPlates, RobotShare};
