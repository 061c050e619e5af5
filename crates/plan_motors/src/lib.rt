//! Motors of a plan, and parts that stand somewhere: when a state permits one, and whether two exclude each other.
#![tactic(auto)]

mod check;
mod entering;
pub mod examples;
pub mod exclusion;
pub mod fault;
pub mod laws;
pub mod mask;
pub mod motor;
pub mod motor_plan;
pub mod poses;
pub mod verdict;

pub use check::{MAX_MOTORS, motors_and_hazards_fault};
pub use exclusion::{Cause, Exclusion, exclude};
pub use fault::MotorFault;
pub use mask::{MotorMask, is_permitted_in, permitted_motors};
pub use motor::{Hazard, Motor, NO_NEED, ZoneNeed};
pub use motor_plan::MotorPlan;
pub use poses::apart_by_poses;
pub use verdict::{Verdict, judge};
