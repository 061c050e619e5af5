//! Calibrated sensors of the production cell: positions from raw values, by a closure that stays
//! near a line, such as a curve through measured pairs, and the fourteen sensors by machine.
#![tactic(auto)]

pub mod calibration;
pub mod curve;
pub mod gauge;
pub mod laws;
pub mod line;
pub mod points;
pub mod potentiometers;
pub mod sense;

pub use calibration::{Calibration, curve_reading, line_reading};
pub use curve::{Curve, CurveFault, MAX_PAIRS};
pub use gauge::Gauge;
pub use line::position_on_line;
pub use points::{Points, PointsFault};
pub use potentiometers::{ByPotentiometer, RobotPoints};
pub use sense::{
    CraneSense, DepositSense, FeedSense, PressSense, RobotSense, SensorFault, SensorVector,
    TableSense, switches_agree,
};
