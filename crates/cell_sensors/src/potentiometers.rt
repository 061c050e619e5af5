//! The potentiometers of the cell: a value for each of the five, and the points of the robot's three.

use crate::points::Points;

/// A value for each potentiometer of the cell.
#[derive(Clone, Copy, Debug, Drop, PartialEq, Eq)]
pub struct ByPotentiometer<T> {
    /// That of the first arm's extension.
    pub arm1: T,
    /// That of the second arm's extension.
    pub arm2: T,
    /// That of the robot's rotation.
    pub rotation: T,
    /// That of the table's rotation.
    pub turn: T,
    /// That of the gripper's height.
    pub gripper: T,
}

/// The points of the robot's potentiometers.
#[derive(Clone, Copy, Debug, PartialEq, Eq)]
pub struct RobotPoints {
    /// Of the first arm's extension.
    pub arm1: Points,
    /// Of the second arm's extension.
    pub arm2: Points,
    /// Of the rotation.
    pub rotation: Points,
}
