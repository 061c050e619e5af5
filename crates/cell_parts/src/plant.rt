//! The plant as plain data: the positions of its axes and plates, and the last commands to its
//! motors, belts and magnets.

use crate::axis::Axis;
use crate::belt::Belt;

/// The table: its height and its rotation.
#[derive(Clone, Copy, Debug, PartialEq, Eq)]
pub struct TablePlant {
    /// Its height.
    pub lift: Axis,
    /// Its rotation.
    pub turn: Axis,
}

/// The robot: its arms, its rotation, and whether the magnets of its arms are on.
#[derive(Clone, Copy, Debug, PartialEq, Eq)]
pub struct RobotPlant {
    /// The first arm's extension.
    pub arm1: Axis,
    /// The second arm's extension.
    pub arm2: Axis,
    /// Its rotation.
    pub rotation: Axis,
    /// Whether the first arm's magnet is on.
    pub magnet1: bool,
    /// Whether the second arm's magnet is on.
    pub magnet2: bool,
}

/// The crane: its travel, the height of its gripper, and whether the gripper's magnet is on.
#[derive(Clone, Copy, Debug, PartialEq, Eq)]
pub struct CranePlant {
    /// Its distance from the deposit belt.
    pub travel: Axis,
    /// The gripper's height.
    pub gripper: Axis,
    /// Whether the gripper's magnet is on.
    pub magnet: bool,
}

/// The whole plant.
#[derive(Clone, Copy, Debug, PartialEq, Eq)]
pub struct PlantState {
    /// The feed belt.
    pub feed: Belt,
    /// The table.
    pub table: TablePlant,
    /// The robot.
    pub robot: RobotPlant,
    /// The press.
    pub press: Axis,
    /// The deposit belt.
    pub deposit: Belt,
    /// The crane.
    pub crane: CranePlant,
}
