//! Where the six machines stand.

use cell_belts_crane::{CraneProgress, DepositProgress, FeedProgress};
use cell_robot::RobotProgress;
use cell_table_press::{PressProgress, TableProgress};

/// The step of each machine, with its notes.
#[derive(Clone, Copy)]
pub struct Team {
    /// The feed belt's step.
    pub feed: FeedProgress,
    /// The table's step.
    pub table: TableProgress,
    /// The robot's step.
    pub robot: RobotProgress,
    /// The press's step.
    pub press: PressProgress,
    /// The deposit belt's step.
    pub deposit: DepositProgress,
    /// The crane's step.
    pub crane: CraneProgress,
}
