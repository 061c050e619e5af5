//! What an observer is shown of a run.

use cell_belts_crane::{CraneStep, DepositStep, FeedStep};
use cell_notes::{ByMachine, Status, Turn, TurnCall};
use cell_parts::PlantState;
use cell_robot::RobotStep;
use cell_rules::State;
use cell_table_press::{PressStep, TableStep};

/// The step of each machine's program. The watch's has only one.
#[derive(Clone, Copy, PartialEq)]
pub struct MachineSteps {
    /// The feed belt's.
    pub feed: FeedStep,
    /// The table's.
    pub table: TableStep,
    /// The robot's.
    pub robot: RobotStep,
    /// The press's.
    pub press: PressStep,
    /// The deposit belt's.
    pub deposit: DepositStep,
    /// The crane's.
    pub crane: CraneStep,
}

/// The cell after a turn of a run, or at the run's start.
#[derive(Clone, Copy, PartialEq)]
pub struct Frame {
    /// The turn that led to it: whose it was, and whether it found the interlock busy. `None` at
    /// the start.
    pub turn: Option<Turn>,
    /// What the machine asked in that turn, and what came back; `None` if it asked nothing.
    pub asked: TurnCall,
    /// The step that each machine is at.
    pub steps: MachineSteps,
    /// Each machine's status.
    pub status: ByMachine<Status>,
    /// The interlock's state.
    pub state: State,
    /// The axes with their motors, the belts with their plates, and the magnets.
    pub plant: PlantState,
}
