//! The whole cell: its six machines.

ghost use Rattle.std.specs.Prelude.{◌≡◌};
ghost use Rattle.cell_unit.specs.Sides.{side_of};
ghost use Rattle.cell_plant.specs.Cells.{IsMadeFor, cell_scales};
ghost use Rattle.cell_plant.specs.CellStates.{sides_at_start};

use cell_belts_crane::{CraneProgram, DepositProgram, FeedProgram};
use cell_control::Controller;
use cell_parts::{CranePart, DepositPart, FeedPart, PressPart, RobotPart, TablePart};
use cell_robot::RobotProgram;
use cell_rules::State;
use cell_sensors::{Calibration, Gauge, RobotPoints};
use cell_table_press::{PressProgram, TableProgram};
use cell_unit::MachineUnit;

/// The feed belt.
pub type FeedUnit = MachineUnit<FeedProgram, FeedPart>;

/// The table.
pub type TableUnit<F> = MachineUnit<TableProgram<F>, TablePart>;

/// The robot.
pub type RobotUnit<F1, F2, F3> = MachineUnit<RobotProgram<F1, F2, F3>, RobotPart>;

/// The press.
pub type PressUnit = MachineUnit<PressProgram, PressPart>;

/// The deposit belt.
pub type DepositUnit = MachineUnit<DepositProgram, DepositPart>;

/// The crane.
pub type CraneUnit<F> = MachineUnit<CraneProgram<F>, CranePart>;

/// The six machines of the cell, each with its controller and its part.
#[derive(Drop)]
pub struct Cell<F1: Gauge, F2: Gauge, F3: Gauge, F4: Gauge, F5: Gauge> {
    /// The feed belt.
    pub feed: FeedUnit,
    /// The table, with the calibration of its rotation.
    pub table: TableUnit<F4>,
    /// The robot, with the calibrations of its first arm, its second arm and its rotation.
    pub robot: RobotUnit<F1, F2, F3>,
    /// The press.
    pub press: PressUnit,
    /// The deposit belt.
    pub deposit: DepositUnit,
    /// The crane, with the calibration of its gripper's height.
    pub crane: CraneUnit<F5>,
}

impl<F1: Gauge, F2: Gauge, F3: Gauge, F4: Gauge, F5: Gauge> Cell<F1, F2, F3, F4, F5> {
    /// The cell at its start, with a plate at each place that is full in the state. The
    /// calibrations are for the first arm, the second arm, the robot's rotation, the table's
    /// rotation and the gripper's height.
    pub fn new(
        state: &State,
        arm1: Calibration<F1>,
        arm2: Calibration<F2>,
        rotation: Calibration<F3>,
        turn: Calibration<F4>,
        gripper: Calibration<F5>,
    ) -> Cell<F1, F2, F3, F4, F5>
        ensures made { IsMadeFor state.now result }
        ensures scales { cell_scales result ≡ record {
          arm1 = arm1.points;
          arm2 = arm2.points;
          rotation = rotation.points;
          turn = turn.points;
          gripper = gripper.points;
        } }
        ensures arm1 { result.robot.controller.program.arm1 ≡ arm1 }
        ensures arm2 { result.robot.controller.program.arm2 ≡ arm2 }
        ensures rotation { result.robot.controller.program.rotation ≡ rotation }
        ensures turn { result.table.controller.program.turn ≡ turn }
        ensures gripper { result.crane.controller.program.gripper ≡ gripper }
    {
        Cell {
            feed: MachineUnit {
                controller: Controller::new(state, FeedProgram),
                part: FeedPart::start(state),
            },
            table: table_at_start(state, turn),
            robot: robot_at_start(state, arm1, arm2, rotation),
            press: MachineUnit {
                controller: Controller::new(state, PressProgram),
                part: PressPart::start(),
            },
            deposit: MachineUnit {
                controller: Controller::new(state, DepositProgram),
                part: DepositPart::start(state),
            },
            crane: crane_at_start(state, gripper),
        }
    }
}

// The table at its start.
fn table_at_start<F: Gauge>(state: &State, turn: Calibration<F>) -> TableUnit<F>
    ensures side { side_of result.controller.progress result.controller.stopped result.part.plant
        ≡ (sides_at_start state.now).table }
    ensures turn { result.controller.program.turn ≡ turn }
    ensures scale { result.part.scale ≡ turn.points }
{
    let part = TablePart::start(turn.points());
    MachineUnit {
        controller: Controller::new(state, TableProgram::new(turn)),
        part,
    }
}

// The robot at its start.
fn robot_at_start<F1: Gauge, F2: Gauge, F3: Gauge>(
    state: &State,
    arm1: Calibration<F1>,
    arm2: Calibration<F2>,
    rotation: Calibration<F3>,
) -> RobotUnit<F1, F2, F3>
    ensures side { side_of result.controller.progress result.controller.stopped result.part.plant
        ≡ (sides_at_start state.now).robot }
    ensures arm1 { result.controller.program.arm1 ≡ arm1 }
    ensures arm2 { result.controller.program.arm2 ≡ arm2 }
    ensures rotation { result.controller.program.rotation ≡ rotation }
    ensures scale { result.part.scale ≡ record { arm1 = arm1.points; arm2 = arm2.points; rotation = rotation.points } }
{
    let points = RobotPoints {
        arm1: arm1.points(),
        arm2: arm2.points(),
        rotation: rotation.points(),
    };
    MachineUnit {
        controller: Controller::new(state, RobotProgram::new(arm1, arm2, rotation)),
        part: RobotPart::start(state, points),
    }
}

// The crane at its start.
fn crane_at_start<F: Gauge>(state: &State, gripper: Calibration<F>) -> CraneUnit<F>
    ensures side { side_of result.controller.progress result.controller.stopped result.part.plant
        ≡ (sides_at_start state.now).crane }
    ensures gripper { result.controller.program.gripper ≡ gripper }
    ensures scale { result.part.scale ≡ gripper.points }
{
    let part = CranePart::start(state, gripper.points());
    MachineUnit {
        controller: Controller::new(state, CraneProgram::new(gripper)),
        part,
    }
}
