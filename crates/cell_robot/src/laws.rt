//! Laws of the program, row by row. Each is the contract of a function with an empty body.
ghost use Rattle.cell_robot.specs.KeepExamples.{KeepsAreMet};
ghost use Rattle.cell_robot.specs.RobotExamples.{RobotRowsAreMet};

/// The rows of the robot's program, by examples: its start, by the places that are full; for each
/// step and each state of its notes, what it asks, exactly the refusals on which it stays, and the
/// next step; its motors at the last reading that is far enough, at the first that isn't, and while
/// an arm may be out; its magnets; which sensors can't be used; and what a motor demands.
pub fn robot_rows_are_met()
    ensures { RobotRowsAreMet }
{}

/// What the robot keeps at each step, which a checkpoint is tested by: of each zone whether it is the
/// robot's, whether a plate is on its way there, and its posture; its plates and its magnets.
pub fn keeps_are_met()
    ensures { KeepsAreMet }
{}
