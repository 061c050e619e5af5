//! The cell's motors, belts and magnets by its plan, and its collisions between machines as hazards.
#![tactic(auto)]

ghost use Rattle.plan_cell_motors.specs.CellMotors.{CausesAreRight, CellHazards};
ghost use Rattle.plan_cell_motors.specs.Demands.{RowsSayDemands};
ghost use Rattle.plan_cell_motors.specs.DemandExamples.{RowExamples, RowsTell};

/// The rows fit the plan, so some state permits each and no other machine's call takes a permission away; and no sound
/// state permits both rows of a hazard.
pub fn cell_hazards_are_excluded()
    ensures { CellHazards }
{}

/// By which zone each hazard is excluded.
pub fn causes_are_right()
    ensures { CausesAreRight }
{}

/// The rows need what the plant demands of the interlock: of motors that are driven, belts that run, arms that are out
/// and a gripper that is down.
pub fn rows_say_demands()
    ensures { RowsSayDemands }
{}

/// Literal rows, and what the laws of rows and demands say, each by itself.
pub fn row_examples_are_right()
    ensures rows { RowExamples }
    ensures demands { RowsTell }
{}
