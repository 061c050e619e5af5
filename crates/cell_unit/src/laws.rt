//! Laws of a machine's status and turn. Each is the contract of a function with an empty body.
ghost use Rattle.cell_unit.specs.Sides.{unit_rig, unit_table};
ghost use Rattle.cell_unit.specs.UnitRows.{EachHasSideRows, EachHasUnitRows, StatusRows};

use crate::unit::MachineUnit;
use cell_control::{Part, Program};

/// The status of a machine, for each fault of its controller and for none.
pub fn status_by_faults()
    ensures { StatusRows }
{}

/// The effect of any machine's turn over any line, on its progress, its fault and its part: for
/// each answer, a call that is out of memory, a drive, sensors that can't be used, and a controller
/// that has stopped.
pub fn sides_by_answers<P: Program, B: Part<Sense = P::Sense, Act = P::Act>>(
    unit: &MachineUnit<P, B>,
)
    ensures { EachHasSideRows (unit_table P.steps unit.now) (unit_rig B.rig B.make unit.now) }
{}

/// The effect of any machine's turn over a bench, on the machine, the bench and the notebook, and
/// what it answers.
pub fn turns_at_a_bench<P: Program, B: Part<Sense = P::Sense, Act = P::Act>>(
    unit: &MachineUnit<P, B>,
)
    ensures { EachHasUnitRows (unit_table P.steps unit.now) (unit_rig B.rig B.make unit.now) }
{}
