//! Laws of six machines that go on in step with a state, and of the bytes that they hand out. Each is
//! the contract of a function with an empty body.
ghost use Rattle.cell_resume.specs.Laws.{NoResumedMachineIsRefused, ResumedMachinesStayInStep};
ghost use Rattle.cell_resume.specs.Laws.{MachinesAreInStep};
ghost use Rattle.cell_parts.specs.Axes.{CellScales};
ghost use Rattle.cell_resume.specs.GoingOn.{MachinesGoOn};
ghost use Rattle.cell_resume.specs.Figures.{FigureRows};
ghost use Rattle.cell_resume.specs.TestExamples.{TestsAreMet};

/// From each state with which six machines are in step, in each legal history in which each has
/// come by its own events to a step of its program, whatever the order of the calls and whatever
/// the watch does: the next call of each machine is done, or shows a zone, or is refused only with
/// what its step waits for, or as worn.
pub fn no_resumed_machine_is_refused()
    ensures { NoResumedMachineIsRefused }
{}

/// In such a history each machine stays in step with the state. So what is handed out after any of
/// its calls is taken back.
pub fn resumed_machines_stay_in_step()
    ensures { ResumedMachinesStayInStep }
{}

/// So it is in each legal history from a start.
pub fn machines_are_in_step()
    ensures { MachinesAreInStep }
{}

/// The same machine by machine, from each sound state with which all are in step, and from a start:
/// each stays in step, and its next call is refused only as worn, or with what its step waits for.
pub fn machines_go_on()
    ensures { (c : CellScales) → MachinesGoOn c }
{}

/// What the bytes mean, in figures: the number of each step of each machine, and the fourteen bytes
/// of three states with their steps. So bytes that one version of the program has handed out are
/// taken back by each later one, and mean the same.
pub fn checkpoints_by_figures()
    ensures { FigureRows }
{}

/// The test of six machines, in figures: each machine's number may name no step, or one that isn't
/// in step with the state, and the first such machine is told. A program that may go on begins
/// where it stood.
#[tactic(auto, using(crate::proofs::TestsHold::tests_hold))]
pub fn tests_by_figures()
    ensures { TestsAreMet }
{}
