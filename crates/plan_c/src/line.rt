//! The lines of a program, as C has them, and their steps.
ghost use Rattle.std.specs.Prelude.{◌≡◌, ◌↔◌, ◌≤◌, List, Some, None, IsSome, length};
ghost use Rattle.plan_controller.specs.declared.step.Step.{Step as PlanStep};
ghost use Rattle.plan_c.specs.Lines.{row_of, HasStep, NoStep};

use crate::calls::call_with;
use crate::faults::faults_with;
use plan_controller::Step;

/// The kind of a line that awaits a zone.
const AWAIT: u8 = 16;

/// The kind of a line that runs motors.
const RUN: u8 = 17;

/// The most lines that a program has.
pub(crate) const MAX_LINES: usize = 255;

/// A line of a machine's program.
#[repr(C)]
#[derive(Clone, Copy)]
pub struct ProgramLine {
    /// The motors of a run, those of the plan that have a bit here; otherwise 0.
    pub motors: u64,
    /// The verb of a call, `AWAIT` or `RUN`.
    pub kind: u8,
    /// The object of a call, or the zone that is awaited; otherwise 0.
    pub object: u8,
    /// The sensor until which motors run; otherwise 0.
    pub until: u8,
    /// The refusals that stop the machine at a call, though others' calls may mend them: of each the bit of its number.
    pub faults: u16,
}

/// The step of a line, or `None` if the line is no step's.
pub(crate) fn step_of(line: ProgramLine) -> Option<Step>
    ensures { (step : PlanStep) → (result ≡ Some step) ↔ (line ≡ row_of step) }
{
    match (line.kind, line.motors, line.object, line.until, line.faults) {
        (RUN, motors, 0, until, 0) => Some(Step::Run { motors, until }),
        (AWAIT, 0, zone, 0, 0) => Some(Step::Await(zone)),
        (verb, 0, object, 0, bits) => {
            let call = call_with(verb, object)?;
            let faults = faults_with(bits)?;
            Some(Step::Do(call, faults))
        }
        _ => None,
    }
}

/// The step at a line of a program. `None` if the line is past the program's end, or no step's, or if the program has
/// too many lines.
pub(crate) fn step_at(program: &[ProgramLine], line: u8) -> Option<Step>
    ensures step { (steps : List PlanStep) → (has : HasStep program.now steps line)
        → result ≡ Some has.step }
    ensures no_step { NoStep program.now line → result ≡ None }
    ensures at_most { IsSome result → length program.now ≤ 255 }
{
    match program.get(usize::from(line)) {
        Some(row) if program.len() <= MAX_LINES => step_of(*row),
        _ => None,
    }
}
