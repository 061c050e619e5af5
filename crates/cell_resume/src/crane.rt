//! The crane: the test of its step, and the step that a number names.

ghost use Rattle.std.specs.Prelude.{◌≡◌, true, Some, slice_get};
ghost use Rattle.cell_types.specs.declared.machine.Machine.TheVariants as machine;
ghost use Rattle.cell_rules.specs.ModelState.{ModelState};
ghost use Rattle.cell_resume.specs.Testing.{tested};
ghost use Rattle.cell_resume.specs.CraneKeeps as keeps;

use crate::fault::ResumeFault;
use crate::resumable::Resumable;
use cell_belts_crane::{CraneProgram, CraneProgress, CraneStep};
use cell_rules::State;
use cell_sensors::Gauge;
use cell_types::Machine;

/// The step with this number, with its notes, if it is in step with a state.
///
/// `NoStep` if no step has the number; `NotInStep` if the step isn't in step with the state.
pub fn test(number: u8, state: &State) -> Result<CraneProgress, ResumeFault>
    ensures { result ≡ tested machine.Crane (keeps.progress_at number)
        (λ p. keeps.in_step p state.now) }
{
    match progress_at(number) {
        Some(progress) if is_in_step(progress, state) => Ok(progress),
        Some(_) => Err(ResumeFault::NotInStep(Machine::Crane)),
        None => Err(ResumeFault::NoStep(Machine::Crane)),
    }
}

/// Whether the step is in step with a state.
pub fn is_in_step(progress: CraneProgress, state: &State) -> bool
    ensures { result ≡ keeps.in_step progress state.now }
{
    progress.is_in_step(state)
}

/// The number of a step. Its note follows from the step, where it is in step with a state.
pub fn number(progress: CraneProgress) -> u8
    ensures step { slice_get keeps.steps result ≡ Some progress.step }
    ensures in_step { (s : ModelState) → keeps.in_step progress s ≡ true
        → keeps.progress_at result ≡ Some progress }
{
    progress.step.number()
}

/// The step with this number, with its note; `None` if no step has it.
pub fn progress_at(number: u8) -> Option<CraneProgress>
    ensures { result ≡ keeps.progress_at number }
{
    let step = CraneStep::with_number(number)?;
    Some(CraneProgress {
        step,
        magnet: step.keeps().magnet,
    })
}

impl<F: Gauge> Resumable for CraneProgram<F> {
    ghost use Rattle.cell_belts_crane.specs.CraneProgram.{in_step};
    ghost use Rattle.cell_belts_crane.proofs.lemmas.CraneFacts.{CraneKnows};

    ghost in_step = { in_step };

    ghost knows = { CraneKnows };

    fn is_in_step(progress: CraneProgress, state: &State) -> bool {
        is_in_step(progress, state)
    }

    fn meets_demands(&self) {}
}
