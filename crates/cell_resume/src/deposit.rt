//! The deposit belt: the test of its step, and the step that a number names.

ghost use Rattle.std.specs.Prelude.{◌≡◌, true, Some, slice_get};
ghost use Rattle.cell_types.specs.declared.machine.Machine.TheVariants as machine;
ghost use Rattle.cell_rules.specs.ModelState.{ModelState};
ghost use Rattle.cell_resume.specs.Testing.{tested};
ghost use Rattle.cell_resume.specs.DepositKeeps as keeps;

use crate::fault::ResumeFault;
use crate::resumable::Resumable;
use cell_belts_crane::{DepositProgram, DepositProgress, DepositStep};
use cell_rules::State;
use cell_types::{Machine, Place};

/// The step with this number, with its notes, if it is in step with a state.
///
/// `NoStep` if no step has the number; `NotInStep` if the step isn't in step with the state.
pub fn test(number: u8, state: &State) -> Result<DepositProgress, ResumeFault>
    ensures { result ≡ tested machine.Deposit (keeps.progress_at number state.now)
        (λ p. keeps.in_step p state.now) }
{
    match progress_at(number, state) {
        Some(progress) if is_in_step(progress, state) => Ok(progress),
        Some(_) => Err(ResumeFault::NotInStep(Machine::Deposit)),
        None => Err(ResumeFault::NoStep(Machine::Deposit)),
    }
}

/// Whether the step is in step with a state.
pub fn is_in_step(progress: DepositProgress, state: &State) -> bool
    ensures { result ≡ keeps.in_step progress state.now }
{
    progress.is_in_step(state)
}

/// The number of a step. Its notes are told by a state that is in step with it.
pub fn number(progress: DepositProgress) -> u8
    ensures step { slice_get keeps.steps result ≡ Some progress.step }
    ensures in_step { (s : ModelState) → keeps.in_step progress s ≡ true
        → keeps.progress_at result s ≡ Some progress }
{
    progress.step.number()
}

/// The step with this number, with its notes by a state; `None` if no step has it.
pub fn progress_at(number: u8, state: &State) -> Option<DepositProgress>
    ensures { result ≡ keeps.progress_at number state.now }
{
    let step = DepositStep::with_number(number)?;
    Some(DepositProgress {
        step,
        entry: state.is_full(Place::DepEntry),
        last: state.is_full(Place::DepEnd),
    })
}

impl Resumable for DepositProgram {
    ghost use Rattle.cell_belts_crane.specs.DepositProgram.{in_step};
    ghost use Rattle.cell_belts_crane.proofs.lemmas.DepositFacts.{DepositKnows};

    ghost in_step = { in_step };

    ghost knows = { DepositKnows };

    fn is_in_step(progress: DepositProgress, state: &State) -> bool {
        is_in_step(progress, state)
    }

    fn meets_demands(&self) {}
}
