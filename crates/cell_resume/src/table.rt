//! The table: the test of its step, and the step that a number names.

ghost use Rattle.std.specs.Prelude.{◌≡◌, true, Some, slice_get};
ghost use Rattle.cell_types.specs.declared.machine.Machine.TheVariants as machine;
ghost use Rattle.cell_rules.specs.ModelState.{ModelState};
ghost use Rattle.cell_resume.specs.Testing.{tested};
ghost use Rattle.cell_resume.specs.TableKeeps as keeps;

use crate::fault::ResumeFault;
use crate::resumable::Resumable;
use cell_rules::State;
use cell_sensors::Gauge;
use cell_table_press::{TableProgram, TableProgress, TableStep};
use cell_types::{Machine, Place};

/// The step with this number, with its notes, if it is in step with a state.
///
/// `NoStep` if no step has the number; `NotInStep` if the step isn't in step with the state.
pub fn test(number: u8, state: &State) -> Result<TableProgress, ResumeFault>
    ensures { result ≡ tested machine.Table (keeps.progress_at number state.now)
        (λ p. keeps.in_step p state.now) }
{
    match progress_at(number, state) {
        Some(progress) if is_in_step(progress, state) => Ok(progress),
        Some(_) => Err(ResumeFault::NotInStep(Machine::Table)),
        None => Err(ResumeFault::NoStep(Machine::Table)),
    }
}

/// Whether the step is in step with a state.
pub fn is_in_step(progress: TableProgress, state: &State) -> bool
    ensures { result ≡ keeps.in_step progress state.now }
{
    progress.is_in_step(state)
}

/// The number of a step. Its notes are told by a state that is in step with it.
pub fn number(progress: TableProgress) -> u8
    ensures step { slice_get keeps.steps result ≡ Some progress.step }
    ensures in_step { (s : ModelState) → keeps.in_step progress s ≡ true
        → keeps.progress_at result s ≡ Some progress }
{
    progress.step.number()
}

/// The step with this number, with its notes by a state; `None` if no step has it.
pub fn progress_at(number: u8, state: &State) -> Option<TableProgress>
    ensures { result ≡ keeps.progress_at number state.now }
{
    let step = TableStep::with_number(number)?;
    Some(TableProgress {
        step,
        loaded: state.is_full(Place::Table),
    })
}

impl<F: Gauge> Resumable for TableProgram<F> {
    ghost use Rattle.cell_table_press.specs.TableProgram.{in_step};
    ghost use Rattle.cell_table_press.proofs.lemmas.TableFacts.{TableKnows};

    ghost in_step = { in_step };

    ghost knows = { TableKnows };

    fn is_in_step(progress: TableProgress, state: &State) -> bool {
        is_in_step(progress, state)
    }

    fn meets_demands(&self) {}
}
