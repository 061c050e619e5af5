//! The press: the test of its step, and the step that a number names.

ghost use Rattle.std.specs.Prelude.{◌≡◌, true, Some, ◌≤◌, ◌/◌, slice_get};
ghost use Rattle.cell_types.specs.declared.machine.Machine.TheVariants as machine;
ghost use Rattle.cell_rules.specs.ModelState.{ModelState};
ghost use Rattle.cell_resume.specs.Testing.{tested};
ghost use Rattle.cell_resume.specs.PressKeeps as keeps;

use crate::fault::ResumeFault;
use crate::resumable::Resumable;
use cell_devices::Direction;
use cell_rules::State;
use cell_table_press::{PressProgram, PressProgress, PressStep};
use cell_types::{Machine, Place};

/// The step with this number, with its notes, if it is in step with a state.
///
/// `NoStep` if no step has the number; `NotInStep` if the step isn't in step with the state.
pub fn test(number: u8, state: &State) -> Result<PressProgress, ResumeFault>
    ensures { result ≡ tested machine.Press (keeps.progress_at number state.now)
        (λ p. keeps.in_step p state.now) }
{
    match progress_at(number, state) {
        Some(progress) if is_in_step(progress, state) => Ok(progress),
        Some(_) => Err(ResumeFault::NotInStep(Machine::Press)),
        None => Err(ResumeFault::NoStep(Machine::Press)),
    }
}

/// Whether the step is in step with a state.
pub fn is_in_step(progress: PressProgress, state: &State) -> bool
    ensures { result ≡ keeps.in_step progress state.now }
{
    progress.is_in_step(state)
}

/// The number of a step, with the last direction of the motor. The other notes are told by a state
/// that is in step with it.
pub fn number(progress: PressProgress) -> u8
    ensures step { slice_get keeps.steps (result / 2) ≡ Some progress.step }
    ensures direction { keeps.direction_of result ≡ progress.direction }
    ensures in_step { (s : ModelState) → keeps.in_step progress s ≡ true
        → keeps.progress_at result s ≡ Some progress }
{
    progress.step.number() * 2 + bit_of(progress.direction)
}

// The bit of a direction.
fn bit_of(direction: Direction) -> u8
    ensures bit { result ≡ keeps.bit_of direction }
    ensures small { result ≤ 1 }
{
    match direction {
        Direction::Plus => 1,
        Direction::Minus => 0,
    }
}

fn direction_of(number: u8) -> Direction
    ensures { result ≡ keeps.direction_of number }
{
    if number % 2 == 1 {
        Direction::Plus
    } else {
        Direction::Minus
    }
}

/// The step with this number, with its notes by a state; `None` if no step has it.
pub fn progress_at(number: u8, state: &State) -> Option<PressProgress>
    ensures { result ≡ keeps.progress_at number state.now }
{
    let step = PressStep::with_number(number / 2)?;
    Some(PressProgress {
        step,
        loaded: state.is_full(Place::PressIn),
        forged: state.is_full(Place::PressOut),
        direction: direction_of(number),
    })
}

impl Resumable for PressProgram {
    ghost use Rattle.cell_table_press.specs.PressProgram.{in_step};
    ghost use Rattle.cell_table_press.proofs.lemmas.PressFacts.{PressKnows};

    ghost in_step = { in_step };

    ghost knows = { PressKnows };

    fn is_in_step(progress: PressProgress, state: &State) -> bool {
        is_in_step(progress, state)
    }

    fn meets_demands(&self) {}
}
