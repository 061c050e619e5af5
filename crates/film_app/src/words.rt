//! The words of steps and of statuses.

ghost use Rattle.std.specs.Prelude.{◌≡◌};
ghost use Rattle.film_app.specs.Fields as fields;
ghost use Rattle.film_app.specs.StepWords as words;

use cell_notes::Status;
use cell_plant::MachineSteps;
use cell_types::Machine;

/// The word of the step that a machine is at. The watch has none.
pub(crate) fn step_word(machine: Machine, steps: &MachineSteps) -> &'static str
    ensures { result.now ≡ fields.step_word machine steps.now }
{
    match machine {
        Machine::Feed => steps.feed.word(),
        Machine::Table => steps.table.word(),
        Machine::Robot => steps.robot.word(),
        Machine::Press => steps.press.word(),
        Machine::Deposit => steps.deposit.word(),
        Machine::Crane => steps.crane.word(),
        Machine::Watch => "",
    }
}

/// What follows the step of a machine that has stopped, and nothing if nothing has stopped it.
pub(crate) fn stopped_text(status: Status) -> &'static str
    ensures { result.now ≡ words.stopped_text status }
{
    match status {
        Status::Fine => "",
        Status::Worn => "!worn",
        Status::Sensor => "!sensor",
        Status::Refused => "!refused",
        Status::Memory => "!memory",
        Status::GateLimit => "!gatelimit",
    }
}
