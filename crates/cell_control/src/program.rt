//! The trait of a machine's program.

use crate::row::Row;
use cell_rules::State;
use cell_sensors::SensorFault;
use cell_types::{Machine, Posture};

/// A machine's program, with the calibrations of its sensors.
///
/// The program is the table `steps`. Each step has a `row`: what it asks, what it waits for, and the
/// next step. A turn performs one step:
///
/// - A step with a call asks it once and sets the actuators to `rest`. When the call is done, it
///   leads to the row's next step; an inquiry leads to `after_inquiry`, by what it showed. On a
///   refusal the step stays if it waits for that, or if the refusal is `Stopped`. Otherwise the
///   controller stops.
/// - A step without a call drives: it sets the actuators to `drive` and leads to `after_drive`.
///   That is the step itself until its motors are off. A step that only switches a magnet drives
///   too: its motors are off, so it leads on at once.
///
/// `rest` depends on the notes, so that a magnet stays as it was switched. After a fault the
/// actuators are set to `rest` too: all motors are off, and the part keeps its own magnets.
pub trait Program: Drop {
    ghost use Rattle.std.specs.Prelude.{◌≡◌, List};
    ghost use Rattle.cell_types.specs.declared.answer.Event.{Event};
    ghost use Rattle.cell_rules.specs.ModelState.{ModelState};
    ghost use Rattle.cell_control.specs.Steps.{Steps, MeetsDemandsOnceReached};

    /// A step, with the machine's notes.
    type Progress: Copy;

    /// What the machine's sensors show.
    type Sense: Copy;

    /// What they say after the check.
    type Reading: Copy;

    /// The commands to its actuators.
    type Act: Copy;

    // The table of its steps.
    ghost steps: { Self → Steps Self.Progress Self.Sense Self.Reading Self.Act };

    /// The first step and its notes, by the places that are full.
    fn start(&self, state: &State) -> Self::Progress
        ensures { result ≡ (steps self.now).start state.now };

    /// The row of a step: what it asks, or `None` if it drives; what it waits for; and the next step
    /// once the call or the drive is done. Each step also stays on `Stopped`, so no row says so.
    fn row(&self, progress: Self::Progress) -> Row<Self::Progress>
        ensures { result ≡ (steps self.now).row progress };

    /// The next step after an inquiry, by what it showed of a zone.
    fn after_inquiry(
        &self,
        progress: Self::Progress,
        owner: Option<Machine>,
        flag: bool,
        posture: Posture,
    ) -> Self::Progress
        ensures { result ≡ (steps self.now).after_inquiry progress owner flag posture };

    /// Checks the sensors: what they say, or why they can't be used.
    fn check(&self, sense: &Self::Sense) -> Result<Self::Reading, SensorFault>
        ensures { (steps self.now).senses sense.now result };

    /// The actuators' commands in a step that drives. Every legal history that reaches the step
    /// meets what its motors demand.
    fn drive(&self, progress: Self::Progress, reading: Self::Reading) -> Self::Act
        ensures drives { (steps self.now).drives progress reading result }
        ensures motor_demands { MeetsDemandsOnceReached (steps self.now) progress result };

    /// The next step after a drive, by its reading and its commands.
    fn after_drive(
        &self,
        progress: Self::Progress,
        reading: Self::Reading,
        act: Self::Act,
    ) -> Self::Progress
        ensures { result ≡ (steps self.now).after_drive progress reading act };

    /// The actuators' commands in a step that asks, and after a fault. They demand nothing.
    fn rest(&self, progress: Self::Progress) -> Self::Act
        ensures rest { result ≡ (steps self.now).rest progress }
        ensures motor_demands { (opening : ModelState) (seen : List Event)
            → (steps self.now).motor_demands progress result opening seen };
}
