//! Steps of programs.
ghost use Rattle.std.specs.Prelude.{◌≡◌, map, IfOk};
ghost use Rattle.plan_controller.specs.Steps as steps;

use crate::faults::Faults;
use plan_drives::Line;
use plan_types::Call;
use std::alloc::{AllocError, Global};

/// A step of a machine's program.
#[derive(Clone, Copy, Debug, PartialEq, Eq)]
pub enum Step {
    /// To make a call, until it is done, or refused by one of these faults.
    Do(Call, Faults),
    /// To wait until the machine owns a zone.
    Await(u8),
    /// To run motors, those of the plan that have a bit here, until a sensor shows. Without motors, to wait for the
    /// sensor.
    Run {
        /// The motors.
        motors: u64,
        /// The sensor, by its bit.
        until: u8,
    },
}

impl Step {
    /// The line of the program, as `plan_drives` checks it: it knows no faults and no sensors.
    pub fn line(self) -> Line
        ensures { result ≡ steps.line_of self }
    {
        match self {
            Step::Do(call, _) => Line::Do(call),
            Step::Await(zone) => Line::Await(zone),
            Step::Run { motors, .. } => Line::Run(motors),
        }
    }
}

/// The lines of a program, for `first_undriven`.
pub fn lines_of(alloc: Global, program: &[Step]) -> Result<Vec<Line>, AllocError>
    ensures { IfOk result (λ lines. lines.items ≡ map steps.line_of program.now) }
{
    program.iter().map(|step| step.line()).collect(alloc)
}

/// Whether a sensor shows, of 32.
pub fn shows(sensors: u32, sensor: u8) -> bool
    ensures { result ≡ steps.shows sensors sensor }
{
    sensor < 32 && sensors >> sensor & 1 == 1
}
