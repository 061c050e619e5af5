//! Steps of a machine's program in a plant on several words.
ghost use Rattle.std.specs.Prelude.{◌≡◌, IfOk};
ghost use Rattle.plan_workers.specs.PlantSteps as spec;

use plan_controller::{Faults, Step};
use plan_types::Call;
use std::alloc::{AllocError, Global};

/// A step of a machine's program in a plant on several words. Its numbers are those of its word.
#[derive(Clone, Copy, Debug, PartialEq, Eq)]
pub enum RoutedStep {
    /// To make a call on a word, until it is done, or refused by one of these faults.
    Do {
        /// The word.
        word: usize,
        /// The call.
        call: Call,
        /// The refusals that stop the machine here.
        faults: Faults,
    },
    /// To wait until the machine owns a zone of a word.
    Await {
        /// The word.
        word: usize,
        /// The zone.
        zone: u8,
    },
    /// To run motors until a sensor shows; without motors, to wait for the sensor. A run stands on every word, since a
    /// motor may need something of each: the motors have the same bits there.
    Run {
        /// The motors.
        motors: u64,
        /// The sensor, by its bit.
        until: u8,
    },
}

impl RoutedStep {
    /// Its word; `None` for a run.
    pub fn word(self) -> Option<usize>
        ensures { result ≡ spec.word_of self }
    {
        match self {
            RoutedStep::Do { word, .. } | RoutedStep::Await { word, .. } => Some(word),
            RoutedStep::Run { .. } => None,
        }
    }

    /// The step on a word; `None` if it doesn't stand there.
    pub fn on(self, word: usize) -> Option<Step>
        ensures { result ≡ spec.step_on word self }
    {
        match self {
            RoutedStep::Do {
                word: own,
                call,
                faults,
            } if own == word => Some(Step::Do(call, faults)),
            RoutedStep::Await { word: own, zone } if own == word => Some(Step::Await(zone)),
            RoutedStep::Run { motors, until } => Some(Step::Run { motors, until }),
            _ => None,
        }
    }
}

/// The program of a word: the steps that stand there, in their order. `plan_drives` checks its lines by the word's plan
/// (`lines_of` of `plan_controller`).
pub fn steps_on(alloc: Global, steps: &[RoutedStep], word: usize) -> Result<Vec<Step>, AllocError>
    ensures { IfOk result (λ made. made.items ≡ spec.steps_on word steps.now) }
{
    steps.iter().filter_map(|step| step.on(word)).collect(alloc)
}
