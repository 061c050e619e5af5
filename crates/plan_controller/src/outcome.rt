//! What a step leads to.
ghost use Rattle.std.specs.Prelude.{◌≡◌};
ghost use Rattle.plan_controller.specs.Steps as steps;

use crate::faults::{Faults, Mendable};
use plan_types::{Answer, Refusal};

/// What a step leads to.
#[derive(Clone, Copy, Debug, PartialEq, Eq)]
pub enum Outcome {
    /// The machine stays at its step.
    Stays,
    /// It goes on to the next one, after the last to the first.
    GoesOn,
    /// It stops for good: waiting would never mend this refusal, or the line has it as a fault.
    Stops(Refusal),
}

/// What a refusal leads to, where these are faults.
fn after_refusal(refusal: Refusal, faults: Faults) -> Outcome
    ensures { result ≡ steps.after_refusal refusal faults }
{
    match Mendable::of(refusal) {
        Some(kind) if !faults.has(kind) => Outcome::Stays,
        _ => Outcome::Stops(refusal),
    }
}

/// What a call leads to, by its answer, where these are faults. The answer is `None` if the call wasn't made.
pub fn after_call(answer: Option<Answer>, faults: Faults) -> Outcome
    ensures { result ≡ steps.after_call answer faults }
{
    match answer {
        None | Some(Answer::Shown { .. }) => Outcome::Stays,
        Some(Answer::Done) => Outcome::GoesOn,
        Some(Answer::Refused(refusal)) => after_refusal(refusal, faults),
    }
}

/// What an inquiry leads to while a machine awaits a zone: on, if it shows the machine as the owner.
pub fn after_inquiry(machine: u8, answer: Option<Answer>) -> Outcome
    ensures { result ≡ steps.after_inquiry machine answer }
{
    match answer {
        None | Some(Answer::Done) => Outcome::Stays,
        Some(Answer::Shown { owner, .. }) => {
            if owner == Some(machine) {
                Outcome::GoesOn
            } else {
                Outcome::Stays
            }
        }
        Some(Answer::Refused(refusal)) => after_refusal(refusal, Faults::none()),
    }
}
