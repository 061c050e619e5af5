//! Answers as texts, by the names of a plan.
ghost use Rattle.std.specs.Prelude.{◌≡◌, ◌++◌, OnOk, string_bytes};
ghost use Rattle.plan_text.specs.Answers as spec;

use crate::named_plan::NamedPlan;
use crate::words::posture_word;
use plan_types::{Answer, Refusal};
use std::alloc::AllocError;

impl NamedPlan {
    /// The word of an owner: the machine's name, or `free`.
    fn owner_word(&self, owner: Option<u8>) -> &str
        ensures { result.now ≡ spec.owner_word self.now owner }
    {
        match owner {
            Some(machine) => self.machines.name(machine),
            None => "free",
        }
    }

    /// Appends the text of a refusal.
    fn push_refusal(&self, text: &mut String, refusal: Refusal) -> Result<(), AllocError>
        ensures { OnOk result
            (string_bytes text.new ≡ string_bytes text.old ++ spec.refusal_text self.now refusal) }
    {
        match refusal {
            Refusal::NotParty => text.push_str("notparty"),
            Refusal::Held(machine) => push_two(text, "held ", self.machines.name(machine)),
            Refusal::AlreadyMine => text.push_str("already"),
            Refusal::Shut(posture) => push_two(text, "shut ", posture_word(posture)),
            Refusal::NotOwner(owner) => push_two(text, "notowner ", self.owner_word(owner)),
            Refusal::PlateInZone(zone) => push_two(text, "platein ", self.zones.name(zone)),
            Refusal::NoPlate => text.push_str("noplate"),
            Refusal::PlaceFull => text.push_str("placefull"),
            Refusal::WrongWay => text.push_str("wrongway"),
            Refusal::Jump => text.push_str("jump"),
            Refusal::NoPose => text.push_str("nopose"),
            Refusal::Worn => text.push_str("worn"),
            Refusal::Stopped => text.push_str("stopped"),
            Refusal::NotStopped => text.push_str("notstopped"),
        }
    }

    /// Appends the text of an answer.
    pub fn push_answer(&self, text: &mut String, answer: Answer) -> Result<(), AllocError>
        ensures { OnOk result
            (string_bytes text.new ≡ string_bytes text.old ++ spec.answer_text self.now answer) }
    {
        match answer {
            Answer::Done => text.push_str("done"),
            Answer::Shown {
                owner,
                flag,
                posture,
            } => {
                push_two(text, "zone ", self.owner_word(owner))?;
                text.push_str(if flag { " 1 " } else { " 0 " })?;
                text.push_str(posture_word(posture))
            }
            Answer::Refused(refusal) => self.push_refusal(text, refusal),
        }
    }
}

/// Appends two texts.
fn push_two(text: &mut String, first: &str, second: &str) -> Result<(), AllocError>
    ensures { OnOk result
        (string_bytes text.new ≡ string_bytes text.old ++ (first.now ++ second.now)) }
{
    text.push_str(first)?;
    text.push_str(second)
}
