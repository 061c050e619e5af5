//! An answer in numbers, as C gets it.
ghost use Rattle.std.specs.Prelude.{◌≡◌};
ghost use Rattle.cell_types.specs.declared.answer.Answer.TheVariants.{Refused};
ghost use Rattle.cell_c.specs.Replies as replies;

use crate::numbers::{machine_number, owner_number, posture_number, zone_number};
use cell_types::{Answer, Refusal};

/// The answer Done. A refusal's answer is its own number.
pub const DONE: u8 = 0;

/// The answer that shows a zone.
pub const SHOWN: u8 = 32;

/// The answer where numbers name no machine or no call.
pub const NO_CALL: u8 = 64;

/// The answer where a word is no sound state's.
pub const NO_STATE: u8 = 65;

/// What C gets back from a call.
#[repr(C)]
#[derive(Clone, Copy, Debug, PartialEq, Eq)]
pub struct Reply {
    /// The word of the state after the call: the word before it unless the answer is Done.
    pub next: u64,
    /// Done, a refusal's number, or one of the other numbers above.
    pub answer: u8,
    /// The machine that the answer names, or 0.
    pub owner: u8,
    /// The zone that it names, or 0.
    pub zone: u8,
    /// The posture that it names, or 0.
    pub posture: u8,
    /// Whether it shows a plate in the zone.
    pub plate: bool,
}

/// A reply that names nothing.
pub fn bare_reply(answer: u8, next: u64) -> Reply
    ensures { result ≡ replies.bare_reply answer next }
{
    Reply {
        next,
        answer,
        owner: 0,
        zone: 0,
        posture: 0,
        plate: false,
    }
}

fn refusal_reply(refusal: Refusal, next: u64) -> Reply
    ensures { result ≡ replies.reply_of (Refused refusal) next }
{
    let mut reply = bare_reply(refusal.number(), next);
    match refusal {
        Refusal::Held(machine) => reply.owner = machine_number(machine),
        Refusal::NotOwner(owner) => reply.owner = owner_number(owner),
        Refusal::Shut(posture) => reply.posture = posture_number(posture),
        Refusal::PlateInZone(zone) => reply.zone = zone_number(zone),
        _ => {}
    }
    reply
}

/// The reply of an answer and of the word after it.
pub fn reply_of(answer: Answer, next: u64) -> Reply
    ensures { result ≡ replies.reply_of answer next }
{
    match answer {
        Answer::Done => bare_reply(DONE, next),
        Answer::Refused(refusal) => refusal_reply(refusal, next),
        Answer::Shown {
            owner,
            flag,
            posture,
        } => Reply {
            owner: owner_number(owner),
            posture: posture_number(posture),
            plate: flag,
            ..bare_reply(SHOWN, next)
        },
    }
}
