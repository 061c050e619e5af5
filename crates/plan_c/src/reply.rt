//! An answer in numbers, as C gets it.
ghost use Rattle.std.specs.Prelude.{◌≡◌};
ghost use Rattle.plan_types.specs.declared.answer.Answer.TheVariants.{Refused};
ghost use Rattle.plan_c.specs.Numbers as numbers;
ghost use Rattle.plan_c.specs.Replies as replies;

use plan_types::{Answer, Posture, Refusal};

/// The answer Done.
const DONE: u8 = 0;

/// The answer that shows a zone.
const SHOWN: u8 = 32;

/// The answer where numbers name no call.
pub(crate) const NO_CALL: u8 = 64;

/// The answer where a word is no state's.
pub(crate) const NO_STATE: u8 = 65;

/// The answer where bytes are no plan.
pub(crate) const NO_PLAN: u8 = 67;

/// Where an answer names nothing, or nobody.
pub(crate) const NOTHING: u8 = 255;

/// What C gets back from a call.
#[repr(C)]
#[derive(Clone, Copy)]
pub struct Reply {
    /// The word of the state after the call: the word before it unless the answer is Done.
    pub next: u64,
    /// Done, a refusal's number, or one of the other numbers above.
    pub answer: u8,
    /// The machine that the answer names; `NOTHING` for nobody.
    pub owner: u8,
    /// The zone that it names, or `NOTHING`.
    pub zone: u8,
    /// The posture that it names, or `NOTHING`.
    pub posture: u8,
    /// Whether it shows a plate in the zone.
    pub plate: bool,
}

fn posture_number(posture: Posture) -> u8
    ensures { result ≡ numbers.posture_number posture }
{
    match posture {
        Posture::Closed => 0,
        Posture::Moving => 1,
        Posture::OpenIn => 2,
        Posture::OpenOut => 3,
    }
}

/// The number of a refusal.
pub(crate) fn refusal_number(refusal: Refusal) -> u8
    ensures { result ≡ replies.refusal_number refusal }
{
    match refusal {
        Refusal::NotParty => 1,
        Refusal::Held(_) => 2,
        Refusal::AlreadyMine => 3,
        Refusal::Shut(_) => 4,
        Refusal::NotOwner(_) => 5,
        Refusal::PlateInZone(_) => 6,
        Refusal::NoPlate => 7,
        Refusal::PlaceFull => 8,
        Refusal::WrongWay => 9,
        Refusal::Jump => 10,
        Refusal::NoPose => 12,
        Refusal::Worn => 13,
        Refusal::Stopped => 14,
        Refusal::NotStopped => 15,
    }
}

fn owner_number(owner: Option<u8>) -> u8
    ensures { result ≡ replies.owner_number owner }
{
    owner.unwrap_or(NOTHING)
}

/// A reply that names nothing.
pub(crate) fn bare_reply(answer: u8, next: u64) -> Reply
    ensures { result ≡ replies.bare_reply answer next }
{
    Reply {
        next,
        answer,
        owner: NOTHING,
        zone: NOTHING,
        posture: NOTHING,
        plate: false,
    }
}

fn refusal_reply(refusal: Refusal, next: u64) -> Reply
    ensures { result ≡ replies.reply_of (Refused refusal) next }
{
    let mut reply = bare_reply(refusal_number(refusal), next);
    match refusal {
        Refusal::Held(machine) => reply.owner = machine,
        Refusal::NotOwner(owner) => reply.owner = owner_number(owner),
        Refusal::Shut(posture) => reply.posture = posture_number(posture),
        Refusal::PlateInZone(zone) => reply.zone = zone,
        _ => {}
    }
    reply
}

/// The number of an answer.
pub(crate) fn answer_number(answer: Answer) -> u8
    ensures { result ≡ replies.answer_number answer }
{
    match answer {
        Answer::Done => DONE,
        Answer::Refused(refusal) => refusal_number(refusal),
        Answer::Shown { .. } => SHOWN,
    }
}

/// The reply of an answer and of the word after it.
pub(crate) fn reply_of(answer: Answer, next: u64) -> Reply
    ensures { result ≡ replies.reply_of answer next }
{
    match answer {
        Answer::Done => bare_reply(DONE, next),
        Answer::Refused(refusal) => refusal_reply(refusal, next),
        Answer::Shown {
            owner,
            flag,
            posture,
        } => Reply {
            owner: owner_number(owner),
            posture: posture_number(posture),
            plate: flag,
            ..bare_reply(SHOWN, next)
        },
    }
}
