//! The answers of the interlock, and events: a machine, its call and the answer.

use crate::call::Call;
use crate::posture::Posture;

/// Why a call is refused.
#[derive(Clone, Copy, Debug, PartialEq, Eq)]
pub enum Refusal {
    /// The caller is no party of the zone, or there is no such zone; `Stop`, `Resume`: the caller isn't the watch;
    /// `Advance`: it doesn't keep such a place, or the place is neither source nor sink.
    NotParty,
    /// Another machine owns the zone.
    Held(u8),
    /// The caller owns it.
    AlreadyMine,
    /// The zone's posture bars the call.
    Shut(Posture),
    /// Another machine, or nobody, owns a zone that the call needs.
    NotOwner(Option<u8>),
    /// A plate is in this zone.
    PlateInZone(u8),
    /// There is no plate at the giving place, for `Take` in the zone, for `Advance` at a sink.
    NoPlate,
    /// The receiving place has a plate, or one is on its way to it; `Advance`: so does a source.
    PlaceFull,
    /// The caller gives nothing in this zone while it has this posture.
    WrongWay,
    /// The pose can be taken only out of one that moves all zones that the caller hosts.
    Jump,
    /// The caller doesn't have the pose.
    NoPose,
    /// The call would be done, but the stamp is the last one.
    Worn,
    /// The plant is stopped.
    Stopped,
    /// The plant isn't stopped.
    NotStopped,
}

/// What the interlock answers.
#[derive(Clone, Copy, Debug, PartialEq, Eq)]
pub enum Answer {
    /// The call is done.
    Done,
    /// The zone as it is.
    Shown {
        /// The machine that owns it.
        owner: Option<u8>,
        /// Whether a plate is in it.
        flag: bool,
        /// Its posture.
        posture: Posture,
    },
    /// The call is refused, and changes nothing.
    Refused(Refusal),
}

/// A call that was answered.
#[derive(Clone, Copy, Debug, PartialEq, Eq)]
pub struct Event {
    /// The caller.
    pub machine: u8,
    /// What it asked.
    pub call: Call,
    /// What was answered.
    pub answer: Answer,
}
