//! Refusals, answers and events, with the words and numbers of refusals.
ghost use Rattle.std.specs.Prelude.{◌≡◌, ◌↔◌, Some};
ghost use Rattle.cell_types.specs.Refusals.{number_of};
ghost use Rattle.cell_types.specs.Answers.{answer_text, owner_word, refusal_word};

use crate::call::Call;
use crate::machine::Machine;
use crate::posture::Posture;
use crate::words::{Worded, find_by_word};
use crate::zone::Zone;
use std::fmt;

/// Why a call is refused.
#[derive(Clone, Copy, Debug, PartialEq, Eq)]
pub enum Refusal {
    /// The caller is no party of the zone.
    NotParty,
    /// Another machine owns the zone.
    Held(Machine),
    /// The caller owns the zone already.
    AlreadyMine,
    /// The posture forbids the call.
    Shut(Posture),
    /// The caller doesn't own a zone that the call needs. This machine does, or nobody.
    NotOwner(Option<Machine>),
    /// A plate is in the zone.
    PlateInZone(Zone),
    /// There is no plate to give, to take or to move on.
    NoPlate,
    /// A place that has to be empty is full.
    PlaceFull,
    /// No plate goes this way while the zone has this posture.
    WrongWay,
    /// Table or press would change its pose without moving first.
    Jump,
    /// The machine isn't at work.
    NotAtWork,
    /// The machine doesn't have this pose, or can't move a plate on.
    NoPose,
    /// The call would be Done, but the stamp has reached its last value.
    Worn,
    /// The cell is stopped.
    Stopped,
    /// The cell isn't stopped.
    NotStopped,
    /// The feed belt runs with a plate at its end, and so may not leave the table's zone.
    InUse,
}

impl Refusal {
    /// All refusals, with every value that each can name, in the order of their numbers.
    pub const ALL: [Refusal; 37] = [
        Refusal::NotParty,
        Refusal::Held(Machine::Feed),
        Refusal::Held(Machine::Table),
        Refusal::Held(Machine::Robot),
        Refusal::Held(Machine::Press),
        Refusal::Held(Machine::Deposit),
        Refusal::Held(Machine::Crane),
        Refusal::Held(Machine::Watch),
        Refusal::AlreadyMine,
        Refusal::Shut(Posture::Closed),
        Refusal::Shut(Posture::Moving),
        Refusal::Shut(Posture::OpenIn),
        Refusal::Shut(Posture::OpenOut),
        Refusal::NotOwner(None),
        Refusal::NotOwner(Some(Machine::Feed)),
        Refusal::NotOwner(Some(Machine::Table)),
        Refusal::NotOwner(Some(Machine::Robot)),
        Refusal::NotOwner(Some(Machine::Press)),
        Refusal::NotOwner(Some(Machine::Deposit)),
        Refusal::NotOwner(Some(Machine::Crane)),
        Refusal::NotOwner(Some(Machine::Watch)),
        Refusal::PlateInZone(Zone::Z1),
        Refusal::PlateInZone(Zone::Z2),
        Refusal::PlateInZone(Zone::Z3),
        Refusal::PlateInZone(Zone::Z4),
        Refusal::PlateInZone(Zone::Z5),
        Refusal::PlateInZone(Zone::Z6),
        Refusal::NoPlate,
        Refusal::PlaceFull,
        Refusal::WrongWay,
        Refusal::Jump,
        Refusal::NotAtWork,
        Refusal::NoPose,
        Refusal::Worn,
        Refusal::Stopped,
        Refusal::NotStopped,
        Refusal::InUse,
    ];

    /// The number of the refusal, which doesn't depend on what the refusal names.
    pub fn number(&self) -> u8
        ensures { result ≡ number_of self.now }
    {
        match self {
            Refusal::NotParty => 1,
            Refusal::Held(_) => 2,
            Refusal::AlreadyMine => 3,
            Refusal::Shut(_) => 4,
            Refusal::NotOwner(_) => 5,
            Refusal::PlateInZone(_) => 6,
            Refusal::NoPlate => 7,
            Refusal::PlaceFull => 8,
            Refusal::WrongWay => 9,
            Refusal::Jump => 10,
            Refusal::NotAtWork => 11,
            Refusal::NoPose => 12,
            Refusal::Worn => 13,
            Refusal::Stopped => 14,
            Refusal::NotStopped => 15,
            Refusal::InUse => 16,
        }
    }

    /// The refusal's text in scripts and reports, with what it names.
    pub fn word(self) -> &'static str
        ensures { result.now ≡ refusal_word self }
    {
        match self {
            Refusal::NotParty => "notparty",
            Refusal::Held(machine) => held_word(machine),
            Refusal::AlreadyMine => "already",
            Refusal::Shut(posture) => shut_word(posture),
            Refusal::NotOwner(owner) => not_owner_word(owner),
            Refusal::PlateInZone(zone) => plate_word(zone),
            Refusal::NoPlate => "noplate",
            Refusal::PlaceFull => "placefull",
            Refusal::WrongWay => "wrongway",
            Refusal::Jump => "jump",
            Refusal::NotAtWork => "notatwork",
            Refusal::NoPose => "nopose",
            Refusal::Worn => "worn",
            Refusal::Stopped => "stopped",
            Refusal::NotStopped => "notstopped",
            Refusal::InUse => "inuse",
        }
    }

    /// The refusal with this text, or `None` if none has it.
    pub fn read(word: &[u8]) -> Option<Refusal>
        ensures { (refusal : Refusal)
            → (result ≡ Some refusal) ↔ (word.now ≡ refusal_word refusal) }
    {
        find_by_word(&Refusal::ALL, word)
    }
}

impl Worded for Refusal {
    ghost use Rattle.cell_types.specs.Answers.{refusal_word};

    ghost word_of = { λ refusal. refusal_word refusal };

    fn own_word(self) -> &'static str {
        self.word()
    }
}

fn held_word(machine: Machine) -> &'static str
    ensures { result.now ≡ refusal_word (Refusal.Held machine) }
{
    match machine {
        Machine::Feed => "held feed",
        Machine::Table => "held table",
        Machine::Robot => "held robot",
        Machine::Press => "held press",
        Machine::Deposit => "held deposit",
        Machine::Crane => "held crane",
        Machine::Watch => "held watch",
    }
}

fn shut_word(posture: Posture) -> &'static str
    ensures { result.now ≡ refusal_word (Refusal.Shut posture) }
{
    match posture {
        Posture::Closed => "shut closed",
        Posture::Moving => "shut moving",
        Posture::OpenIn => "shut openin",
        Posture::OpenOut => "shut openout",
    }
}

fn not_owner_word(owner: Option<Machine>) -> &'static str
    ensures { result.now ≡ refusal_word (Refusal.NotOwner owner) }
{
    match owner {
        None => "notowner free",
        Some(Machine::Feed) => "notowner feed",
        Some(Machine::Table) => "notowner table",
        Some(Machine::Robot) => "notowner robot",
        Some(Machine::Press) => "notowner press",
        Some(Machine::Deposit) => "notowner deposit",
        Some(Machine::Crane) => "notowner crane",
        Some(Machine::Watch) => "notowner watch",
    }
}

fn plate_word(zone: Zone) -> &'static str
    ensures { result.now ≡ refusal_word (Refusal.PlateInZone zone) }
{
    match zone {
        Zone::Z1 => "platein z1",
        Zone::Z2 => "platein z2",
        Zone::Z3 => "platein z3",
        Zone::Z4 => "platein z4",
        Zone::Z5 => "platein z5",
        Zone::Z6 => "platein z6",
    }
}

/// What the interlock answers to a call.
#[derive(Clone, Copy, Debug, PartialEq, Eq)]
pub enum Answer {
    /// The call was made, and the stamp is one higher.
    Done,
    /// The state of the zone, as an inquiry answers it.
    Shown {
        /// Who holds the zone.
        owner: Option<Machine>,
        /// Whether a plate is on its way through the zone.
        flag: bool,
        /// Its posture.
        posture: Posture,
    },
    /// The call was refused, and nothing has changed.
    Refused(Refusal),
}

/// A call of a machine, with its answer.
#[derive(Clone, Copy, PartialEq, Eq)]
pub struct Event {
    /// Whose call it was.
    pub machine: Machine,
    /// The call.
    pub call: Call,
    /// What the interlock answered.
    pub answer: Answer,
}

impl fmt::Display for Refusal {
    ghost use Rattle.cell_types.specs.Answers.{refusal_word};

    ghost output = { λ refusal. Some (refusal_word refusal) };

    fn fmt<W: fmt::Write>(&self, f: &mut fmt::Formatter<W>) -> fmt::Result {
        f.write_str(self.word())
    }
}

impl fmt::Display for Answer {
    ghost output = { λ answer. Some (answer_text answer) };

    fn fmt<W: fmt::Write>(&self, f: &mut fmt::Formatter<W>) -> fmt::Result {
        match self {
            Answer::Done => f.write_str("done"),
            Answer::Shown {
                owner,
                flag,
                posture,
            } => {
                let owner = owner_word_of(*owner);
                let flag = if *flag { "1" } else { "0" };
                let posture = posture.word();
                write!(f, "zone {owner} {flag} {posture}")
            }
            Answer::Refused(refusal) => f.write_str(refusal.word()),
        }
    }
}

/// The word of a zone's owner in scripts and reports: the machine's, or `free`.
pub fn owner_word_of(owner: Option<Machine>) -> &'static str
    ensures { result.now ≡ owner_word owner }
{
    match owner {
        None => "free",
        Some(machine) => machine.word(),
    }
}
