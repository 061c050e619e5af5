//! What is wrong with a plan's document, in words.
ghost use Rattle.std.specs.Prelude.{◌≡◌};
ghost use Rattle.plan_document.specs.Keys as keys;
ghost use Rattle.plan_document.specs.Keys.{key_word};
ghost use Rattle.plan_document.specs.declared.fault.Wrong.TheVariants.{Memory as NoMemory};

use plan_types::PlanFault;
use std::alloc::{AllocError, AllocFailed, Global};

/// What a fault is about: the document, or a row of it. Rows are counted from 0.
#[derive(Clone, Copy)]
pub enum RowOf {
    /// The document outside of its rows.
    Document,
    /// A machine.
    Machine(usize),
    /// A pose of a machine.
    Pose {
        /// The machine.
        machine: usize,
        /// The pose, among those of the machine.
        pose: usize,
    },
    /// A zone.
    Zone(usize),
    /// A zone that lists its guests.
    Space(usize),
    /// A side of such a zone: one of its guests.
    Side {
        /// The zone.
        zone: usize,
        /// The side, among those of the zone.
        side: usize,
    },
    /// A motor.
    Motor(usize),
    /// A hazard.
    Hazard(usize),
}

/// The keys of a document.
#[derive(Clone, Copy)]
pub enum Key {
    /// `machine`
    Machine,
    /// `zone`
    Zone,
    /// `name`
    Name,
    /// `places`
    Places,
    /// `sources`
    Sources,
    /// `sinks`
    Sinks,
    /// `poses`
    Poses,
    /// `sensors`
    Sensors,
    /// `program`
    Program,
    /// `gives`
    Gives,
    /// `after_moving`
    AfterMoving,
    /// `host`
    Host,
    /// `guest`
    Guest,
    /// `guests`
    Guests,
    /// `inward`
    Inward,
    /// `outward`
    Outward,
    /// `motor`
    Motor,
    /// `hazard`
    Hazard,
    /// `holds`
    Holds,
    /// `stands`
    Stands,
    /// `full`
    Full,
    /// `empty`
    Empty,
    /// `motors`
    Motors,
}

impl Key {
    /// The key's word.
    pub fn word(self) -> &'static str
        ensures { result.now ≡ key_word self }
    {
        match self {
            Key::Machine => "machine",
            Key::Zone => "zone",
            Key::Name => "name",
            Key::Places => "places",
            Key::Sources => "sources",
            Key::Sinks => "sinks",
            Key::Poses => "poses",
            Key::Sensors => "sensors",
            Key::Program => "program",
            Key::Gives => "gives",
            Key::AfterMoving => "after_moving",
            Key::Host => "host",
            Key::Guest => "guest",
            Key::Guests => "guests",
            Key::Inward => "inward",
            Key::Outward => "outward",
            Key::Motor => "motor",
            Key::Hazard => "hazard",
            Key::Holds => "holds",
            Key::Stands => "stands",
            Key::Full => "full",
            Key::Empty => "empty",
            Key::Motors => "motors",
        }
    }
}

/// The keys of a document's top, of a machine, of a pose, of a zone, of one that lists its guests, of a side, of a
/// motor and of a hazard.
const TOP_KEYS: [Key; 4] = [Key::Machine, Key::Zone, Key::Motor, Key::Hazard];

const MACHINE_KEYS: [Key; 7] = [
    Key::Name,
    Key::Places,
    Key::Sources,
    Key::Sinks,
    Key::Poses,
    Key::Sensors,
    Key::Program,
];

const POSE_KEYS: [Key; 3] = [Key::Name, Key::Gives, Key::AfterMoving];

const ZONE_KEYS: [Key; 5] = [Key::Name, Key::Host, Key::Guest, Key::Inward, Key::Outward];

const SPACE_KEYS: [Key; 3] = [Key::Name, Key::Host, Key::Guests];

const SIDE_KEYS: [Key; 4] = [Key::Name, Key::Guest, Key::Inward, Key::Outward];

const MOTOR_KEYS: [Key; 6] = [
    Key::Name,
    Key::Machine,
    Key::Holds,
    Key::Stands,
    Key::Full,
    Key::Empty,
];

const HAZARD_KEYS: [Key; 2] = [Key::Name, Key::Motors];

impl RowOf {
    /// The keys that such a row may have.
    pub fn keys(self) -> &'static [Key]
        ensures { result.now ≡ keys.keys_in self }
    {
        match self {
            RowOf::Document => &TOP_KEYS,
            RowOf::Machine(_) => &MACHINE_KEYS,
            RowOf::Pose { .. } => &POSE_KEYS,
            RowOf::Zone(_) => &ZONE_KEYS,
            RowOf::Space(_) => &SPACE_KEYS,
            RowOf::Side { .. } => &SIDE_KEYS,
            RowOf::Motor(_) => &MOTOR_KEYS,
            RowOf::Hazard(_) => &HAZARD_KEYS,
        }
    }

    /// Whether such a row may have a key of this name.
    pub fn has_key(self, name: &str) -> bool
        ensures { result ≡ keys.is_word_of (keys.keys_in self) name.now }
    {
        self.keys().iter().any(|key| key.word() == name)
    }
}

/// Why a line of a program is never done.
#[derive(Clone, Copy)]
pub enum Never {
    /// The machine is neither the zone's host nor its guest.
    NoParty,
    /// No plate goes through the zone from the machine.
    GivesNothing,
    /// No plate goes through the zone to the machine.
    TakesNothing,
    /// The machine has no such pose.
    NoPose,
    /// The place isn't the machine's, or it is neither a source nor a sink.
    NoEnd,
}

impl Never {
    /// What is said of such a line.
    pub(crate) fn text(self) -> &'static str {
        match self {
            Never::NoParty => " is never done: the machine is neither host nor guest of the zone",
            Never::GivesNothing => " is never done: the machine gives no plates through the zone",
            Never::TakesNothing => " is never done: the machine takes no plates through the zone",
            Never::NoPose => " is never done: the machine has no such pose",
            Never::NoEnd => " is never done: the place is no source and no sink of the machine",
        }
    }
}

/// An end of a plate's way through a zone, and the party that keeps it.
#[derive(Clone, Copy)]
pub enum WayEnd {
    /// The plate leaves a place of the guest.
    FromGuest,
    /// The plate leaves a place of the host.
    FromHost,
    /// The plate comes to a place of the guest.
    ToGuest,
    /// The plate comes to a place of the host.
    ToHost,
}

impl WayEnd {
    /// What is said before the place.
    pub(crate) fn before(self) -> &'static str {
        match self {
            WayEnd::FromGuest | WayEnd::FromHost => "it leads from ",
            WayEnd::ToGuest | WayEnd::ToHost => "it leads to ",
        }
    }

    /// What is said between the place and the machine.
    pub(crate) fn between(self) -> &'static str {
        match self {
            WayEnd::FromGuest | WayEnd::ToGuest => ", which isn't a place of the guest, ",
            WayEnd::FromHost | WayEnd::ToHost => ", which isn't a place of the host, ",
        }
    }
}

/// What is wrong with a text.
#[derive(Clone, Copy)]
pub enum WrongText {
    /// It is a key of the row, but isn't known.
    Unknown,
    /// It is no name.
    NoName,
    /// A machine may not have this name.
    Reserved,
    /// The name is defined twice.
    Twice,
    /// With its machine's name before it, a pose's name is this, and so is another pose's.
    SameInC,
    /// With its machine's name before it, a sensor's name is this, and so is another sensor's.
    SensorSameInC,
    /// No machine has this name.
    NoMachine,
    /// No zone has this name.
    NoZone,
    /// No place has this name.
    NoPlace,
    /// The machine has no pose with this name.
    NoPose,
    /// This line of a program is no step.
    NoStep,
    /// This line of a program is never done.
    Never(Never),
    /// This is no refusal on which a line may stop its machine.
    NoRefusal,
    /// This refusal stops each machine, since waiting never mends it.
    StopsAlways,
    /// The line names this refusal twice.
    NamedTwice,
    /// This line of a program would stop its machine on refusals, but names none.
    NoRefusals,
    /// This line of a program names refusals, but is no call.
    NoCall,
    /// The machine doesn't host this zone.
    Foreign,
    /// It is no name of a hazard.
    NoTitle,
    /// No motor has this name.
    NoMotor,
    /// No motor of the machine has this name.
    NoOwnMotor,
    /// No sensor of the machine has this name.
    NoSensor,
    /// No zone has this name, and no sensor of the machine.
    NoZoneOrSensor,
    /// A zone has this name, too.
    ZoneToo,
    /// The machine is neither host nor guest of this zone.
    NoParty,
    /// The machine doesn't keep this place.
    NotKept,
    /// This machine is a guest of the zone already.
    GuestTwice,
    /// This zone, or this place, stands under another key of the motor, too.
    AlsoIn(Key),
}

/// What is wrong with two texts that belong together.
#[derive(Clone, Copy)]
pub enum WrongPair {
    /// The first is a zone, and the second, which it is given, is no posture.
    NoPosture,
    /// The first is a zone, and the second, which it has to have while it is held, is neither a posture nor `any`.
    NoHeldPosture,
    /// The first is the place at this end of a way, and the second the machine that should keep it.
    Astray(WayEnd),
    /// The pose moves one of these sides of a zone and not the other, or gives only one of them a posture.
    HalfSpace,
}

/// What is wrong with the value of a key.
#[derive(Drop)]
pub enum Wrong {
    /// The document has no machine.
    NoMachines,
    /// The key is missing.
    Missing,
    /// The value is no text.
    NoText,
    /// The value is no list of texts.
    NoTexts,
    /// The value is no list of lines of a program.
    NoLines,
    /// The value is no table.
    NoTable,
    /// The value is no list of tables.
    NoTables,
    /// The value is neither `true` nor `false`.
    NoTruth,
    /// The value is no list of two places.
    NoWay,
    /// The value is no list of two motors.
    NoMotors,
    /// The list has no guest.
    NoGuests,
    /// A text is wrong.
    Text(WrongText, String),
    /// Two texts are wrong together.
    Pair(WrongPair, String, String),
    /// A plan has at most this number of them.
    TooMany(usize),
    /// A program has at most this number of lines.
    TooManyLines(usize),
    /// A zone's host is its guest.
    HostIsGuest,
    /// No state permits the motor.
    NeverPermitted,
    /// Memory ran out.
    Memory,
}

impl From<AllocError> for Wrong {
    ghost from_gives = { λ _ wrong. wrong ≡ NoMemory };

    fn from(_error: AllocError) -> Wrong {
        Wrong::Memory
    }
}

impl<T: Drop> From<AllocFailed<T>> for Wrong {
    ghost from_gives = { λ _ wrong. wrong ≡ NoMemory };

    fn from(_error: AllocFailed<T>) -> Wrong {
        Wrong::Memory
    }
}

/// Where in a document something is wrong.
#[derive(Clone, Copy)]
pub struct Location {
    /// The row.
    pub row: RowOf,
    /// The key in the row, if the fault is about one.
    pub key: Option<Key>,
    /// The number of the text in the key's list, from 0, if the fault is about one.
    pub item: Option<usize>,
}

impl RowOf {
    /// The list of the document in which the row is, or the machine or the zone that has it, and the number there.
    pub fn number(self) -> Option<(Key, usize)> {
        match self {
            RowOf::Document => None,
            RowOf::Machine(machine) | RowOf::Pose { machine, .. } => Some((Key::Machine, machine)),
            RowOf::Zone(zone) | RowOf::Space(zone) | RowOf::Side { zone, .. } => {
                Some((Key::Zone, zone))
            }
            RowOf::Motor(motor) => Some((Key::Motor, motor)),
            RowOf::Hazard(hazard) => Some((Key::Hazard, hazard)),
        }
    }

    /// The list in which the row is, of a machine or of a zone that has it, and the number there.
    pub fn part(self) -> Option<(Key, usize)> {
        match self {
            RowOf::Pose { pose, .. } => Some((Key::Poses, pose)),
            RowOf::Side { side, .. } => Some((Key::Guests, side)),
            _ => None,
        }
    }

    /// The zone of a side; each other row as it is.
    pub fn zone(self) -> RowOf {
        match self {
            RowOf::Side { zone, .. } => RowOf::Space(zone),
            other => other,
        }
    }

    /// The row as a whole.
    pub fn whole(self) -> Location {
        Location {
            row: self,
            key: None,
            item: None,
        }
    }

    /// A key of the row.
    pub fn key(self, key: Key) -> Location {
        Location {
            row: self,
            key: Some(key),
            item: None,
        }
    }

    /// A text in the list of a key of the row.
    pub fn item(self, key: Key, item: usize) -> Location {
        Location {
            row: self,
            key: Some(key),
            item: Some(item),
        }
    }
}

impl Location {
    /// The fault that this is wrong here.
    pub fn fault(self, wrong: Wrong) -> DocumentFault {
        DocumentFault {
            location: self,
            wrong,
        }
    }

    /// The fault that a text is wrong here, or that memory ran out.
    pub(crate) fn text_fault(self, alloc: Global, why: WrongText, text: &str) -> DocumentFault {
        match String::from_str(alloc, text) {
            Ok(text) => self.fault(Wrong::Text(why, text)),
            Err(AllocError) => self.fault(Wrong::Memory),
        }
    }

    /// The fault that two texts are wrong together here, or that memory ran out.
    pub(crate) fn pair_fault(
        self,
        alloc: Global,
        why: WrongPair,
        first: &str,
        second: &str,
    ) -> DocumentFault {
        match wrong_pair(alloc, why, first, second) {
            Ok(wrong) => self.fault(wrong),
            Err(AllocError) => self.fault(Wrong::Memory),
        }
    }
}

fn wrong_pair(
    alloc: Global,
    why: WrongPair,
    first: &str,
    second: &str,
) -> Result<Wrong, AllocError> {
    let first = String::from_str(alloc, first)?;
    let second = String::from_str(alloc, second)?;
    Ok(Wrong::Pair(why, first, second))
}

/// What is wrong with a document, and where.
#[derive(Drop)]
pub struct DocumentFault {
    /// Where.
    pub location: Location,
    /// What is wrong.
    pub wrong: Wrong,
}

impl From<AllocError> for DocumentFault {
    fn from(_error: AllocError) -> DocumentFault {
        RowOf::Document.whole().fault(Wrong::Memory)
    }
}

impl<T: Drop> From<AllocFailed<T>> for DocumentFault {
    fn from(_error: AllocFailed<T>) -> DocumentFault {
        RowOf::Document.whole().fault(Wrong::Memory)
    }
}

/// The fault that a document has more than `most` of what a key lists.
pub fn too_many(key: Key, most: usize) -> DocumentFault {
    RowOf::Document.key(key).fault(Wrong::TooMany(most))
}

/// Why a document is refused.
#[derive(Drop)]
pub enum PlanTextFault {
    /// Reading failed.
    Read,
    /// Memory ran out.
    Memory,
    /// The document has more than 65,536 bytes.
    Long,
    /// It isn't TOML: on which line this is found, and why.
    NoToml {
        /// The line, from 1.
        line: usize,
        /// Why.
        message: String,
    },
    /// A row has a fault.
    Row {
        /// The line of what the fault is about, from 1; `None` if that isn't in the document.
        line: Option<usize>,
        /// The line of the first of two names that are the same.
        first: Option<usize>,
        /// The names of the rows that the fault is about.
        names: RowNames,
        /// The fault.
        fault: DocumentFault,
    },
    /// The word has more than 64 bits.
    TooWide(TooWide),
    /// Of a plant: zones that have to share a word don't fit one.
    GroupTooWide(GroupTooWide),
    /// Of a plant: its zones don't fit 16 words.
    TooManyWords,
}

/// The names of the row that a fault is about, and of the one in which that is. `None` where a row has no name, and
/// where the fault is about the name.
#[derive(Drop)]
pub struct RowNames {
    /// The name of the machine or of the zone.
    pub row: Option<String>,
    /// The name of the machine's pose, or of the zone's side.
    pub part: Option<String>,
}

impl RowNames {
    /// No names.
    pub fn none() -> RowNames {
        RowNames {
            row: None,
            part: None,
        }
    }
}

/// Zones of a plant that have to share a word, and don't fit one.
#[derive(Drop)]
pub struct GroupTooWide {
    /// The name of the first of these zones; empty if what doesn't fit needs no zone.
    pub zone: String,
    /// Why they don't fit.
    pub fault: PlanFault,
}

/// A plan whose word has more than 64 bits.
#[derive(Clone, Copy)]
pub struct TooWide {
    /// How many zones it has.
    pub zones: usize,
    /// How many places it has.
    pub places: usize,
    /// How many bits are missing.
    pub missing: u8,
    /// Whether one of the zones has several guests.
    pub is_shared: bool,
}

impl From<AllocError> for PlanTextFault {
    fn from(_error: AllocError) -> PlanTextFault {
        PlanTextFault::Memory
    }
}

impl<T: Drop> From<AllocFailed<T>> for PlanTextFault {
    fn from(_error: AllocFailed<T>) -> PlanTextFault {
        PlanTextFault::Memory
    }
}

impl From<DocumentFault> for PlanTextFault {
    fn from(fault: DocumentFault) -> PlanTextFault {
        match fault.wrong {
            Wrong::Memory => PlanTextFault::Memory,
            wrong => PlanTextFault::Row {
                line: None,
                first: None,
                names: RowNames::none(),
                fault: fault.location.fault(wrong),
            },
        }
    }
}
