//! The words of faults.

use crate::fault::{
    DocumentFault, GroupTooWide, Key, Location, PlanTextFault, RowNames, RowOf, TooWide, WayEnd,
    Wrong, WrongPair, WrongText,
};
use crate::reading::MAX_BYTES;
use plan_types::{MAX_PLACES, MAX_POSES, MAX_ZONES, PlanFault};
use plan_words::{MAX_PLANT_ZONES, MAX_WORDS};
use std::fmt;

/// The most characters of a text that are shown.
const MAX_SHOWN: usize = 40;

/// What is said of a text that isn't a name.
const NO_NAME: &str =
    " isn't a name: a letter, then letters, digits or underscores, lower case, at most 32";

/// What is said of a text that isn't a posture.
const NO_POSTURE: &str = " isn't a posture; known: closed, moving, openin, openout";

/// What is said of a text that is neither a posture nor `any`.
const NO_HELD_POSTURE: &str =
    " isn't a posture; known: closed, moving, openin, openout, and any for each of them";

/// What is said of a text that isn't a hazard's name.
const NO_TITLE: &str =
    " isn't a hazard's name: printable ASCII without a colon, at most 60 characters";

/// What is said after the first of the zones that have to share a word.
const JOINED: &str = " and the zones that poses, places and spaces join to it: ";

/// What is said of two sides of a zone that get unlike postures.
const HALF_SPACE: &str = ": a pose moves both or neither, and gives both a posture or neither";

/// What is said of a line that isn't a step.
const NO_STEP: &str =
    " isn't a step: claim, give, yield, take or release with a zone, advance with a place, \
     pose with a pose, await with a sensor or a zone, or run with motors, until and a sensor";

/// What is said of a word that isn't a refusal on which a line may stop its machine.
const NO_REFUSAL: &str =
    " isn't a refusal to stop on; known: held, shut, notowner, platein, noplate, placefull, \
     wrongway, stopped";

/// A text in quotes: its first 40 characters, and `?` for one that isn't printable ASCII.
#[derive(Clone, Copy)]
struct Quoted<'a> {
    text: &'a str,
}

impl fmt::Display for Quoted<'_> {
    fn fmt<W: fmt::Write>(&self, f: &mut fmt::Formatter<W>) -> fmt::Result {
        f.write_str("\"")?;
        for letter in self.text.chars().take(MAX_SHOWN) {
            if letter == ' ' || letter.is_ascii_graphic() {
                f.write_char(letter)?;
            } else {
                f.write_str("?")?;
            }
        }
        if self.text.chars().nth(MAX_SHOWN).is_some() {
            f.write_str("..")?;
        }
        f.write_str("\"")
    }
}

/// Writes a row by its name, or else by its number, from 1.
fn write_row<W: fmt::Write>(
    f: &mut fmt::Formatter<W>,
    kind: &str,
    index: usize,
    name: &Option<String>,
) -> fmt::Result {
    f.write_str(kind)?;
    match name {
        Some(name) => f.write_str(name.as_str()),
        None => {
            let number = index.saturating_add(1);
            write!(f, "{number}")
        }
    }
}

/// Writes the rows that a fault is about.
fn write_rows<W: fmt::Write>(
    f: &mut fmt::Formatter<W>,
    row: RowOf,
    names: &RowNames,
) -> fmt::Result {
    match row {
        RowOf::Document => f.write_str("the document"),
        RowOf::Machine(machine) => write_row(f, "machine ", machine, &names.row),
        RowOf::Pose { machine, pose } => {
            write_row(f, "machine ", machine, &names.row)?;
            write_row(f, ": pose ", pose, &names.part)
        }
        RowOf::Zone(zone) | RowOf::Space(zone) => write_row(f, "zone ", zone, &names.row),
        RowOf::Side { zone, side } => {
            write_row(f, "zone ", zone, &names.row)?;
            write_row(f, ": side ", side, &names.part)
        }
        RowOf::Motor(motor) => write_row(f, "motor ", motor, &names.row),
        RowOf::Hazard(hazard) => write_row(f, "hazard ", hazard, &names.row),
    }
}

/// Writes a fault after its line.
fn write_fault<W: fmt::Write>(
    f: &mut fmt::Formatter<W>,
    names: &RowNames,
    fault: &DocumentFault,
) -> fmt::Result {
    let Location { row, key, .. } = fault.location;
    write_rows(f, row, names)?;
    f.write_str(": ")?;
    if let Some(key) = key {
        let word = key.word();
        write!(f, "{word}: ")?;
    }
    match &fault.wrong {
        Wrong::Text(why, text) => write_text(f, row, *why, text.as_str()),
        Wrong::Pair(why, first, second) => write_pair(f, *why, first.as_str(), second.as_str()),
        Wrong::NoTables => f.write_str(no_tables(key)),
        wrong => write_plain(wrong, f),
    }
}

/// Writes that a row has a key which isn't known, and the known ones.
fn write_unknown<W: fmt::Write>(f: &mut fmt::Formatter<W>, row: RowOf, text: &str) -> fmt::Result {
    let quoted = Quoted { text };
    write!(f, "{quoted} isn't a key here; known: ")?;
    let mut before = "";
    for key in row.keys() {
        f.write_str(before)?;
        f.write_str(key.word())?;
        before = ", ";
    }
    Ok(())
}

/// What is said of a value that isn't a list of tables.
fn no_tables(key: Option<Key>) -> &'static str {
    match key {
        Some(Key::Machine) => "it takes a list of tables; begin each with [[machine]]",
        Some(Key::Zone) => "it takes a list of tables; begin each with [[zone]]",
        Some(Key::Motor) => "it takes a list of tables; begin each with [[motor]]",
        Some(Key::Hazard) => "it takes a list of tables; begin each with [[hazard]]",
        _ => "it takes a list of tables",
    }
}

/// Writes that a way leads astray.
fn write_astray<W: fmt::Write>(
    f: &mut fmt::Formatter<W>,
    place: &str,
    end: WayEnd,
    machine: &str,
) -> fmt::Result {
    let place = Quoted { text: place };
    let machine = Quoted { text: machine };
    let (before, between) = (end.before(), end.between());
    write!(f, "{before}{place}{between}{machine}")
}

/// Writes that a pose gives two sides of a zone unlike postures.
fn write_half<W: fmt::Write>(f: &mut fmt::Formatter<W>, side: &str, first: &str) -> fmt::Result {
    let side = Quoted { text: side };
    let first = Quoted { text: first };
    write!(f, "{first} and {side} are one space{HALF_SPACE}")
}

/// Writes that a zone or a place stands under another key of the motor, too.
fn write_also_in<W: fmt::Write>(f: &mut fmt::Formatter<W>, key: Key, text: &str) -> fmt::Result {
    let quoted = Quoted { text };
    let word = key.word();
    write!(f, "{quoted} is in {word}, too")
}

/// Writes what is wrong with a text in a row.
fn write_text<W: fmt::Write>(
    f: &mut fmt::Formatter<W>,
    row: RowOf,
    why: WrongText,
    text: &str,
) -> fmt::Result {
    match why {
        WrongText::Unknown => write_unknown(f, row, text),
        WrongText::AlsoIn(key) => write_also_in(f, key, text),
        _ => {
            f.write_str(before_text(why))?;
            let quoted = Quoted { text };
            write!(f, "{quoted}")?;
            f.write_str(after_text(why))
        }
    }
}

/// What is said before a text.
fn before_text(why: WrongText) -> &'static str {
    match why {
        WrongText::SameInC | WrongText::SensorSameInC => "for C it is ",
        WrongText::NoMachine => "no machine is named ",
        WrongText::NoZone => "no zone is named ",
        WrongText::NoPlace => "no place is named ",
        WrongText::NoPose => "the machine has no pose ",
        WrongText::Foreign => "the machine doesn't host ",
        WrongText::NoMotor => "no motor is named ",
        WrongText::NoOwnMotor => "no motor of the machine is named ",
        WrongText::NoSensor => "no sensor of the machine is named ",
        WrongText::NoZoneOrSensor => "no zone, and no sensor of the machine, is named ",
        WrongText::NoParty => "the machine is neither host nor guest of ",
        WrongText::NotKept => "the machine doesn't keep ",
        _ => "",
    }
}

/// What is said after a text.
fn after_text(why: WrongText) -> &'static str {
    match why {
        WrongText::NoName => NO_NAME,
        WrongText::Reserved => " is a word of scripts, and names no machine",
        WrongText::Twice => " is defined twice",
        WrongText::SameInC => ", and so is another pose's",
        WrongText::SensorSameInC => ", and so is another sensor's",
        WrongText::NoStep => NO_STEP,
        WrongText::ZoneToo => " is the name of a zone, too",
        WrongText::Never(why) => why.text(),
        WrongText::NoRefusal => NO_REFUSAL,
        WrongText::StopsAlways => " stops the machine anyway: waiting never mends it",
        WrongText::NamedTwice => " is named twice",
        WrongText::GuestTwice => " is a guest of the zone already",
        WrongText::NoRefusals => " names no refusal to stop on",
        WrongText::NoCall => " isn't a call, and only a call stops on refusals",
        WrongText::NoTitle => NO_TITLE,
        _ => "",
    }
}

/// Writes what is wrong with two texts together.
fn write_pair<W: fmt::Write>(
    f: &mut fmt::Formatter<W>,
    why: WrongPair,
    first: &str,
    second: &str,
) -> fmt::Result {
    let quoted = Quoted { text: second };
    match why {
        WrongPair::NoPosture => write!(f, "{quoted}{NO_POSTURE}"),
        WrongPair::NoHeldPosture => write!(f, "{quoted}{NO_HELD_POSTURE}"),
        WrongPair::Astray(end) => write_astray(f, first, end, second),
        WrongPair::HalfSpace => write_half(f, first, second),
    }
}

fn write_plain<W: fmt::Write>(wrong: &Wrong, f: &mut fmt::Formatter<W>) -> fmt::Result {
    let text = match wrong {
        Wrong::NoMachines => "there is no [[machine]]",
        Wrong::Missing => "it is missing",
        Wrong::NoText => "it takes a text; put quotes round it",
        Wrong::NoTexts => "it takes a list of texts, such as [\"hand\", \"die\"]",
        Wrong::NoLines => "it takes a list of texts, such as [\"claim door\", \"release door\"]",
        Wrong::NoTable => "it takes a table, such as { interior = \"closed\" }",
        Wrong::NoTruth => "it takes true or false",
        Wrong::NoWay => "it takes two places: from which one, and to which",
        Wrong::NoMotors => "it takes two motors, such as [\"ram\", \"arm_in_press\"]",
        Wrong::NoGuests => "there is no guest",
        Wrong::NeverPermitted => "no state of the plan permits it",
        Wrong::TooMany(most) => return write_too_many(f, *most),
        Wrong::TooManyLines(most) => return write!(f, "it has more than {most} lines"),
        Wrong::HostIsGuest => "the host is its own guest",
        _ => "memory ran out",
    };
    f.write_str(text)
}

/// Writes that there are more than fit a plan; of zones, which command takes more.
fn write_too_many<W: fmt::Write>(f: &mut fmt::Formatter<W>, most: usize) -> fmt::Result {
    write!(f, "there are more than {most}")?;
    if most == MAX_ZONES {
        write!(f, "; plan words reads up to {MAX_PLANT_ZONES}")?;
    }
    Ok(())
}

impl fmt::Display for PlanTextFault {
    fn fmt<W: fmt::Write>(&self, f: &mut fmt::Formatter<W>) -> fmt::Result {
        match self {
            PlanTextFault::Read => f.write_str("read"),
            PlanTextFault::Memory => f.write_str("memory"),
            PlanTextFault::Long => write!(f, "plan long: it has more than {MAX_BYTES} bytes"),
            PlanTextFault::NoToml { line, message } => {
                let message = message.as_str();
                write!(f, "plan line {line}: this isn't TOML: {message}")
            }
            PlanTextFault::Row {
                line,
                first,
                names,
                fault,
            } => {
                f.write_str("plan ")?;
                if let Some(line) = line {
                    write!(f, "line {line}: ")?;
                }
                write_fault(f, names, fault)?;
                write_first(f, *first)
            }
            PlanTextFault::TooWide(plan) => write!(f, "plan wide: {plan}"),
            PlanTextFault::GroupTooWide(group) => write!(f, "plan wide: no word holds {group}"),
            PlanTextFault::TooManyWords => {
                write!(f, "plan wide: its zones don't fit {MAX_WORDS} words")
            }
        }
    }
}

/// Writes the line of the first of two names that are the same.
fn write_first<W: fmt::Write>(f: &mut fmt::Formatter<W>, first: Option<usize>) -> fmt::Result {
    match first {
        Some(line) => write!(f, ", first on line {line}"),
        None => Ok(()),
    }
}

impl fmt::Display for TooWide {
    /// Says what would help: to leave out this number of bits, in places and in zones, or several words.
    fn fmt<W: fmt::Write>(&self, f: &mut fmt::Formatter<W>) -> fmt::Result {
        let TooWide {
            zones,
            places,
            missing,
            is_shared,
        } = *self;
        let missing = usize::from(missing);
        let needed = missing + 64;
        write_count(f, zones, "zone")?;
        f.write_str(" and ")?;
        write_count(f, places, "place")?;
        write!(f, " need {needed} bits, and 64 fit: leave out ")?;
        write_count(f, missing, "bit")?;
        f.write_str(bits_of_kinds(is_shared))?;
        f.write_str(", or try plan words")
    }
}

impl fmt::Display for GroupTooWide {
    /// Says which zones these are, and why they don't fit.
    fn fmt<W: fmt::Write>(&self, f: &mut fmt::Formatter<W>) -> fmt::Result {
        let zone = self.zone.as_str();
        if zone.is_empty() {
            f.write_str("the poses and places that need no zone: ")?;
        } else {
            let quoted = Quoted { text: zone };
            write!(f, "{quoted}{JOINED}")?;
        }
        match self.fault {
            PlanFault::TooManyZones => write!(f, "there are more than {MAX_ZONES} zones"),
            PlanFault::TooManyPoses => write!(f, "there are more than {MAX_POSES} poses"),
            PlanFault::TooManyPlaces => write!(f, "there are more than {MAX_PLACES} places"),
            PlanFault::TooWide { missing } => {
                let needed = usize::from(missing) + 64;
                write!(f, "they need {needed} bits, and 64 fit")
            }
            _ => f.write_str("they break a rule of plans"),
        }
    }
}

/// How many bits a place has, and a zone, of which some may have several guests.
fn bits_of_kinds(is_shared: bool) -> &'static str {
    if is_shared {
        " (a place has 1, a zone 2 to 7, and 0 to 3 for each guest after the first)"
    } else {
        " (a place has 1, a zone 2 to 5)"
    }
}

/// Writes how many there are.
fn write_count<W: fmt::Write>(f: &mut fmt::Formatter<W>, count: usize, kind: &str) -> fmt::Result {
    let ending = if count == 1 { "" } else { "s" };
    write!(f, "{count} {kind}{ending}")
}
