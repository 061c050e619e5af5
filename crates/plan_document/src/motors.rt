//! From the names in the rows of motors and hazards to numbers.
ghost use Rattle.std.specs.Prelude.{◌≡◌, ◌++◌, ◌∷◌, ℕ, [], Some, None, false, length, get_or};
ghost use Rattle.std.specs.Prelude.{◌<◌, ◌&&◌, not, IsTrue, OnOk, IfOk, string_bytes};
ghost use Rattle.std.specs.List.{AllZip, list_all};
ghost use Rattle.plan_motors.specs.Motor.{no_need};
ghost use Rattle.plan_motors.specs.OfPlan.{AreMotorsOf};
ghost use Rattle.plan_text.specs.Names.{number_in};
ghost use Rattle.plan_document.specs.Motors as spec;
ghost use Rattle.plan_document.specs.Names as naming;
ghost use Rattle.plan_document.specs.Names.{AreDistinct, AreNames};
ghost use Rattle.plan_document.specs.Postures.{AreGiven};

use crate::document::{Document, HazardRow, MotorRow, PostureRow};
use crate::fault::{DocumentFault, Key, Location, RowOf, Wrong, WrongPair, WrongText, too_many};
use crate::tables::{add_name, gives_of, number_named, push_name};
use crate::values::position_of;
use plan_motors::{
    Hazard, MAX_MOTORS, Motor, MotorFault, NO_NEED, ZoneNeed, motors_and_hazards_fault,
};
use plan_text::words::posture_in;
use plan_text::{NamedPlan, Names};
use plan_types::{MAX_PLACES, MAX_ZONES, Posture};
use std::alloc::Global;

/// The most hazards.
pub const MAX_HAZARDS: usize = 64;

/// The most characters of a hazard's name.
const MAX_CHARACTERS: usize = 60;

/// The word for a zone that is held, whatever its posture.
const ANY: &str = "any";

/// Motors and hazards with names, of the plan of the same document.
#[derive(Drop)]
pub struct NamedMotors {
    /// The names of the motors.
    pub names: Names,
    /// The motors.
    pub motors: Vec<Motor>,
    /// The names of the hazards.
    pub hazard_names: Names,
    /// The hazards.
    pub hazards: Vec<Hazard>,
}

/// The motors and hazards of a document, or their first fault.
pub fn named_motors_of(
    alloc: Global,
    document: &Document,
    named: &NamedPlan,
) -> Result<NamedMotors, DocumentFault>
    ensures { IfOk result (spec.AreNamedMotorsOf document.now named.now) }
{
    let mut names = Names::new(alloc);
    add_motor_names(alloc, &document.motors, &mut names)?;
    let motors = motors_of(alloc, &document.motors, named)?;
    let mut hazard_names = Names::new(alloc);
    add_hazard_names(alloc, &document.hazards, &mut hazard_names)?;
    let hazards = hazards_of(alloc, &document.hazards, &names)?;
    check_fit(alloc, document, named, &motors, &hazards)?;
    Ok(NamedMotors {
        names,
        motors,
        hazard_names,
        hazards,
    })
}

/// Adds the names of all motors.
fn add_motor_names(
    alloc: Global,
    motors: &[MotorRow],
    names: &mut Names,
) -> Result<(), DocumentFault>
    requires { names.old ≡ [] }
    ensures names { OnOk result (names.new ≡ naming.motor_names motors.now) }
    ensures spelled { OnOk result (AreNames names.new) }
    ensures distinct { OnOk result (AreDistinct names.new) }
{
    for i in 0..motors.len() {
        let name = motors[i].name.as_str();
        add_name(
            alloc,
            names,
            name,
            MAX_MOTORS,
            RowOf::Motor(i).key(Key::Name),
        )?;
    }
    Ok(())
}

// ---- motors

/// The motors of all rows.
fn motors_of(
    alloc: Global,
    rows: &[MotorRow],
    named: &NamedPlan,
) -> Result<Vec<Motor>, DocumentFault>
    ensures { IfOk result (λ motors. AllZip (spec.IsMotorOf named.now) rows.now motors.items) }
{
    let mut motors = Vec::new(alloc);
    for i in 0..rows.len() {
        let motor = motor_of(alloc, &rows[i], RowOf::Motor(i), named)?;
        motors.push(motor)?;
    }
    Ok(motors)
}

/// The motor of a row, by the names of a plan.
fn motor_of(
    alloc: Global,
    row: &MotorRow,
    at: RowOf,
    named: &NamedPlan,
) -> Result<Motor, DocumentFault>
    ensures { IfOk result (spec.IsMotorOf named.now row.now) }
{
    let name = row.machine.as_str();
    let machine_at = at.key(Key::Machine);
    let machine = number_named(
        alloc,
        named.machines(),
        name,
        WrongText::NoMachine,
        machine_at,
    )?;
    let zones = needs_of(alloc, named.zones(), row, at)?;
    let places = place_needs_of(alloc, named.places(), row, at)?;
    Ok(Motor {
        machine,
        zones,
        places,
    })
}

/// What a motor needs of each zone.
fn needs_of(
    alloc: Global,
    zones: &Names,
    row: &MotorRow,
    at: RowOf,
) -> Result<[ZoneNeed; MAX_ZONES], DocumentFault>
    ensures { IfOk result (spec.AreNeeds zones.now row.now) }
{
    let holds = held_of(alloc, zones, &row.holds, at.key(Key::Holds))?;
    let stands = gives_of(alloc, zones, &row.stands, at.key(Key::Stands))?;
    check_zones(alloc, zones, holds, stands, at.key(Key::Stands))?;
    Ok(needs_by(holds, stands))
}

/// What rows say of each zone that is held.
fn held_of(
    alloc: Global,
    zones: &Names,
    rows: &[PostureRow],
    at: Location,
) -> Result<[Option<ZoneNeed>; MAX_ZONES], DocumentFault>
    ensures { IfOk result (AreGiven spec.held_need zones.now rows.now) }
{
    let mut holds = [None; MAX_ZONES];
    for i in 0..rows.len() {
        let (zone, need) = held_by(alloc, zones, &rows[i], at)?;
        if usize::from(zone) >= MAX_ZONES {
            return Err(at.fault(Wrong::TooMany(MAX_ZONES)));
        }
        holds[usize::from(zone)] = Some(need);
    }
    Ok(holds)
}

/// The zone that a row is about, and what the motor needs of it.
fn held_by(
    alloc: Global,
    zones: &Names,
    row: &PostureRow,
    at: Location,
) -> Result<(u8, ZoneNeed), DocumentFault>
    ensures zone { IfOk result (λ held.
        number_in zones.now (string_bytes row.now.zone) ≡ Some held.0) }
    ensures need { IfOk result (λ held.
        spec.held_need (string_bytes row.now.posture) ≡ Some held.1) }
{
    let name = row.zone.as_str();
    let word = row.posture.as_str();
    let zone = number_named(alloc, zones, name, WrongText::NoZone, at)?;
    match held_need(word) {
        Some(need) => Ok((zone, need)),
        None => Err(at.pair_fault(alloc, WrongPair::NoHeldPosture, name, word)),
    }
}

/// What a motor needs of a zone that is held, by the word of a posture or `any`.
fn held_need(word: &str) -> Option<ZoneNeed>
    ensures { result ≡ spec.held_need word.now }
{
    if word == ANY {
        return Some(need_in_posture(None));
    }
    let posture = posture_in(word)?;
    Some(need_in_posture(Some(posture)))
}

fn need_in_posture(posture: Option<Posture>) -> ZoneNeed
    ensures { result ≡ spec.held posture }
{
    ZoneNeed {
        holds: true,
        posture,
    }
}

/// Refuses a zone that is both under `holds` and under `stands`.
fn check_zones(
    alloc: Global,
    zones: &Names,
    holds: [Option<ZoneNeed>; MAX_ZONES],
    stands: [Option<Posture>; MAX_ZONES],
    at: Location,
) -> Result<(), DocumentFault>
    ensures { OnOk result ((zone : ℕ) → zone < 10 →
        IsTrue (spec.is_under_one (get_or holds zone None) (get_or stands zone None))) }
{
    for zone in 0..MAX_ZONES {
        if !is_under_one(holds, stands, zone) {
            let name = zones.name(zone as u8);
            return Err(at.text_fault(alloc, WrongText::AlsoIn(Key::Holds), name));
        }
    }
    Ok(())
}

fn is_under_one(
    holds: [Option<ZoneNeed>; MAX_ZONES],
    stands: [Option<Posture>; MAX_ZONES],
    zone: usize,
) -> bool
    requires { zone < 10 }
    ensures { result ≡ spec.is_under_one (get_or holds zone None) (get_or stands zone None) }
{
    holds[zone].is_none() || stands[zone].is_none()
}

/// What a motor needs of each zone, by both keys.
fn needs_by(
    holds: [Option<ZoneNeed>; MAX_ZONES],
    stands: [Option<Posture>; MAX_ZONES],
) -> [ZoneNeed; MAX_ZONES]
    ensures { (zone : ℕ) → zone < 10 →
        get_or result zone no_need ≡ spec.need (get_or holds zone None) (get_or stands zone None) }
{
    let mut needs = [NO_NEED; MAX_ZONES];
    for zone in 0..MAX_ZONES {
        needs[zone] = need_at(holds, stands, zone);
    }
    needs
}

fn need_at(
    holds: [Option<ZoneNeed>; MAX_ZONES],
    stands: [Option<Posture>; MAX_ZONES],
    zone: usize,
) -> ZoneNeed
    requires { zone < 10 }
    ensures { result ≡ spec.need (get_or holds zone None) (get_or stands zone None) }
{
    need(holds[zone], stands[zone])
}

/// What a motor needs of a zone: what `holds` says of it, or else what `stands` does.
fn need(holds: Option<ZoneNeed>, stands: Option<Posture>) -> ZoneNeed
    ensures { result ≡ spec.need holds stands }
{
    match holds {
        Some(held) => held,
        None => ZoneNeed {
            holds: false,
            posture: stands,
        },
    }
}

// ---- places

/// What a motor needs of each place.
fn place_needs_of(
    alloc: Global,
    places: &Names,
    row: &MotorRow,
    at: RowOf,
) -> Result<[Option<bool>; MAX_PLACES], DocumentFault>
    ensures { IfOk result (spec.ArePlaceNeeds places.now row.now) }
{
    let full = listed_of(alloc, places, &row.full, at, Key::Full)?;
    let empty = listed_of(alloc, places, &row.empty, at, Key::Empty)?;
    check_places(alloc, places, full, empty, at.key(Key::Empty))?;
    Ok(place_needs_by(full, empty))
}

/// Which places are named.
fn listed_of(
    alloc: Global,
    places: &Names,
    names: &[String],
    at: RowOf,
    key: Key,
) -> Result<[bool; MAX_PLACES], DocumentFault>
    ensures { IfOk result (spec.AreListed places.now names.now) }
{
    let mut listed = [false; MAX_PLACES];
    for item in 0..names.len() {
        let location = at.item(key, item);
        let name = names[item].as_str();
        let place = number_named(alloc, places, name, WrongText::NoPlace, location)?;
        if usize::from(place) >= MAX_PLACES {
            return Err(location.fault(Wrong::TooMany(MAX_PLACES)));
        }
        listed[usize::from(place)] = true;
    }
    Ok(listed)
}

/// Refuses a place that has to be full and empty.
fn check_places(
    alloc: Global,
    places: &Names,
    full: [bool; MAX_PLACES],
    empty: [bool; MAX_PLACES],
    at: Location,
) -> Result<(), DocumentFault>
    ensures { OnOk result ((place : ℕ) → place < 16 →
        IsTrue (not (get_or full place false && get_or empty place false))) }
{
    for place in 0..MAX_PLACES {
        if are_both(full, empty, place) {
            let name = places.name(place as u8);
            return Err(at.text_fault(alloc, WrongText::AlsoIn(Key::Full), name));
        }
    }
    Ok(())
}

fn are_both(full: [bool; MAX_PLACES], empty: [bool; MAX_PLACES], place: usize) -> bool
    requires { place < 16 }
    ensures { result ≡ (get_or full place false && get_or empty place false) }
{
    full[place] && empty[place]
}

/// What a motor needs of each place, by both keys.
fn place_needs_by(full: [bool; MAX_PLACES], empty: [bool; MAX_PLACES]) -> [Option<bool>; MAX_PLACES]
    ensures { (place : ℕ) → place < 16 →
        get_or result place None ≡ spec.full_or_empty (get_or full place false)
        (get_or empty place false) }
{
    let mut needs = [None; MAX_PLACES];
    for place in 0..MAX_PLACES {
        needs[place] = need_of_place(full, empty, place);
    }
    needs
}

fn need_of_place(full: [bool; MAX_PLACES], empty: [bool; MAX_PLACES], place: usize) -> Option<bool>
    requires { place < 16 }
    ensures { result ≡ spec.full_or_empty (get_or full place false) (get_or empty place false) }
{
    full_or_empty(full[place], empty[place])
}

/// What a motor needs of a place that is among those that have to be full, or to be empty.
fn full_or_empty(full: bool, empty: bool) -> Option<bool>
    ensures { result ≡ spec.full_or_empty full empty }
{
    match (full, empty) {
        (true, _) => Some(true),
        (false, true) => Some(false),
        (false, false) => None,
    }
}

// ---- hazards

/// Adds the names of all hazards.
fn add_hazard_names(
    alloc: Global,
    hazards: &[HazardRow],
    names: &mut Names,
) -> Result<(), DocumentFault>
    requires { names.old ≡ [] }
    ensures names { OnOk result (names.new ≡ naming.hazard_names hazards.now) }
    ensures spelled { OnOk result (IsTrue (list_all naming.is_title names.new)) }
    ensures distinct { OnOk result (AreDistinct names.new) }
{
    for i in 0..hazards.len() {
        let title = hazards[i].name.as_str();
        add_title(alloc, names, title, RowOf::Hazard(i).key(Key::Name))?;
    }
    Ok(())
}

/// Adds the name of a hazard.
fn add_title(
    alloc: Global,
    names: &mut Names,
    title: &str,
    at: Location,
) -> Result<(), DocumentFault>
    ensures name { OnOk result (names.new ≡ names.old ++ title.now ∷ []) }
    ensures spelled { OnOk result (IsTrue (naming.is_title title.now)) }
    ensures distinct { OnOk result (AreDistinct names.old → AreDistinct names.new) }
{
    check_title(alloc, names, title, at)?;
    push_name(alloc, names, title)?;
    Ok(())
}

/// Refuses a hazard's name that is none, that is there already, or for which there is no room.
fn check_title(alloc: Global, names: &Names, title: &str, at: Location) -> Result<(), DocumentFault>
    ensures room { OnOk result (length names.now < 64) }
    ensures spelled { OnOk result (IsTrue (naming.is_title title.now)) }
    ensures other { OnOk result (number_in names.now title.now ≡ None) }
{
    if names.len() >= MAX_HAZARDS {
        return Err(at.fault(Wrong::TooMany(MAX_HAZARDS)));
    }
    if !is_title(title) {
        return Err(at.text_fault(alloc, WrongText::NoTitle, title));
    }
    if names.number_of(title.as_bytes()).is_some() {
        return Err(at.text_fault(alloc, WrongText::Twice, title));
    }
    Ok(())
}

/// Whether a text is a hazard's name: printable ASCII without a colon, at most 60 characters.
pub fn is_title(text: &str) -> bool
    ensures { result ≡ naming.is_title text.now }
{
    let bytes = text.as_bytes();
    !bytes.is_empty() && bytes.len() <= MAX_CHARACTERS && are_title_bytes(bytes)
}

fn are_title_bytes(bytes: &[u8]) -> bool
    ensures { result ≡ list_all naming.is_title_byte bytes.now }
{
    bytes.iter().all(|byte| is_title_byte(*byte))
}

fn is_title_byte(byte: u8) -> bool
    ensures { result ≡ naming.is_title_byte byte }
{
    32 <= byte && byte <= 126 && byte != b':'
}

/// The hazards of all rows.
fn hazards_of(
    alloc: Global,
    rows: &[HazardRow],
    motors: &Names,
) -> Result<Vec<Hazard>, DocumentFault>
    ensures { IfOk result (λ hazards. AllZip (spec.IsHazardOf motors.now) rows.now hazards.items) }
{
    let mut hazards = Vec::new(alloc);
    for i in 0..rows.len() {
        let hazard = hazard_of(alloc, &rows[i], RowOf::Hazard(i), motors)?;
        hazards.push(hazard)?;
    }
    Ok(hazards)
}

/// The hazard of a row, by the names of motors.
fn hazard_of(
    alloc: Global,
    row: &HazardRow,
    at: RowOf,
    motors: &Names,
) -> Result<Hazard, DocumentFault>
    ensures { IfOk result (spec.IsHazardOf motors.now row.now) }
{
    let no_motor = WrongText::NoMotor;
    let first_at = at.item(Key::Motors, 0);
    let first = number_named(alloc, motors, row.first.as_str(), no_motor, first_at)?;
    let second_at = at.item(Key::Motors, 1);
    let second = number_named(alloc, motors, row.second.as_str(), no_motor, second_at)?;
    Ok(Hazard { first, second })
}

// ---- motors and hazards that don't fit the plan

/// Refuses motors and hazards that don't fit the plan.
fn check_fit(
    alloc: Global,
    document: &Document,
    named: &NamedPlan,
    motors: &[Motor],
    hazards: &[Hazard],
) -> Result<(), DocumentFault>
    ensures { OnOk result (AreMotorsOf named.now.plan motors.now hazards.now) }
{
    match motors_and_hazards_fault(named.plan(), motors, hazards) {
        None => Ok(()),
        Some(fault) => Err(fault_of(alloc, document, named, fault)),
    }
}

/// The fault of motors and hazards in words of the document.
fn fault_of(
    alloc: Global,
    document: &Document,
    named: &NamedPlan,
    fault: MotorFault,
) -> DocumentFault {
    match fault {
        MotorFault::TooManyMotors => too_many(Key::Motor, MAX_MOTORS),
        MotorFault::NoSuchMachine { motor } => RowOf::Motor(motor)
            .key(Key::Machine)
            .fault(Wrong::Missing),
        MotorFault::ForeignZone { motor, zone } => {
            foreign_zone(alloc, document, named, motor, zone)
        }
        MotorFault::NotHeld { motor, zone } => not_held(alloc, named, motor, zone),
        MotorFault::ForeignPlace { motor, place } => {
            foreign_place(alloc, document, named, motor, place)
        }
        MotorFault::NeverPermitted { motor } => {
            RowOf::Motor(motor).whole().fault(Wrong::NeverPermitted)
        }
        MotorFault::NoSuchFirst { hazard } => RowOf::Hazard(hazard)
            .item(Key::Motors, 0)
            .fault(Wrong::Missing),
        MotorFault::NoSuchSecond { hazard } => RowOf::Hazard(hazard)
            .item(Key::Motors, 1)
            .fault(Wrong::Missing),
    }
}

/// The fault of a motor that needs a zone of which its machine is no party.
fn foreign_zone(
    alloc: Global,
    document: &Document,
    named: &NamedPlan,
    motor: usize,
    zone: usize,
) -> DocumentFault {
    let name = name_with(named.zones(), zone);
    let key = key_of_zone(document, motor, name);
    RowOf::Motor(motor)
        .key(key)
        .text_fault(alloc, WrongText::NoParty, name)
}

/// The key under which a motor names a zone.
fn key_of_zone(document: &Document, motor: usize, zone: &str) -> Key {
    if let Some(row) = document.motors.get(motor) {
        for held in &row.holds {
            if held.zone.as_str() == zone {
                return Key::Holds;
            }
        }
    }
    Key::Stands
}

/// The fault of a motor that needs a posture of a zone that its machine neither hosts nor has to hold.
fn not_held(alloc: Global, named: &NamedPlan, motor: usize, zone: usize) -> DocumentFault {
    let name = name_with(named.zones(), zone);
    RowOf::Motor(motor)
        .key(Key::Stands)
        .text_fault(alloc, WrongText::Foreign, name)
}

/// The fault of a motor that needs a place which its machine doesn't keep.
fn foreign_place(
    alloc: Global,
    document: &Document,
    named: &NamedPlan,
    motor: usize,
    place: usize,
) -> DocumentFault {
    let name = name_with(named.places(), place);
    location_of_place(document, motor, name).text_fault(alloc, WrongText::NotKept, name)
}

/// Where a motor names a place.
fn location_of_place(document: &Document, motor: usize, place: &str) -> Location {
    let at = RowOf::Motor(motor);
    let Some(row) = document.motors.get(motor) else {
        return at.whole();
    };
    match (
        position_of(&row.full, place),
        position_of(&row.empty, place),
    ) {
        (Some(item), _) => at.item(Key::Full, item),
        (None, Some(item)) => at.item(Key::Empty, item),
        (None, None) => at.whole(),
    }
}

/// The name with a number.
fn name_with(names: &Names, number: usize) -> &str {
    match u8::try_from(number) {
        Ok(number) => names.name(number),
        Err(_) => "",
    }
}
