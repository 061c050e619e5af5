//! From the names in a document's rows to numbers: the tables of a plan.
ghost use Rattle.std.specs.Prelude.{◌≡◌, ◌++◌, ◌∷◌, ℕ, List, [], Some, None, length};
ghost use Rattle.std.specs.Prelude.{◌<◌, IsTrue, OnOk, IfOk, string_bytes};
ghost use Rattle.std.specs.List.{AllZip, list_all};
ghost use Rattle.plan_text.specs.Names as spec;
ghost use Rattle.plan_text.specs.Names.{number_in};
ghost use Rattle.plan_text.specs.Answers.{posture_of};
ghost use Rattle.plan_document.specs.Names as naming;
ghost use Rattle.plan_document.specs.Names.{AreDistinct, AreNames, all_poses, identifier, identifiers};
ghost use Rattle.plan_document.specs.Names.{identifiers_in, machine_names, names_in, numbered_poses};
ghost use Rattle.plan_document.specs.Names.{place_names, places_in, pose_names, space_before, taken_names};
ghost use Rattle.plan_document.specs.Names.{zone_names};
ghost use Rattle.plan_document.specs.Postures.{AreGiven};
ghost use Rattle.plan_document.specs.Saying as saying;
ghost use Rattle.plan_document.specs.declared.document.PoseRow.{PoseRow as Pose};

use crate::document::{Document, MachineRow, PoseRow, PostureRow, WayRow, ZoneRow};
use crate::fault::{DocumentFault, Key, Location, RowOf, Wrong, WrongPair, WrongText, too_many};
use crate::values::copy;
use plan_text::names::{is_name, is_reserved};
use plan_text::words::posture_in;
use plan_text::{MAX_NAMES, Names};
use plan_types::{
    MAX_MACHINES, MAX_PLACES, MAX_POSES, MAX_ZONES, PlanPlace, PlanPose, PlanZone, Posture, Way,
};
use std::alloc::{AllocError, Global};

/// The names in a document, and the rows of a plan's tables by numbers.
#[derive(Drop)]
pub struct Rows {
    pub machines: Names,
    pub places: Names,
    pub place_rows: Vec<PlanPlace>,
    pub zones: Names,
    /// The name of each zone's space.
    pub spaces: Names,
    /// The names of zones, and of those that list their guests.
    pub taken: Names,
    pub zone_rows: Vec<PlanZone>,
    pub poses: Names,
    pub pose_rows: Vec<PlanPose>,
    /// The poses' names for C.
    pub identifiers: Names,
}

/// The names and rows of a document, or the first fault of them.
pub fn rows_of(alloc: Global, document: &Document) -> Result<Rows, DocumentFault>
    ensures { IfOk result (saying.AreRowsOf document.now) }
{
    let mut rows = Rows {
        machines: Names::new(alloc),
        places: Names::new(alloc),
        place_rows: Vec::new(alloc),
        zones: Names::new(alloc),
        spaces: Names::new(alloc),
        taken: Names::new(alloc),
        zone_rows: Vec::new(alloc),
        poses: Names::new(alloc),
        pose_rows: Vec::new(alloc),
        identifiers: Names::new(alloc),
    };
    add_rows(alloc, document, &mut rows)?;
    Ok(rows)
}

/// Adds the names and the rows of a document where there are none.
fn add_rows(alloc: Global, document: &Document, rows: &mut Rows) -> Result<(), DocumentFault>
    requires machines { rows.old.machines ≡ [] }
    requires places { rows.old.places ≡ [] }
    requires place_rows { rows.old.place_rows.items ≡ [] }
    requires zones { rows.old.zones ≡ [] }
    requires spaces { rows.old.spaces ≡ [] }
    requires taken { rows.old.taken ≡ [] }
    requires zone_rows { rows.old.zone_rows.items ≡ [] }
    requires poses { rows.old.poses ≡ [] }
    requires pose_rows { rows.old.pose_rows.items ≡ [] }
    requires identifiers { rows.old.identifiers ≡ [] }
    ensures { OnOk result (saying.AreRowsOf document.now rows.new) }
{
    add_machine_names(alloc, &document.machines, &mut rows.machines)?;
    add_all_places(
        alloc,
        &document.machines,
        MAX_PLACES,
        &mut rows.places,
        &mut rows.place_rows,
    )?;
    check_ends(alloc, &document.machines)?;
    add_zone_names(
        alloc,
        &document.zones,
        MAX_ZONES,
        &mut rows.zones,
        &mut rows.taken,
    )?;
    add_space_names(alloc, &document.zones, &mut rows.spaces)?;
    add_zone_rows(
        alloc,
        &document.zones,
        &rows.machines,
        &rows.places,
        &mut rows.zone_rows,
    )?;
    add_all_poses(
        alloc,
        &document.machines,
        &rows.zones,
        &mut rows.poses,
        &mut rows.pose_rows,
    )?;
    add_all_identifiers(alloc, &document.machines, &mut rows.identifiers)
}

/// Adds a name of a row to names of its kind, of which a plan has at most `most`.
pub fn add_name(
    alloc: Global,
    names: &mut Names,
    name: &str,
    most: usize,
    at: Location,
) -> Result<(), DocumentFault>
    ensures name { OnOk result (names.new ≡ names.old ++ name.now ∷ []) }
    ensures few { OnOk result (length names.old < most) }
    ensures spelled { OnOk result (IsTrue (spec.is_name name.now)) }
    ensures distinct { OnOk result (AreDistinct names.old → AreDistinct names.new) }
{
    check_name(alloc, names, name, most, at)?;
    push_name(alloc, names, name)?;
    Ok(())
}

/// Refuses a name that is none, that is there already, or for which there is no room.
fn check_name(
    alloc: Global,
    names: &Names,
    name: &str,
    most: usize,
    at: Location,
) -> Result<(), DocumentFault>
    ensures room { OnOk result (length names.now < 64) }
    ensures few { OnOk result (length names.now < most) }
    ensures spelled { OnOk result (IsTrue (spec.is_name name.now)) }
    ensures other { OnOk result (number_in names.now name.now ≡ None) }
{
    if names.len() >= most || names.len() >= MAX_NAMES {
        return Err(at.fault(Wrong::TooMany(most)));
    }
    if !is_name(name) {
        return Err(at.text_fault(alloc, WrongText::NoName, name));
    }
    if names.number_of(name.as_bytes()).is_some() {
        return Err(at.text_fault(alloc, WrongText::Twice, name));
    }
    Ok(())
}

/// Adds a name where there is room for it.
pub fn push_name(alloc: Global, names: &mut Names, name: &str) -> Result<(), DocumentFault>
    requires { length names.old < 64 }
    ensures name { OnOk result (names.new ≡ names.old ++ name.now ∷ []) }
    ensures distinct { OnOk result (number_in names.old name.now ≡ None
        → AreDistinct names.old → AreDistinct names.new) }
{
    let name = copy(alloc, name)?;
    names.push(name)?;
    Ok(())
}

/// Adds the names of all machines.
pub fn add_machine_names(
    alloc: Global,
    machines: &[MachineRow],
    names: &mut Names,
) -> Result<(), DocumentFault>
    requires { names.old ≡ [] }
    ensures names { OnOk result (names.new ≡ machine_names machines.now) }
    ensures free { OnOk result (IsTrue (list_all saying.is_free names.new)) }
    ensures spelled { OnOk result (AreNames names.new) }
    ensures distinct { OnOk result (AreDistinct names.new) }
{
    for i in 0..machines.len() {
        let name = machines[i].name.as_str();
        let at = RowOf::Machine(i).key(Key::Name);
        add_name(alloc, names, name, usize::from(MAX_MACHINES), at)?;
        check_free(alloc, name, at)?;
    }
    Ok(())
}

/// Refuses a word of scripts as a machine's name.
fn check_free(alloc: Global, name: &str, at: Location) -> Result<(), DocumentFault>
    ensures { OnOk result (IsTrue (saying.is_free name.now)) }
{
    if is_reserved(name) {
        return Err(at.text_fault(alloc, WrongText::Reserved, name));
    }
    Ok(())
}

/// Adds the names of all zones, at most `most`, and among those that are taken also the names of zones that list their
/// guests.
pub fn add_zone_names(
    alloc: Global,
    zones: &[ZoneRow],
    most: usize,
    names: &mut Names,
    taken: &mut Names,
) -> Result<(), DocumentFault>
    requires names { names.old ≡ [] }
    requires taken { taken.old ≡ [] }
    ensures names { OnOk result (names.new ≡ zone_names zones.now) }
    ensures spelled { OnOk result (AreNames names.new) }
    ensures distinct { OnOk result (AreDistinct names.new) }
    ensures taken { OnOk result (taken.new ≡ taken_names zones.now) }
    ensures taken_spelled { OnOk result (AreNames taken.new) }
    ensures taken_distinct { OnOk result (AreDistinct taken.new) }
{
    for i in 0..zones.len() {
        let row = &zones[i];
        let at = row.at.key(Key::Name);
        add_space_before(alloc, row, taken)?;
        add_name(alloc, names, row.name.as_str(), most, at)?;
        add_name(alloc, taken, row.name.as_str(), MAX_NAMES, at)?;
    }
    Ok(())
}

/// Adds the name of the zone that lists its guests, if this is the first of them.
fn add_space_before(alloc: Global, row: &ZoneRow, taken: &mut Names) -> Result<(), DocumentFault>
    ensures names { OnOk result (taken.new ≡ taken.old ++ space_before row.now) }
    ensures spelled { OnOk result (AreNames taken.old → AreNames taken.new) }
    ensures distinct { OnOk result (AreDistinct taken.old → AreDistinct taken.new) }
{
    match &row.space {
        Some(space) if !row.joins => {
            let at = row.at.zone().key(Key::Name);
            add_name(alloc, taken, space.as_str(), MAX_NAMES, at)
        }
        _ => Ok(()),
    }
}

/// Adds the name of each zone's space: its own, unless a zone lists it among its guests.
fn add_space_names(alloc: Global, zones: &[ZoneRow], names: &mut Names) -> Result<(), DocumentFault>
    requires { names.old ≡ [] }
    ensures { OnOk result (names.new ≡ naming.space_names zones.now) }
{
    for i in 0..zones.len() {
        if names.len() >= MAX_NAMES {
            return Err(too_many(Key::Zone, MAX_ZONES));
        }
        push_name(alloc, names, space_name(&zones[i]))?;
    }
    Ok(())
}

fn space_name(row: &ZoneRow) -> &str
    ensures { result.now ≡ naming.space_name row.now }
{
    match &row.space {
        Some(space) => space.as_str(),
        None => row.name.as_str(),
    }
}

/// Whether a name is one of these.
fn is_listed(names: &[String], name: &str) -> bool
    ensures { result ≡ saying.is_listed names.now name.now }
{
    names.iter().any(|other| other.as_str() == name)
}

/// The place of a machine with a name.
fn place_of(row: &MachineRow, keeper: u8, name: &str) -> PlanPlace
    ensures { result ≡ saying.place_of keeper row.now name.now }
{
    PlanPlace {
        keeper,
        source: is_listed(&row.sources, name),
        sink: is_listed(&row.sinks, name),
    }
}

fn are_places(row: &MachineRow, names: &[String]) -> bool
    ensures { result ≡ saying.are_places row.now names.now }
{
    names
        .iter()
        .all(|name| is_listed(&row.places, name.as_str()))
}

/// Whether the sources and sinks of a machine are places of it.
fn has_ends(row: &MachineRow) -> bool
    ensures { result ≡ saying.has_ends row.now }
{
    are_places(row, &row.sources) && are_places(row, &row.sinks)
}

fn have_ends(machines: &[MachineRow]) -> bool
    ensures { result ≡ list_all saying.has_ends machines.now }
{
    machines.iter().all(|row| has_ends(row))
}

/// Refuses a source or a sink that is no place of its machine.
pub fn check_ends(alloc: Global, machines: &[MachineRow]) -> Result<(), DocumentFault>
    ensures { OnOk result (IsTrue (list_all saying.has_ends machines.now)) }
{
    if have_ends(machines) {
        Ok(())
    } else {
        Err(unknown_end(alloc, machines))
    }
}

/// The fault of the first source or sink that is no place of its machine.
fn unknown_end(alloc: Global, machines: &[MachineRow]) -> DocumentFault {
    for i in 0..machines.len() {
        let row = &machines[i];
        let at = RowOf::Machine(i);
        if let Some(fault) = unknown_in(alloc, row, &row.sources, at, Key::Sources) {
            return fault;
        }
        if let Some(fault) = unknown_in(alloc, row, &row.sinks, at, Key::Sinks) {
            return fault;
        }
    }
    RowOf::Document.whole().fault(Wrong::Missing)
}

fn unknown_in(
    alloc: Global,
    row: &MachineRow,
    names: &[String],
    at: RowOf,
    key: Key,
) -> Option<DocumentFault> {
    for item in 0..names.len() {
        let name = names[item].as_str();
        if !is_listed(&row.places, name) {
            return Some(
                at.item(key, item)
                    .text_fault(alloc, WrongText::NotKept, name),
            );
        }
    }
    None
}

/// Adds the places of all machines, at most `most`.
pub fn add_all_places(
    alloc: Global,
    machines: &[MachineRow],
    most: usize,
    names: &mut Names,
    rows: &mut Vec<PlanPlace>,
) -> Result<(), DocumentFault>
    requires names { names.old ≡ [] }
    requires rows { rows.old.items ≡ [] }
    ensures names { OnOk result (names.new ≡ place_names machines.now) }
    ensures spelled { OnOk result (AreNames names.new) }
    ensures distinct { OnOk result (AreDistinct names.new) }
    ensures rows { OnOk result (rows.new.items ≡ saying.place_rows machines.now) }
{
    for i in 0..machines.len() {
        add_places(alloc, &machines[i], i, most, names, rows)?;
    }
    Ok(())
}

/// Adds the places of a machine.
fn add_places(
    alloc: Global,
    row: &MachineRow,
    machine: usize,
    most: usize,
    names: &mut Names,
    rows: &mut Vec<PlanPlace>,
) -> Result<(), DocumentFault>
    ensures names { OnOk result (names.new ≡ names.old ++ places_in row.now) }
    ensures spelled { OnOk result (AreNames names.old → AreNames names.new) }
    ensures distinct { OnOk result (AreDistinct names.old → AreDistinct names.new) }
    ensures rows { OnOk result (rows.new.items ≡ rows.old.items ++ saying.ends_in machine row.now) }
{
    let row_at = RowOf::Machine(machine);
    let keeper = number_of(machine, row_at.key(Key::Places))?;
    for item in 0..row.places.len() {
        let name = row.places[item].as_str();
        add_name(alloc, names, name, most, row_at.item(Key::Places, item))?;
        rows.push(place_of(row, keeper, name))?;
    }
    Ok(())
}

/// The number of a machine, of which a plan has at most `MAX_MACHINES`.
pub fn number_of(machine: usize, at: Location) -> Result<u8, DocumentFault>
    ensures { IfOk result (λ number. number ≡ machine) }
{
    match u8::try_from(machine) {
        Ok(number) => Ok(number),
        Err(_) => Err(at.fault(Wrong::TooMany(usize::from(MAX_MACHINES)))),
    }
}

/// Adds the rows of all zones.
pub fn add_zone_rows(
    alloc: Global,
    zones: &[ZoneRow],
    machines: &Names,
    places: &Names,
    rows: &mut Vec<PlanZone>,
) -> Result<(), DocumentFault>
    requires { rows.old.items ≡ [] }
    ensures { OnOk result
        (AllZip (saying.IsZoneOf machines.now places.now) zones.now rows.new.items) }
{
    for i in 0..zones.len() {
        let row = zone_of(alloc, &zones[i], machines, places)?;
        rows.push(row)?;
    }
    Ok(())
}

/// The zone of a row, by the names of machines and places.
fn zone_of(
    alloc: Global,
    row: &ZoneRow,
    machines: &Names,
    places: &Names,
) -> Result<PlanZone, DocumentFault>
    ensures { IfOk result (saying.IsZoneOf machines.now places.now row.now) }
{
    let at = row.at;
    let no_machine = WrongText::NoMachine;
    let host_at = at.zone().key(Key::Host);
    let host = number_named(alloc, machines, row.host.as_str(), no_machine, host_at)?;
    let guest_at = at.key(Key::Guest);
    let guest = number_named(alloc, machines, row.guest.as_str(), no_machine, guest_at)?;
    let inward = way_named(alloc, places, &row.inward, at, Key::Inward)?;
    let outward = way_named(alloc, places, &row.outward, at, Key::Outward)?;
    Ok(PlanZone {
        host,
        guest,
        joins: row.joins,
        inward,
        outward,
    })
}

/// The number of a name, which has to be one of these.
pub fn number_named(
    alloc: Global,
    names: &Names,
    name: &str,
    why: WrongText,
    at: Location,
) -> Result<u8, DocumentFault>
    ensures { IfOk result (λ number. number_in names.now name.now ≡ Some number) }
{
    match names.number_of(name.as_bytes()) {
        Some(number) => Ok(number),
        None => Err(at.text_fault(alloc, why, name)),
    }
}

/// The way of a key, if it is there, by the names of places.
fn way_named(
    alloc: Global,
    places: &Names,
    way: &Option<WayRow>,
    at: RowOf,
    key: Key,
) -> Result<Option<Way>, DocumentFault>
    ensures { IfOk result (saying.IsWayOf places.now way.now) }
{
    let Some(way) = way else {
        return Ok(None);
    };
    let no_place = WrongText::NoPlace;
    let from = number_named(alloc, places, way.from.as_str(), no_place, at.item(key, 0))?;
    let to = number_named(alloc, places, way.to.as_str(), no_place, at.item(key, 1))?;
    Ok(Some(Way { from, to }))
}

/// Adds the poses of all machines.
fn add_all_poses(
    alloc: Global,
    machines: &[MachineRow],
    zones: &Names,
    names: &mut Names,
    rows: &mut Vec<PlanPose>,
) -> Result<(), DocumentFault>
    requires names { names.old ≡ [] }
    requires rows { rows.old.items ≡ [] }
    ensures names { OnOk result (names.new ≡ pose_names machines.now) }
    ensures spelled { OnOk result (AreNames names.new) }
    ensures rows { OnOk result
        (AllZip (saying.IsPoseOf zones.now) (all_poses machines.now) rows.new.items) }
{
    for i in 0..machines.len() {
        add_poses(alloc, &machines[i].poses, i, zones, names, rows)?;
    }
    Ok(())
}

/// Adds the poses of a machine.
fn add_poses(
    alloc: Global,
    poses: &[PoseRow],
    machine: usize,
    zones: &Names,
    names: &mut Names,
    rows: &mut Vec<PlanPose>,
) -> Result<(), DocumentFault>
    ensures names { OnOk result (names.new ≡ names.old ++ names_in poses.now) }
    ensures spelled { OnOk result (AreNames names.old → AreNames names.new) }
    ensures rows { OnOk result ((before : List (ℕ × Pose))
        → AllZip (saying.IsPoseOf zones.now) before rows.old.items
        → AllZip (saying.IsPoseOf zones.now) (before ++ numbered_poses machine poses.now)
        rows.new.items) }
{
    let mut own = Names::new(alloc);
    for pose in 0..poses.len() {
        let at = RowOf::Pose { machine, pose };
        let said = &poses[pose];
        add_name(
            alloc,
            &mut own,
            said.name.as_str(),
            MAX_POSES,
            at.key(Key::Name),
        )?;
        let row = pose_of(alloc, said, at, machine, zones)?;
        add_pose_name(alloc, names, said.name.as_str(), at.key(Key::Name))?;
        rows.push(row)?;
    }
    Ok(())
}

/// Adds a name to those of all machines' poses, which may be there already.
fn add_pose_name(
    alloc: Global,
    names: &mut Names,
    name: &str,
    at: Location,
) -> Result<(), DocumentFault>
    ensures { OnOk result (names.new ≡ names.old ++ name.now ∷ []) }
{
    if names.len() >= MAX_POSES {
        return Err(at.fault(Wrong::TooMany(MAX_POSES)));
    }
    push_name(alloc, names, name)
}

/// Adds the names for C of all machines' poses.
fn add_all_identifiers(
    alloc: Global,
    machines: &[MachineRow],
    names: &mut Names,
) -> Result<(), DocumentFault>
    requires { names.old ≡ [] }
    ensures names { OnOk result (names.new ≡ identifiers machines.now) }
    ensures distinct { OnOk result (AreDistinct names.new) }
{
    for i in 0..machines.len() {
        add_identifiers(alloc, &machines[i], i, names)?;
    }
    Ok(())
}

/// Adds the names for C of a machine's poses.
fn add_identifiers(
    alloc: Global,
    row: &MachineRow,
    machine: usize,
    names: &mut Names,
) -> Result<(), DocumentFault>
    ensures names { OnOk result (names.new
        ≡ names.old ++ identifiers_in (string_bytes row.now.name) row.now.poses.items) }
    ensures distinct { OnOk result (AreDistinct names.old → AreDistinct names.new) }
{
    for pose in 0..row.poses.len() {
        let at = RowOf::Pose { machine, pose };
        let said = &row.poses[pose];
        let name = join_names(alloc, row.name.as_str(), said.name.as_str())?;
        add_identifier(names, name, at.key(Key::Name))?;
    }
    Ok(())
}

/// The name of a pose or a sensor for C: its machine's, an underline and its own.
pub fn join_names(alloc: Global, machine: &str, own: &str) -> Result<String, AllocError>
    ensures { IfOk result (λ name. string_bytes name ≡ identifier machine.now own.now) }
{
    let mut name = String::new(alloc);
    name.push_str(machine)?;
    name.push_str("_")?;
    name.push_str(own)?;
    Ok(name)
}

/// Adds a name for C, which no pose before may have.
fn add_identifier(names: &mut Names, name: String, at: Location) -> Result<(), DocumentFault>
    ensures name { OnOk result (names.new ≡ names.old ++ string_bytes name ∷ []) }
    ensures distinct { OnOk result (AreDistinct names.old → AreDistinct names.new) }
{
    if names.len() >= MAX_NAMES {
        return Err(at.fault(Wrong::TooMany(MAX_POSES)));
    }
    if names.number_of(name.as_str().as_bytes()).is_some() {
        return Err(at.fault(Wrong::Text(WrongText::SameInC, name)));
    }
    names.push(name)?;
    Ok(())
}

/// The pose of a row, by the names of zones.
fn pose_of(
    alloc: Global,
    row: &PoseRow,
    at: RowOf,
    machine: usize,
    zones: &Names,
) -> Result<PlanPose, DocumentFault>
    ensures { IfOk result (saying.IsPoseOf zones.now (machine, row.now)) }
{
    let gives = gives_of(alloc, zones, &row.gives, at.key(Key::Gives))?;
    let machine = number_of(machine, at.key(Key::Name))?;
    Ok(PlanPose {
        machine,
        after_moving: row.after_moving,
        gives,
    })
}

/// What rows give each zone.
pub fn gives_of(
    alloc: Global,
    zones: &Names,
    rows: &[PostureRow],
    at: Location,
) -> Result<[Option<Posture>; MAX_ZONES], DocumentFault>
    ensures { IfOk result (AreGiven posture_of zones.now rows.now) }
{
    let mut gives = [None; MAX_ZONES];
    for i in 0..rows.len() {
        let (zone, posture) = given_by(alloc, zones, &rows[i], at)?;
        if usize::from(zone) >= MAX_ZONES {
            return Err(at.fault(Wrong::TooMany(MAX_ZONES)));
        }
        gives[usize::from(zone)] = Some(posture);
    }
    Ok(gives)
}

/// The zone that a row is about, and the posture that the row gives it.
pub fn given_by(
    alloc: Global,
    zones: &Names,
    row: &PostureRow,
    at: Location,
) -> Result<(u8, Posture), DocumentFault>
    ensures zone { IfOk result (λ given.
        number_in zones.now (string_bytes row.now.zone) ≡ Some given.0) }
    ensures posture { IfOk result (λ given.
        posture_of (string_bytes row.now.posture) ≡ Some given.1) }
{
    let name = row.zone.as_str();
    let word = row.posture.as_str();
    let zone = number_named(alloc, zones, name, WrongText::NoZone, at)?;
    match posture_in(word) {
        Some(posture) => Ok((zone, posture)),
        None => Err(at.pair_fault(alloc, WrongPair::NoPosture, name, word)),
    }
}
