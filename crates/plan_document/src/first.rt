//! Finds the first of two names that are the same.

use crate::fault::{DocumentFault, Key, Location, RowOf, Wrong, WrongText};
use crate::row_names::{row_at, text_in};
use crate::values::value_at;
use toml::Table;

/// Where the first of two names stands, if a fault says that a name is defined twice.
pub fn first_of(table: &Table, fault: &DocumentFault) -> Option<Location> {
    match &fault.wrong {
        Wrong::Text(WrongText::Twice, name) => first_named(table, fault.location, name.as_str()),
        _ => None,
    }
}

/// Where the first name stands that is this one, of the kind that stands at a place of the document.
fn first_named(table: &Table, second: Location, name: &str) -> Option<Location> {
    match (second.row, second.item) {
        (RowOf::Document, _) => None,
        (RowOf::Machine(machine), None) => {
            let first = first_row(table, Key::Machine, machine, name)?;
            Some(RowOf::Machine(first).key(Key::Name))
        }
        (RowOf::Machine(machine), Some(_)) => first_listed(table, second, machine, name),
        (RowOf::Zone(zone) | RowOf::Space(zone), _) => first_zone(table, zone, name),
        (RowOf::Side { zone, side }, _) => match first_zone(table, zone, name) {
            Some(location) => Some(location),
            None => zone_named(table, zone, side, name),
        },
        (RowOf::Motor(motor), _) => {
            let first = first_row(table, Key::Motor, motor, name)?;
            Some(RowOf::Motor(first).key(Key::Name))
        }
        (RowOf::Hazard(hazard), _) => {
            let first = first_row(table, Key::Hazard, hazard, name)?;
            Some(RowOf::Hazard(first).key(Key::Name))
        }
        (RowOf::Pose { machine, pose }, _) => {
            let row = row_at(table, Key::Machine, machine)?;
            let pose = first_row(row, Key::Poses, pose, name)?;
            Some(RowOf::Pose { machine, pose }.key(Key::Name))
        }
    }
}

/// The first of the rows before a number that has this name.
fn first_row(table: &Table, key: Key, end: usize, name: &str) -> Option<usize> {
    for index in 0..end {
        if row_at(table, key, index).and_then(text_in) == Some(name) {
            return Some(index);
        }
    }
    None
}

/// Where the first of the zones before a number stands that has this name, or a side with it.
fn first_zone(table: &Table, end: usize, name: &str) -> Option<Location> {
    for zone in 0..end {
        if let Some(location) = zone_named(table, zone, usize::MAX, name) {
            return Some(location);
        }
    }
    None
}

/// Where a name stands in a zone: its own, or that of a side before a number.
fn zone_named(table: &Table, zone: usize, end: usize, name: &str) -> Option<Location> {
    let row = row_at(table, Key::Zone, zone)?;
    if text_in(row) == Some(name) {
        return Some(RowOf::Zone(zone).key(Key::Name));
    }
    let sides = value_at(row, Key::Guests)?.as_array()?.len();
    let side = first_row(row, Key::Guests, sides.min(end), name)?;
    Some(RowOf::Side { zone, side }.key(Key::Name))
}

/// Where the first sensor of a machine with this name stands, or the first place with it.
fn first_listed(table: &Table, second: Location, machine: usize, name: &str) -> Option<Location> {
    match second.key {
        Some(Key::Sensors) => item_named(table, machine, Key::Sensors, name),
        _ => first_place(table, machine, name),
    }
}

/// Where the first place with this name stands, of the machines up to one of them.
fn first_place(table: &Table, last: usize, name: &str) -> Option<Location> {
    for machine in 0..=last {
        if let Some(location) = item_named(table, machine, Key::Places, name) {
            return Some(location);
        }
    }
    None
}

/// Where a name stands in the list of a machine's key.
fn item_named(table: &Table, machine: usize, key: Key, name: &str) -> Option<Location> {
    let row = row_at(table, Key::Machine, machine)?;
    let names = value_at(row, key)?.as_array()?;
    let item = names.iter().position(|other| other.as_str() == Some(name))?;
    Some(RowOf::Machine(machine).item(key, item))
}
