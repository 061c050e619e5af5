//! The names of machines' sensors.
ghost use Rattle.std.specs.Prelude.{◌≡◌, ◌++◌, ◌∷◌, ◌<◌, [], length, map, string_bytes};
ghost use Rattle.std.specs.Prelude.{is_none, IfOk, OnOk, IsTrue};
ghost use Rattle.std.specs.List.{list_any};
ghost use Rattle.std.specs.Str.{bytes_eq};
ghost use Rattle.plan_text.specs.Names as spec;
ghost use Rattle.plan_text.specs.Names.{number_in};
ghost use Rattle.plan_document.specs.Names.{AreDistinct, sensors_in, sensor_names};
ghost use Rattle.plan_document.specs.Names.{sensor_identifiers, sensor_identifiers_in};
ghost use Rattle.plan_document.specs.Saying as saying;

use crate::document::MachineRow;
use crate::fault::{DocumentFault, Key, Location, RowOf, Wrong, WrongText};
use crate::tables::{add_name, join_names};
use plan_text::Names;
use std::alloc::Global;

/// The most sensors of a machine.
const MAX_SENSORS: usize = 32;

/// The names of each machine's sensors. No two have one name for C.
pub fn all_sensors_of(
    alloc: Global,
    machines: &[MachineRow],
    zones: &Names,
) -> Result<Vec<Names>, DocumentFault>
    ensures names { IfOk result (λ all. all.items ≡ sensor_names machines.now) }
    ensures distinct { IfOk result (λ all. AreDistinct (sensor_identifiers machines.now)) }
{
    let mut all = Vec::new(alloc);
    for machine in 0..machines.len() {
        let names = sensors_of(alloc, &machines[machine], machine, zones)?;
        all.push(names)?;
    }
    check_for_c(alloc, machines)?;
    Ok(all)
}

/// The names of a machine's sensors, in the order of their bits. No zone has such a name.
pub fn sensors_of(
    alloc: Global,
    row: &MachineRow,
    machine: usize,
    zones: &Names,
) -> Result<Names, DocumentFault>
    ensures names { IfOk result (λ names. names ≡ sensors_in row.now) }
    ensures sensors { IfOk result (saying.AreSensors zones.now) }
{
    let mut names = Names::new(alloc);
    for item in 0..row.sensors.len() {
        let name = row.sensors[item].as_str();
        let at = RowOf::Machine(machine).item(Key::Sensors, item);
        add_sensor(alloc, &mut names, name, zones, at)?;
    }
    Ok(names)
}

/// Adds a sensor's name.
fn add_sensor(
    alloc: Global,
    names: &mut Names,
    name: &str,
    zones: &Names,
    at: Location,
) -> Result<(), DocumentFault>
    ensures name { OnOk result (names.new ≡ names.old ++ name.now ∷ []) }
    ensures room { OnOk result (length names.old < 32) }
    ensures spelled { OnOk result (IsTrue (spec.is_name name.now)) }
    ensures distinct { OnOk result (AreDistinct names.old → AreDistinct names.new) }
    ensures apart { OnOk result (IsTrue (is_none (number_in zones.now name.now))) }
{
    add_name(alloc, names, name, MAX_SENSORS, at)?;
    if zones.number_of(name.as_bytes()).is_some() {
        return Err(at.text_fault(alloc, WrongText::ZoneToo, name));
    }
    Ok(())
}

// ---- names for C

/// Refuses a sensor that has one name for C with another one.
fn check_for_c(alloc: Global, machines: &[MachineRow]) -> Result<(), DocumentFault>
    ensures { OnOk result (AreDistinct (sensor_identifiers machines.now)) }
{
    let mut taken = Vec::new(alloc);
    for machine in 0..machines.len() {
        add_identifiers(alloc, &machines[machine], machine, &mut taken)?;
    }
    Ok(())
}

/// Adds the names for C of a machine's sensors.
fn add_identifiers(
    alloc: Global,
    row: &MachineRow,
    machine: usize,
    taken: &mut Vec<String>,
) -> Result<(), DocumentFault>
    ensures names { OnOk result (map string_bytes taken.new.items
        ≡ map string_bytes taken.old.items ++ sensor_identifiers_in row.now) }
    ensures distinct { OnOk result (AreDistinct (map string_bytes taken.old.items)
        → AreDistinct (map string_bytes taken.new.items)) }
{
    for item in 0..row.sensors.len() {
        let name = join_names(alloc, row.name.as_str(), row.sensors[item].as_str())?;
        add_identifier(
            taken,
            name,
            RowOf::Machine(machine).item(Key::Sensors, item),
        )?;
    }
    Ok(())
}

/// Adds a name for C, which no sensor before may have.
fn add_identifier(taken: &mut Vec<String>, name: String, at: Location) -> Result<(), DocumentFault>
    ensures name { OnOk result (map string_bytes taken.new.items
        ≡ map string_bytes taken.old.items ++ string_bytes name ∷ []) }
    ensures distinct { OnOk result (AreDistinct (map string_bytes taken.old.items)
        → AreDistinct (map string_bytes taken.new.items)) }
{
    if is_among(taken, name.as_str()) {
        return Err(at.fault(Wrong::Text(WrongText::SensorSameInC, name)));
    }
    taken.push(name)?;
    Ok(())
}

/// Whether a text is among others.
fn is_among(texts: &[String], text: &str) -> bool
    ensures { result ≡ list_any (λ other. bytes_eq (string_bytes other) text.now) texts.now }
{
    texts.iter().any(|other| other.as_str() == text)
}
