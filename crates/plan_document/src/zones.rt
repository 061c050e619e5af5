//! Reads the zones of a document: a zone of one guest is a row, and of one that lists its guests each side is one.
ghost use Rattle.std.specs.Prelude.{map, IfOk, IsTrue, OnOk};
ghost use Rattle.toml.specs.View.{table_view, view};
ghost use Rattle.plan_document.specs.Keys.{has_only, space_keys};
ghost use Rattle.plan_document.specs.Reading as reading;

use crate::document::ZoneRow;
use crate::fault::{DocumentFault, Key, RowOf, Wrong};
use crate::values::{check_keys, table_in, tables_at, text_at, value_at, way_at};
use std::alloc::Global;
use toml::{Table, Value};

/// The rows of the zones of a document: none if it has no reading.
pub fn zones_at(alloc: Global, table: &Table) -> Result<Vec<ZoneRow>, DocumentFault>
    ensures { IfOk result (λ rows. reading.HasZones (table_view table.now) rows.items) }
{
    let values = tables_at(table, RowOf::Document, Key::Zone)?;
    zones_in(alloc, values)
}

fn zones_in(alloc: Global, values: &[Value]) -> Result<Vec<ZoneRow>, DocumentFault>
    ensures { IfOk result (λ rows. reading.AreZonesIn (map view values.now) rows.items) }
{
    let mut rows = Vec::new(alloc);
    'zones: for number in 0..values.len() {
        add_zone(alloc, &values[number], number, &mut rows)?;
    }
    Ok(rows)
}

/// Adds the rows of a zone.
fn add_zone(
    alloc: Global,
    value: &Value,
    number: usize,
    rows: &mut Vec<ZoneRow>,
) -> Result<(), DocumentFault>
    ensures { OnOk result
        (reading.AreAdded (reading.IsZoneIn (view value.now)) rows.old.items rows.new.items) }
{
    let zone = table_in(value, RowOf::Document, Key::Zone)?;
    match value_at(zone, Key::Guests) {
        Some(_) => add_sides(alloc, zone, number, rows),
        None => add_plain(alloc, zone, number, rows),
    }
}

/// Adds the row of a zone of one guest.
fn add_plain(
    alloc: Global,
    zone: &Table,
    number: usize,
    rows: &mut Vec<ZoneRow>,
) -> Result<(), DocumentFault>
    ensures { OnOk result
        (reading.AreAdded (reading.IsPlainIn (table_view zone.now)) rows.old.items rows.new.items) }
{
    let row = plain_in(alloc, zone, number)?;
    rows.push(row)?;
    Ok(())
}

fn plain_in(alloc: Global, zone: &Table, number: usize) -> Result<ZoneRow, DocumentFault>
    ensures { IfOk result (reading.IsPlain (table_view zone.now)) }
{
    let at = RowOf::Zone(number);
    check_keys(alloc, zone, at)?;
    let name = text_at(alloc, zone, at, Key::Name)?;
    let host = text_at(alloc, zone, at, Key::Host)?;
    let guest = text_at(alloc, zone, at, Key::Guest)?;
    let inward = way_at(alloc, zone, at, Key::Inward)?;
    let outward = way_at(alloc, zone, at, Key::Outward)?;
    Ok(ZoneRow {
        at,
        space: None,
        joins: false,
        name,
        host,
        guest,
        inward,
        outward,
    })
}

/// Adds the rows of a zone that lists its guests.
fn add_sides(
    alloc: Global,
    zone: &Table,
    number: usize,
    rows: &mut Vec<ZoneRow>,
) -> Result<(), DocumentFault>
    ensures { OnOk result
        (reading.AreAdded (reading.AreSidesIn (table_view zone.now)) rows.old.items
        rows.new.items) }
{
    check_space(alloc, zone, number)?;
    let values = guests_at(zone, number)?;
    add_listed(alloc, zone, values, number, rows)
}

/// Refuses a zone that lists its guests if it has other keys, or lacks its name or its host.
fn check_space(alloc: Global, zone: &Table, number: usize) -> Result<(), DocumentFault>
    ensures { OnOk result (IsTrue (has_only space_keys (table_view zone.now))) }
{
    let at = RowOf::Space(number);
    check_keys(alloc, zone, at)?;
    let _name = text_at(alloc, zone, at, Key::Name)?;
    let _host = text_at(alloc, zone, at, Key::Host)?;
    Ok(())
}

/// The guests that a zone lists: at least one.
fn guests_at(zone: &Table, number: usize) -> Result<&[Value], DocumentFault>
    ensures { IfOk result (λ items. reading.ListsGuests (table_view zone.now)
        (map view items.now)) }
{
    let at = RowOf::Space(number);
    let values = tables_at(zone, at, Key::Guests)?;
    if values.is_empty() {
        return Err(at.key(Key::Guests).fault(Wrong::NoGuests));
    }
    Ok(values)
}

/// Adds the rows of the guests of a zone.
fn add_listed(
    alloc: Global,
    zone: &Table,
    values: &[Value],
    number: usize,
    rows: &mut Vec<ZoneRow>,
) -> Result<(), DocumentFault>
    ensures { OnOk result (reading.AreAdded
        (reading.AreSides (table_view zone.now) (map view values.now))
        rows.old.items rows.new.items) }
{
    'sides: for side in 0..values.len() {
        let row = side_in(alloc, zone, &values[side], number, side)?;
        rows.push(row)?;
    }
    Ok(())
}

/// The row of a guest, by its number among those that the zone lists.
fn side_in(
    alloc: Global,
    zone: &Table,
    value: &Value,
    number: usize,
    side: usize,
) -> Result<ZoneRow, DocumentFault>
    ensures { IfOk result (reading.IsSide (table_view zone.now) (side, view value.now)) }
{
    let space = RowOf::Space(number);
    let at = RowOf::Side { zone: number, side };
    let table = table_in(value, space, Key::Guests)?;
    check_keys(alloc, table, at)?;
    let name = text_at(alloc, table, at, Key::Name)?;
    let guest = text_at(alloc, table, at, Key::Guest)?;
    let inward = way_at(alloc, table, at, Key::Inward)?;
    let outward = way_at(alloc, table, at, Key::Outward)?;
    let host = text_at(alloc, zone, space, Key::Host)?;
    let space = text_at(alloc, zone, space, Key::Name)?;
    Ok(ZoneRow {
        at,
        space: Some(space),
        joins: side > 0,
        name,
        host,
        guest,
        inward,
        outward,
    })
}
