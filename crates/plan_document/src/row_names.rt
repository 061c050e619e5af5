//! The names of the rows that a fault is about.

use crate::fault::{Key, Location, RowNames, RowOf};
use crate::motors::is_title;
use crate::values::{copy, value_at};
use plan_text::names::is_name;
use std::alloc::{AllocError, Global};
use toml::Table;

/// The names of the rows in which something is wrong. A row has none where the fault is about its name, and where its
/// name is missing or isn't one.
pub fn names_of(alloc: Global, table: &Table, location: Location) -> Result<RowNames, AllocError> {
    let Some((key, number)) = location.row.number() else {
        return Ok(RowNames::none());
    };
    let row = row_at(table, key, number);
    match (location.row.part(), row) {
        (Some((key, number)), Some(outer)) => {
            let own = row_at(outer, key, number);
            let part = name_at(alloc, own, location)?;
            let row = name_at(alloc, row, location.row.whole())?;
            Ok(RowNames { row, part })
        }
        _ => {
            let row = name_at(alloc, row, location)?;
            Ok(RowNames { row, part: None })
        }
    }
}

/// A row in the list of a key.
pub fn row_at(table: &Table, key: Key, index: usize) -> Option<&Table> {
    value_at(table, key)?.as_array()?.get(index)?.as_table()
}

/// The name of a row, unless the fault is about it.
fn name_at(
    alloc: Global,
    row: Option<&Table>,
    location: Location,
) -> Result<Option<String>, AllocError> {
    match (row, location.key) {
        (None, _) | (_, Some(Key::Name)) => Ok(None),
        (Some(row), _) => match name_in(row, location.row) {
            Some(name) => Ok(Some(copy(alloc, name)?)),
            None => Ok(None),
        },
    }
}

/// The name in a row, if it is one.
fn name_in(row: &Table, of: RowOf) -> Option<&str> {
    let name = text_in(row)?;
    let is_one = match of {
        RowOf::Hazard(_) => is_title(name),
        _ => is_name(name),
    };
    if is_one { Some(name) } else { None }
}

/// What stands as a row's name, if it is a text.
pub fn text_in(row: &Table) -> Option<&str> {
    value_at(row, Key::Name)?.as_str()
}
