//! The values of a document's keys.
ghost use Rattle.std.specs.Prelude.{◌≡◌, ◌≢◌, false, Some, map, option_map, string_bytes, IfOk, IfErr, OnOk, IsTrue};
ghost use Rattle.toml.specs.Data.{as_array, get_member, table};
ghost use Rattle.toml.specs.View.{table_view, view};
ghost use Rattle.plan_document.specs.Keys.{key_word};
ghost use Rattle.plan_document.specs.Keys.{has_only, keys_in};
ghost use Rattle.plan_document.specs.declared.fault.Key.TheVariants.{Gives, Motors};
ghost use Rattle.plan_document.specs.declared.fault.Wrong.TheVariants.{Memory as NoMemory};
ghost use Rattle.plan_document.specs.Reading as reading;

use crate::document::{PostureRow, WayRow};
use crate::fault::{DocumentFault, Key, Location, RowOf, Wrong, WrongText};
use std::alloc::{AllocError, Global};
use toml::{Table, Value};

/// A copy of a text.
pub fn copy(alloc: Global, text: &str) -> Result<String, AllocError>
    ensures { IfOk result (λ copied. string_bytes copied ≡ text.now) }
{
    String::from_str(alloc, text)
}

/// The number of a text in a list, if it is there.
pub fn position_of(texts: &[String], text: &str) -> Option<usize> {
    texts.iter().position(|other| other.as_str() == text)
}

/// The value at a key, if it is there.
pub fn value_at(table: &Table, key: Key) -> Option<&Value>
    ensures { option_map (λ v. view v.now) result
        ≡ get_member (key_word key) (table_view table.now) }
{
    table.get(key.word())
}

/// The text of a key, which has to be there.
pub fn text_at(alloc: Global, table: &Table, row: RowOf, key: Key) -> Result<String, DocumentFault>
    ensures { IfOk result (reading.HasText (key_word key) (table_view table.now)) }
{
    let Some(value) = value_at(table, key) else {
        return Err(row.key(key).fault(Wrong::Missing));
    };
    match value.as_str() {
        Some(text) => Ok(copy(alloc, text)?),
        None => Err(row.key(key).fault(Wrong::NoText)),
    }
}

/// The texts in the list of a key: none if the key is absent.
pub fn texts_at(
    alloc: Global,
    table: &Table,
    row: RowOf,
    key: Key,
) -> Result<Vec<String>, DocumentFault>
    ensures { IfOk result (λ texts.
        reading.HasTexts (key_word key) (table_view table.now) texts.items) }
{
    let Some(value) = value_at(table, key) else {
        return Ok(Vec::new(alloc));
    };
    match value.as_array() {
        Some(items) => texts_in(alloc, items.as_slice(), row, key),
        None => Err(row.key(key).fault(no_texts(key))),
    }
}

/// What is wrong with the value of a key that takes a list of texts.
fn no_texts(key: Key) -> Wrong {
    match key {
        Key::Program => Wrong::NoLines,
        _ => Wrong::NoTexts,
    }
}

/// The texts that these values are.
fn texts_in(
    alloc: Global,
    values: &[Value],
    row: RowOf,
    key: Key,
) -> Result<Vec<String>, DocumentFault>
    ensures { IfOk result (λ texts. map view values.now ≡ map reading.written texts.items) }
{
    let mut texts = Vec::new(alloc);
    'values: for i in 0..values.len() {
        let Some(text) = values[i].as_str() else {
            return Err(row.key(key).fault(no_texts(key)));
        };
        texts.push(copy(alloc, text)?)?;
    }
    Ok(texts)
}

/// The items in the list of a key: none if the key is absent.
pub fn tables_at(table: &Table, row: RowOf, key: Key) -> Result<&[Value], DocumentFault>
    ensures { IfOk result (λ items.
        reading.items_at (key_word key) (table_view table.now) ≡ Some (map view items.now)) }
{
    let Some(value) = value_at(table, key) else {
        return Ok(&[]);
    };
    match value.as_array() {
        Some(items) => Ok(items.as_slice()),
        None => Err(row.key(key).fault(Wrong::NoTables)),
    }
}

/// The table that an item in the list of a key is.
pub fn table_in(value: &Value, row: RowOf, key: Key) -> Result<&Table, DocumentFault>
    ensures { IfOk result (λ members. view value.now ≡ table (table_view members.now)) }
{
    match value.as_table() {
        Some(table) => Ok(table),
        None => Err(row.key(key).fault(Wrong::NoTables)),
    }
}

/// `true` or `false`; `false` if the key is absent.
pub fn truth_at(table: &Table, row: RowOf, key: Key) -> Result<bool, DocumentFault>
    ensures { IfOk result
        (reading.IsTruth (get_member (key_word key) (table_view table.now))) }
{
    let Some(value) = value_at(table, key) else {
        return Ok(false);
    };
    match value.as_bool() {
        Some(truth) => Ok(truth),
        None => Err(row.key(key).fault(Wrong::NoTruth)),
    }
}

/// The way of a key, if it is there.
pub fn way_at(
    alloc: Global,
    table: &Table,
    row: RowOf,
    key: Key,
) -> Result<Option<WayRow>, DocumentFault>
    ensures { IfOk result (reading.IsWay (get_member (key_word key) (table_view table.now))) }
{
    let Some(value) = value_at(table, key) else {
        return Ok(None);
    };
    let (from, to) = two_texts(alloc, value, row, key)?;
    Ok(Some(WayRow { from, to }))
}

/// The two texts in the list of a key.
fn two_texts(
    alloc: Global,
    value: &Value,
    row: RowOf,
    key: Key,
) -> Result<(String, String), DocumentFault>
    ensures { IfOk result (λ both. view value.now ≡ reading.pair both.0 both.1) }
{
    let Some(items) = value.as_array() else {
        return Err(row.key(key).fault(no_two_texts(key)));
    };
    match items.as_slice() {
        [first, second] => both_of(alloc, first, second, row, key),
        _ => Err(row.key(key).fault(no_two_texts(key))),
    }
}

/// What is wrong with the value of a key that takes a list of two texts.
fn no_two_texts(key: Key) -> Wrong {
    match key {
        Key::Motors => Wrong::NoMotors,
        _ => Wrong::NoWay,
    }
}

fn both_of(
    alloc: Global,
    first: &Value,
    second: &Value,
    row: RowOf,
    key: Key,
) -> Result<(String, String), DocumentFault>
    ensures first { IfOk result (λ both. view first.now ≡ reading.written both.0) }
    ensures second { IfOk result (λ both. view second.now ≡ reading.written both.1) }
{
    let Some(first) = first.as_str() else {
        return Err(row.key(key).fault(no_two_texts(key)));
    };
    let Some(second) = second.as_str() else {
        return Err(row.key(key).fault(no_two_texts(key)));
    };
    let first = copy(alloc, first)?;
    let second = copy(alloc, second)?;
    Ok((first, second))
}

/// What a pose gives: a table from zones to postures, which has to be there.
pub fn gives_at(alloc: Global, pose: &Table, row: RowOf) -> Result<Vec<PostureRow>, DocumentFault>
    ensures { IfOk result (λ rows. get_member (key_word Gives) (table_view pose.now)
        ≡ Some (table (reading.gives_written rows.items))) }
{
    let at = row.key(Key::Gives);
    let Some(value) = value_at(pose, Key::Gives) else {
        return Err(at.fault(Wrong::Missing));
    };
    match value.as_table() {
        Some(given) => gives_in(alloc, given, at),
        None => Err(at.fault(Wrong::NoTable)),
    }
}

/// The zones and words in the table of a key: none if the key is absent.
pub fn postures_at(
    alloc: Global,
    table: &Table,
    row: RowOf,
    key: Key,
) -> Result<Vec<PostureRow>, DocumentFault>
    ensures { IfOk result (λ rows.
        reading.ArePostures (get_member (key_word key) (table_view table.now)) rows.items) }
{
    let Some(value) = value_at(table, key) else {
        return Ok(Vec::new(alloc));
    };
    match value.as_table() {
        Some(given) => gives_in(alloc, given, row.key(key)),
        None => Err(row.key(key).fault(Wrong::NoTable)),
    }
}

/// What a table gives: to each key, a zone, the posture that its value names.
fn gives_in(alloc: Global, given: &Table, at: Location) -> Result<Vec<PostureRow>, DocumentFault>
    ensures { IfOk result (λ rows. table_view given.now ≡ reading.gives_written rows.items) }
{
    let mut rows = Vec::new(alloc);
    'entries: for (zone, posture) in given.iter() {
        let Some(posture) = posture.as_str() else {
            return Err(at.fault(Wrong::NoTable));
        };
        rows.push(posture_row(alloc, zone.as_str(), posture)?)?;
    }
    Ok(rows)
}

fn posture_row(alloc: Global, zone: &str, posture: &str) -> Result<PostureRow, AllocError>
    ensures zone { IfOk result (λ row. string_bytes row.zone ≡ zone.now) }
    ensures posture { IfOk result (λ row. string_bytes row.posture ≡ posture.now) }
{
    let zone = copy(alloc, zone)?;
    let posture = copy(alloc, posture)?;
    Ok(PostureRow { zone, posture })
}

/// The two motors of a hazard.
pub fn motors_at(
    alloc: Global,
    table: &Table,
    row: RowOf,
) -> Result<(String, String), DocumentFault>
    ensures { IfOk result (λ both.
        get_member (key_word Motors) (table_view table.now) ≡ Some (reading.pair both.0 both.1)) }
{
    match value_at(table, Key::Motors) {
        Some(value) => two_texts(alloc, value, row, Key::Motors),
        None => Err(row.key(Key::Motors).fault(Wrong::Missing)),
    }
}

/// Refuses a row with a key that such a row may not have.
pub fn check_keys(alloc: Global, table: &Table, row: RowOf) -> Result<(), DocumentFault>
    ensures known { OnOk result (IsTrue (has_only (keys_in row) (table_view table.now))) }
    ensures unknown { IfErr result (λ fault. fault.wrong ≢ NoMemory
        → has_only (keys_in row) (table_view table.now) ≡ false) }
{
    'entries: for (key, _) in table.iter() {
        if !row.has_key(key.as_str()) {
            return Err(
                row.whole()
                    .text_fault(alloc, WrongText::Unknown, key.as_str()),
            );
        }
    }
    Ok(())
}
