//! Finds the line of a fault, by the places of the document's keys and items.

use crate::fault::{DocumentFault, Key, Location, RowOf, Wrong, WrongText};
use std::alloc::{AllocError, Global};
use std::str;
use toml_places::{Step, line_number, nearest_place, places_in};

/// The most brackets of a value around what a fault is about: a zone in what a pose gives, in a list of machines.
const MAX_DEPTH: usize = 5;

/// The line of what a fault is about, from 1: of the text in a list or of the key, else of the row. `None` if none of
/// them is in the document.
pub fn line_of(
    alloc: Global,
    bytes: &[u8],
    fault: &DocumentFault,
) -> Result<Option<usize>, AllocError> {
    let steps = steps_of(alloc, fault)?;
    line_of_steps(alloc, bytes, steps.as_slice())
}

/// The line of a place of a document, from 1, or of the row in which it is.
pub fn line_at(
    alloc: Global,
    bytes: &[u8],
    location: Location,
) -> Result<Option<usize>, AllocError> {
    let mut steps = Vec::new(alloc);
    push_location(&mut steps, location)?;
    line_of_steps(alloc, bytes, steps.as_slice())
}

/// The line, from 1, of the place to which the most first ones of these steps lead.
fn line_of_steps(
    alloc: Global,
    bytes: &[u8],
    steps: &[Step<'_>],
) -> Result<Option<usize>, AllocError> {
    let Ok(text) = str::from_utf8(bytes) else {
        return Ok(None);
    };
    let places = places_in(alloc, text, MAX_DEPTH)?;
    match nearest_place(places.as_slice(), steps) {
        Some(place) => Ok(Some(line_number(bytes, place.start))),
        None => Ok(None),
    }
}

/// The steps to what a fault is about.
fn steps_of(alloc: Global, fault: &DocumentFault) -> Result<Vec<Step<'_>>, AllocError> {
    let mut steps = Vec::new(alloc);
    push_steps(&mut steps, fault)?;
    Ok(steps)
}

fn push_steps<'a>(steps: &mut Vec<Step<'a>>, fault: &'a DocumentFault) -> Result<(), AllocError> {
    push_location(steps, fault.location)?;
    if let Some(name) = key_name_of(fault) {
        steps.push(Step::Key(name))?;
    }
    Ok(())
}

/// Adds the steps to a row, to a key of it, and to a text in the list of that.
fn push_location(steps: &mut Vec<Step<'_>>, location: Location) -> Result<(), AllocError> {
    let Location { row, key, item } = location;
    push_row(steps, row)?;
    if let Some(key) = key {
        steps.push(Step::Key(key.word()))?;
    }
    if let Some(item) = item {
        steps.push(Step::Item(item))?;
    }
    Ok(())
}

/// The key that a fault is about, if it isn't one of `Key`: an unknown one, or a zone.
fn key_name_of(fault: &DocumentFault) -> Option<&str> {
    match (fault.location.key, &fault.wrong) {
        (None, Wrong::Text(WrongText::Unknown, name))
        | (
            Some(Key::Gives | Key::Holds | Key::Stands),
            Wrong::Text(_, name) | Wrong::Pair(_, name, _),
        ) => Some(name.as_str()),
        _ => None,
    }
}

/// Adds the steps to a row.
fn push_row(steps: &mut Vec<Step<'_>>, row: RowOf) -> Result<(), AllocError> {
    if let Some((key, number)) = row.number() {
        push_item(steps, key, number)?;
    }
    match row.part() {
        Some((key, number)) => push_item(steps, key, number),
        None => Ok(()),
    }
}

/// Adds the steps to an item in the list of a key.
fn push_item(steps: &mut Vec<Step<'_>>, key: Key, item: usize) -> Result<(), AllocError> {
    steps.push(Step::Key(key.word()))?;
    steps.push(Step::Item(item))?;
    Ok(())
}
