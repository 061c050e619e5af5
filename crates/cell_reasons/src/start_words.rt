//! What is wrong with record 0 of a script.
ghost use Rattle.std.specs.Prelude.{◌≡◌, is_some};
ghost use Rattle.cell_replay.specs.Versions.{version_of};

use crate::fields::{Field, MAX_FIELDS};
use crate::records::{Record, line_ends, record_at};
use cell_replay::Version;
use cell_rules::{LAST_STAMP, MAX_PLATES, PLACES, read_places};
use cell_types::Machine;
use csv_rows::read_number;
use std::alloc::{AllocError, Global};

/// What a start looks like.
const EXAMPLE: &str = "a script begins with a start, such as start,0000000000";

/// Adds why a script has no start.
pub fn push_no_start(alloc: Global, words: &mut String, script: &[u8]) -> Result<(), AllocError> {
    if is_utf16(script) {
        return words.push_str("line 1: the script seems to be UTF-16; save it as UTF-8");
    }
    match record_at(alloc, script, 0)? {
        Some(record) => push_no_start_in(alloc, words, script, &record),
        None => write!(words, "line 1: there is none; {EXAMPLE}"),
    }
}

/// Adds why a script's record 0 has no word that begins a script.
fn push_no_start_in(
    alloc: Global,
    words: &mut String,
    script: &[u8],
    record: &Record,
) -> Result<(), AllocError> {
    let Some(first) = field_of(record, 0) else {
        return words.push_str(EXAMPLE);
    };
    if first.bytes.starts_with(b"#".as_slice()) {
        return first.push_comment(words);
    }
    if Machine::read(first.bytes).is_some() {
        first.push_place(words)?;
        words.push_str(" begins a call, but ")?;
    } else if is_header(alloc, script)? {
        first.push_place(words)?;
        return words.push_str(": a script has no header; delete the line");
    } else {
        let versions = [Version::First.word(), Version::Second.word()];
        first.push_unknown(alloc, words, "word that begins a script", &versions)?;
        words.push_str("; ")?;
    }
    words.push_str(EXAMPLE)
}

/// Whether a text seems to be UTF-16.
fn is_utf16(script: &[u8]) -> bool {
    script.starts_with(b"\xff\xfe".as_slice()) || script.starts_with(b"\xfe\xff".as_slice())
}

/// Whether record 1 begins a script.
fn is_header(alloc: Global, script: &[u8]) -> Result<bool, AllocError> {
    match record_at(alloc, script, 1)? {
        Some(record) => Ok(record.row.get(0).is_some_and(is_version)),
        None => Ok(false),
    }
}

/// Whether a field begins a script.
pub fn is_version(field: &[u8]) -> bool
    ensures { result ≡ is_some (version_of field.now) }
{
    Version::read(field).is_some()
}

/// The field with this index.
pub fn field_of(record: &Record, index: usize) -> Option<Field<'_>> {
    let bytes = record.row.get(index)?;
    let mut line = record.line;
    for before in 0..index {
        if let Some(field) = record.row.get(before) {
            line = line.saturating_add(line_ends(field));
        }
    }
    Some(Field {
        line,
        number: index.saturating_add(1),
        bytes,
    })
}

/// Adds why record 0 is no start.
pub fn push_bad_start(alloc: Global, words: &mut String, script: &[u8]) -> Result<(), AllocError> {
    match record_at(alloc, script, 0)? {
        Some(record) => push_bad_record(words, &record),
        None => words.push_str(EXAMPLE),
    }
}

fn push_bad_record(words: &mut String, record: &Record) -> Result<(), AllocError> {
    if record.row.len() > MAX_FIELDS {
        return match field_of(record, MAX_FIELDS) {
            Some(field) => field.push_wrong(words, "; a start has at most three fields"),
            None => words.push_str(EXAMPLE),
        };
    }
    let line = record.line;
    match field_of(record, 1) {
        Some(places) => push_bad_fields(words, places, field_of(record, 2)),
        None => write!(
            words,
            "line {line}: the places are missing: ten digits 0 or 1, one for each of p1 to p10"
        ),
    }
}

/// Adds why places, and a stamp if there is one, make no start.
fn push_bad_fields(
    words: &mut String,
    places: Field<'_>,
    stamp: Option<Field<'_>>,
) -> Result<(), AllocError> {
    if read_places(places.bytes).is_none() {
        return push_places(words, places);
    }
    match stamp {
        Some(stamp) if !is_stamp(stamp.bytes) => push_stamp(words, stamp),
        _ => push_plates(words, places),
    }
}

/// Adds why a field isn't ten digits.
fn push_places(words: &mut String, places: Field<'_>) -> Result<(), AllocError> {
    let count = places.bytes.len();
    if count == 0 || count == PLACES || !are_digits(places.bytes) {
        return places.push_wrong(
            words,
            "; the places are ten digits 0 or 1, one for each of p1 to p10",
        );
    }
    places.push_place(words)?;
    if count < PLACES {
        return write!(
            words,
            " has {count} of ten digits; a spreadsheet drops zeros at the front, so make the field a text"
        );
    }
    write!(
        words,
        " has {count} digits; there are ten places, p1 to p10"
    )
}

fn are_digits(field: &[u8]) -> bool {
    field.iter().all(|byte| byte.is_ascii_digit())
}

/// Whether a field is a stamp within its limit: one to seven digits, of which the first may be 0.
fn is_stamp(field: &[u8]) -> bool {
    match read_number(field) {
        Some(stamp) => stamp <= LAST_STAMP,
        None => false,
    }
}

/// Adds why a field is no stamp.
fn push_stamp(words: &mut String, stamp: Field<'_>) -> Result<(), AllocError> {
    stamp.push_wrong(words, "; a stamp has one to seven digits and is from 0 to ")?;
    write!(words, "{LAST_STAMP}")
}

/// Adds why places with plates make no start.
fn push_plates(words: &mut String, places: Field<'_>) -> Result<(), AllocError> {
    places.push_place(words)?;
    push_plate_count(words, places.bytes)
}

/// Adds why these digits make no start.
pub fn push_plate_count(words: &mut String, digits: &[u8]) -> Result<(), AllocError> {
    let plates = digits.iter().filter(|digit| **digit == b'1').count();
    if plates > MAX_PLATES as usize {
        return write!(words, " has {plates} plates; a start has at most six");
    }
    words.push_str(" has plates in both p5 and p6; the press holds one")
}
