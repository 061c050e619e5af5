//! What is wrong with a configuration, in words. They are only tested: no contract says what they
//! say.

use crate::quoted::{push_quoted, push_quoted_char};
use crate::section_words::push_refused_section;
use crate::source::{MAX_DEPTH, Source};
use crate::start_words::push_plate_count;
use crate::unknown_keys::push_unknown;
use cell_config::{ConfigFault, MAX_BYTES, MAX_LETTERS, check_sections, is_letter, letter_word};
use cell_rules::{LAST_STAMP, read_places};
use cell_types::Machine;
use std::alloc::{AllocError, Global};
use std::str;
use toml::Table;
use toml_places::{OwnedStep, Place, Step, key_around, line_number, place_of, places_in};

/// What the key `start` takes.
const START_TAKES: &str = "start takes a text of ten digits; put quotes round them";

/// What the key `stamp` takes.
const STAMP_TAKES: &str = "stamp takes a whole number, without quotes";

/// What the key `schedule` takes.
const SCHEDULE_TAKES: &str = "schedule takes a text; put quotes round the letters";

/// What is wrong with a configuration that is refused for this fault: a line.
pub fn config_words(alloc: Global, bytes: &[u8], fault: ConfigFault) -> Result<String, AllocError> {
    let mut words = String::new(alloc);
    if fault == ConfigFault::Long {
        write!(words, "it has more than {MAX_BYTES} bytes")?;
    } else {
        push_text_words(alloc, &mut words, bytes, fault)?;
    }
    words.push('\n')?;
    Ok(words)
}

/// Adds what is wrong with bytes that aren't too many.
fn push_text_words(
    alloc: Global,
    words: &mut String,
    bytes: &[u8],
    fault: ConfigFault,
) -> Result<(), AllocError> {
    match toml::table_from_slice(alloc, bytes) {
        Ok(table) => push_fault(alloc, words, bytes, &table, fault),
        Err(error) if error.is_memory() => Err(AllocError),
        Err(error) => {
            let before = error.span().map_or(0, |span| span.start);
            push_no_toml(alloc, words, bytes, before, error.message())
        }
    }
}

/// Adds what is wrong with a text that is TOML.
fn push_fault(
    alloc: Global,
    words: &mut String,
    bytes: &[u8],
    table: &Table,
    fault: ConfigFault,
) -> Result<(), AllocError> {
    let places = places_of(alloc, bytes)?;
    let source = Source {
        bytes,
        places: places.as_slice(),
    };
    push_table_words(alloc, words, source, table, fault)
}

/// The places in a text; none in bytes that are no text.
fn places_of(alloc: Global, bytes: &[u8]) -> Result<Vec<Place>, AllocError> {
    match str::from_utf8(bytes) {
        Ok(text) => places_in(alloc, text, MAX_DEPTH),
        Err(_) => Ok(Vec::new(alloc)),
    }
}

/// Adds why a text is no TOML, and the line of the byte at offset `before`, where that is found. In
/// a key's value it adds where the value begins, or what the key takes.
fn push_no_toml(
    alloc: Global,
    words: &mut String,
    bytes: &[u8],
    before: usize,
    message: &str,
) -> Result<(), AllocError> {
    let line = line_number(bytes, before);
    write!(words, "line {line}: it is no TOML: {message}")?;
    let places = places_of(alloc, bytes)?;
    match key_around(places.as_slice(), before) {
        Some(place) => push_value_around(words, place, line_number(bytes, place.start), line),
        None => Ok(()),
    }
}

/// Adds of the value in which a fault is, where it begins, if that is an earlier line; or else what its key takes.
fn push_value_around(
    words: &mut String,
    place: &Place,
    line: usize,
    fault_line: usize,
) -> Result<(), AllocError> {
    if line < fault_line {
        return push_open_value(words, place, line);
    }
    match taken_by(place) {
        Some(takes) => write!(words, "; {takes}"),
        None => Ok(()),
    }
}

/// Adds that a key's value begins on an earlier line.
fn push_open_value(words: &mut String, place: &Place, line: usize) -> Result<(), AllocError> {
    let name = place.steps.last().and_then(|step| step.key()).unwrap_or("");
    words.push_str("; the value of ")?;
    push_quoted(words, name.as_bytes())?;
    write!(words, " begins on line {line}")
}

/// What a key outside of sections takes, if it is one.
fn taken_by(place: &Place) -> Option<&'static str> {
    let [OwnedStep::Key(name)] = place.steps.as_slice() else {
        return None;
    };
    match name.as_str() {
        "start" => Some(START_TAKES),
        "stamp" => Some(STAMP_TAKES),
        "schedule" => Some(SCHEDULE_TAKES),
        _ => None,
    }
}

/// Adds what is wrong with a table.
fn push_table_words(
    alloc: Global,
    words: &mut String,
    source: Source<'_>,
    table: &Table,
    fault: ConfigFault,
) -> Result<(), AllocError> {
    match fault {
        ConfigFault::Unknown => push_unknown(alloc, words, source, table),
        ConfigFault::Missing => {
            words.push_str("there is no key start, such as start = \"0000000000\"")
        }
        ConfigFault::Kind => push_wrong_kind(words, source, table),
        ConfigFault::Range => push_wrong_range(words, source, table),
        ConfigFault::Start => push_wrong_start(words, source, table),
        ConfigFault::Letter => push_wrong_letter(words, source, table),
        ConfigFault::Long | ConfigFault::Text | ConfigFault::Read | ConfigFault::Memory => {
            words.push_str("it is no TOML")
        }
    }
}

/// Adds the first key whose value has another kind.
fn push_wrong_kind(
    words: &mut String,
    source: Source<'_>,
    table: &Table,
) -> Result<(), AllocError> {
    if let Some((key, takes)) = key_of_wrong_kind(table) {
        source.push_line(words, &[Step::Key(key)])?;
        return words.push_str(takes);
    }
    match check_sections(table) {
        Err((section, fault)) => push_refused_section(words, source, section, fault),
        Ok(()) => words.push_str("a value isn't of its key's kind"),
    }
}

/// The first key outside of sections whose value has another kind, and what it takes.
fn key_of_wrong_kind(table: &Table) -> Option<(&'static str, &'static str)> {
    if has_value(table, "start") && text_at(table, "start").is_none() {
        return Some(("start", START_TAKES));
    }
    if has_value(table, "stamp") && number_at(table, "stamp").is_none() {
        return Some(("stamp", STAMP_TAKES));
    }
    if has_value(table, "schedule") && text_at(table, "schedule").is_none() {
        return Some(("schedule", SCHEDULE_TAKES));
    }
    None
}

/// Adds the first key whose value is out of range.
fn push_wrong_range(
    words: &mut String,
    source: Source<'_>,
    table: &Table,
) -> Result<(), AllocError> {
    if has_wrong_stamp(table) {
        source.push_line(words, &[Step::Key("stamp")])?;
        return write!(words, "stamp is out of range: it takes 0 to {LAST_STAMP}");
    }
    if has_long_schedule(table) {
        source.push_line(words, &[Step::Key("schedule")])?;
        return write!(
            words,
            "schedule is too long: it takes at most {MAX_LETTERS} letters"
        );
    }
    match check_sections(table) {
        Err((section, fault)) => push_refused_section(words, source, section, fault),
        Ok(()) => words.push_str("a value is out of range"),
    }
}

/// Whether the stamp is out of range.
fn has_wrong_stamp(table: &Table) -> bool {
    match number_at(table, "stamp") {
        Some(stamp) => stamp < 0 || stamp > i64::from(LAST_STAMP),
        None => false,
    }
}

/// Whether the schedule is too long.
fn has_long_schedule(table: &Table) -> bool {
    match text_at(table, "schedule") {
        Some(text) => text.chars().count() > MAX_LETTERS,
        None => false,
    }
}

/// Whether there is a key at the top.
fn has_value(table: &Table, key: &str) -> bool {
    table.get(key).is_some()
}

/// The text at a key, if there is one.
fn text_at<'a>(table: &'a Table, key: &str) -> Option<&'a str> {
    table.get(key)?.as_str()
}

/// The whole number at a key, if there is one.
fn number_at(table: &Table, key: &str) -> Option<i64> {
    table.get(key)?.as_integer()
}

/// Adds why `start` is none.
fn push_wrong_start(
    words: &mut String,
    source: Source<'_>,
    table: &Table,
) -> Result<(), AllocError> {
    source.push_line(words, &[Step::Key("start")])?;
    let Some(text) = text_at(table, "start") else {
        return words.push_str(START_TAKES);
    };
    push_quoted(words, text.as_bytes())?;
    if read_places(text.as_bytes()).is_some() {
        return push_plate_count(words, text.as_bytes());
    }
    let count = text.len();
    write!(
        words,
        " has {count} bytes; a start has ten digits 0 or 1, one for each of p1 to p10"
    )
}

/// Adds the first character of the schedule that is no letter, and its line.
fn push_wrong_letter(
    words: &mut String,
    source: Source<'_>,
    table: &Table,
) -> Result<(), AllocError> {
    if let Some(before) = bytes_before_letter(source) {
        source.push_line_at(words, before)?;
    }
    let text = text_at(table, "schedule").unwrap_or("");
    let Some((i, letter)) = first_wrong_letter(text) else {
        return words.push_str("the schedule has a wrong letter");
    };
    let number = i.saturating_add(1);
    write!(words, "character {number} of the schedule, ")?;
    push_quoted_char(words, letter)?;
    words.push_str(", is no letter: known are")?;
    for machine in Machine::ALL {
        words.push(' ')?;
        words.push_str(letter_word(false, machine))?;
    }
    words.push_str(" and their capitals")
}

/// How many bytes are before the first character of the schedule that is no letter, if the schedule is found.
fn bytes_before_letter(source: Source<'_>) -> Option<usize> {
    let place = place_of(source.places, &[Step::Key("schedule")])?;
    let value = source.bytes.get(place.value..).unwrap_or(&[]);
    Some(place.value.saturating_add(letters_before(value)))
}

/// The first character of a schedule that is no letter, and how many are before it.
fn first_wrong_letter(text: &str) -> Option<(usize, char)> {
    for (i, letter) in text.chars().enumerate() {
        if !is_letter_char(letter) {
            return Some((i, letter));
        }
    }
    None
}

/// Whether a character is a letter of a schedule.
fn is_letter_char(letter: char) -> bool {
    match u8::try_from(letter) {
        Ok(byte) => is_letter(byte),
        Err(_) => false,
    }
}

/// How many bytes of a text in quotes are before its first character that is no letter. The text may
/// have several lines.
fn letters_before(value: &[u8]) -> usize {
    let mut rest = after_opening(value);
    for _ in 0..value.len() {
        rest = match rest {
            [b'\\', b' ' | b'\t' | b'\r' | b'\n', ..] if value.first() == Some(&b'"') => {
                rest[1..].trim_ascii_start()
            }
            [byte, more @ ..] if is_letter(*byte) => more,
            _ => break,
        };
    }
    value.len().saturating_sub(rest.len())
}

/// What follows the quotes that open a text, and the line end after three of them.
fn after_opening(value: &[u8]) -> &[u8] {
    match value {
        [b'"', b'"', b'"', b'\r', b'\n', rest @ ..] => rest,
        [b'\'', b'\'', b'\'', b'\r', b'\n', rest @ ..] => rest,
        [b'"', b'"', b'"', b'\n', rest @ ..] => rest,
        [b'\'', b'\'', b'\'', b'\n', rest @ ..] => rest,
        [b'"', b'"', b'"', rest @ ..] => rest,
        [b'\'', b'\'', b'\'', rest @ ..] => rest,
        [_, rest @ ..] => rest,
        [] => value,
    }
}
