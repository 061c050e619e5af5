//! Which key of a configuration is unknown, in words.

use crate::nearest::push_suggestion;
use crate::quoted::push_quoted;
use crate::source::Source;
use cell_config::{INNER_KEYS, PLAIN_KEYS, SECTION_KEYS};
use std::alloc::{AllocError, Global};
use toml::Table;
use toml_places::OwnedStep;

/// Whether a key stands outside of sections, or is a section's.
fn is_outer_key(key: &str) -> bool {
    PLAIN_KEYS.contains(&key) || SECTION_KEYS.contains(&key)
}

/// Adds the first key that is unknown, and the nearest known one.
pub fn push_unknown(
    alloc: Global,
    words: &mut String,
    source: Source<'_>,
    table: &Table,
) -> Result<(), AllocError> {
    for place in source.places {
        if is_unknown(place.steps.as_slice(), table) {
            source.push_line_at(words, place.start)?;
            return push_unknown_step(alloc, words, place.steps.as_slice());
        }
    }
    words.push_str("a key is unknown")
}

/// Whether steps lead to an unknown key. In an array no keys are looked at.
fn is_unknown(steps: &[OwnedStep], table: &Table) -> bool {
    match steps {
        [OwnedStep::Key(key), OwnedStep::Key(inner), ..] => {
            let key = key.as_str();
            !is_outer_key(key)
                || !PLAIN_KEYS.contains(&key)
                    && is_table(table, key)
                    && !INNER_KEYS.contains(&inner.as_str())
        }
        [OwnedStep::Key(key), ..] => !is_outer_key(key.as_str()),
        _ => false,
    }
}

/// Adds which key is unknown of those to which steps lead.
fn push_unknown_step(
    alloc: Global,
    words: &mut String,
    steps: &[OwnedStep],
) -> Result<(), AllocError> {
    match steps {
        [OwnedStep::Key(key), OwnedStep::Key(inner), ..] if is_outer_key(key.as_str()) => {
            push_unknown_inner_key(alloc, words, key.as_str(), inner.as_str())
        }
        [OwnedStep::Key(key), ..] => push_unknown_key(alloc, words, key.as_str()),
        _ => Ok(()),
    }
}

/// Whether a key at the top has a table. What isn't one has no keys that are looked at.
fn is_table(table: &Table, key: &str) -> bool {
    match table.get(key) {
        Some(value) => value.as_table().is_some(),
        None => false,
    }
}

/// Adds that a key at the top is unknown there.
fn push_unknown_key(alloc: Global, words: &mut String, key: &str) -> Result<(), AllocError> {
    if INNER_KEYS.contains(&key) {
        return write!(
            words,
            "{key} is a key of a section; move it below a section's head, such as [arm1]"
        );
    }
    let mut known = Vec::with_capacity(alloc, PLAIN_KEYS.len() + SECTION_KEYS.len())?;
    known.extend_from_slice(&PLAIN_KEYS)?;
    known.extend_from_slice(&SECTION_KEYS)?;
    push_no_key(alloc, words, key, known.as_slice())
}

/// Adds that a key is none of these.
fn push_no_key(
    alloc: Global,
    words: &mut String,
    key: &str,
    known: &[&'static str],
) -> Result<(), AllocError> {
    push_quoted(words, key.as_bytes())?;
    words.push_str(" is no key here")?;
    push_suggestion(alloc, words, key.as_bytes(), known)
}

/// Adds that a key in a section is unknown there.
fn push_unknown_inner_key(
    alloc: Global,
    words: &mut String,
    section: &str,
    key: &str,
) -> Result<(), AllocError> {
    if is_outer_key(key) {
        write!(words, "{key} stands in the section {section}; ")?;
        if PLAIN_KEYS.contains(&key) {
            return words.push_str("move it above the first section");
        }
        return write!(words, "its own head is [{key}]");
    }
    push_no_key(alloc, words, key, &INNER_KEYS)
}
