//! Steps over the parts of a TOML text.

use std::alloc::Global;
use toml_parser::text::{skip_blank, skip_ws};
use toml_parser::{ErrorKind, Key, ParseError, dotted_key, quoted, starts_string, unquoted};

/// The name of a head, and what follows it.
pub fn head_key(alloc: Global, head: &str) -> Result<(Key, &str), ParseError> {
    let inside = head.trim_start_matches('[');
    dotted_key(alloc, skip_ws(inside))
}

/// A key, and the text from its value on.
pub fn key_and_value(alloc: Global, pair: &str) -> Result<(Key, &str), ParseError> {
    let (key, after) = dotted_key(alloc, pair)?;
    match after.strip_prefix('=') {
        Some(value) => Ok((key, skip_ws(value))),
        None => Err(ParseError::at(ErrorKind::MissingEquals, after)),
    }
}

/// What follows the first line.
pub fn after_line(rest: &str) -> &str {
    match rest.split_once('\n') {
        Some((_, after)) => after,
        None => "",
    }
}

/// What follows a bracket or a comma, and blanks.
pub fn after_mark(rest: &str) -> &str {
    skip_blank(after_char(rest), true)
}

/// What follows a text in quotes, a number or a word; or else the first character.
pub fn after_scalar(alloc: Global, rest: &str) -> Result<&str, ParseError> {
    if starts_string(rest) {
        let (_, after) = quoted(alloc, rest)?;
        return Ok(after);
    }
    match unquoted(alloc, rest) {
        Ok((_, after)) => Ok(after),
        Err(ParseError::OutOfMemory) => Err(ParseError::OutOfMemory),
        Err(ParseError::At(..)) => Ok(after_char(rest)),
    }
}

/// What follows the first character.
pub fn after_char(rest: &str) -> &str {
    let mut chars = rest.chars();
    let _ = chars.next();
    chars.as_str()
}
