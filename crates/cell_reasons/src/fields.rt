//! What is wrong with a field of a record.

use crate::nearest::push_suggestion;
use crate::quoted::push_quoted;
use std::alloc::{AllocError, Global};

/// The most fields of a record.
pub const MAX_FIELDS: usize = 3;

/// A field, and where it is: the line on which it begins, and its number. The first field is 1.
#[derive(Clone, Copy)]
pub struct Field<'a> {
    pub line: usize,
    pub number: usize,
    pub bytes: &'a [u8],
}

impl Field<'_> {
    /// Adds where the field is, and what it is.
    pub fn push_place(self, words: &mut String) -> Result<(), AllocError> {
        let line = self.line;
        let number = self.number;
        write!(words, "line {line}, field {number}: ")?;
        push_quoted(words, self.bytes)
    }

    /// Adds that the field isn't one of the known words of a kind, why, and which may be meant.
    pub fn push_unknown(
        self,
        alloc: Global,
        words: &mut String,
        kind: &str,
        known: &[&'static str],
    ) -> Result<(), AllocError> {
        self.push_place(words)?;
        write!(words, " is no {kind}")?;
        words.push_str(look(self.bytes))?;
        push_suggestion(alloc, words, self.bytes, known)
    }

    /// Adds that the field begins a comment.
    pub fn push_comment(self, words: &mut String) -> Result<(), AllocError> {
        self.push_place(words)?;
        words.push_str(": a script has no comments; delete the line")
    }

    /// Adds what is wrong with the field, and what it is to be.
    pub fn push_wrong(self, words: &mut String, wrong: &str) -> Result<(), AllocError> {
        self.push_place(words)?;
        words.push_str(look(self.bytes))?;
        words.push_str(wrong)
    }
}

/// What catches the eye in a field; empty if nothing does.
fn look(field: &[u8]) -> &'static str {
    if field.is_empty() {
        return ": it is empty; a comma too many makes an empty field";
    }
    if field.starts_with(b"\xef\xbb\xbf".as_slice()) {
        return ": it begins with a byte order mark";
    }
    if field.contains(&0) {
        return ": it has bytes 0; is the file UTF-16? Save it as UTF-8";
    }
    if field.contains(&b'\n') || field.contains(&b'\r') {
        return ": it goes past the end of a line; is a quote left open?";
    }
    if field.contains(&b';') {
        return ": a comma separates fields, not a semicolon";
    }
    if field.contains(&b'"') {
        return ": it has a quote";
    }
    look_at_blanks(field)
}

/// What catches the eye in a field with blanks or capitals.
fn look_at_blanks(field: &[u8]) -> &'static str {
    if field.trim_ascii_start().len() < field.len() {
        return ": it begins with a blank";
    }
    if field.trim_ascii_end().len() < field.len() {
        return ": it ends with a blank";
    }
    if field.contains(&b'\t') {
        return ": a comma separates fields, not a tab";
    }
    if field.contains(&b' ') {
        return ": a comma separates fields, not a blank";
    }
    if field.iter().any(|byte| byte.is_ascii_uppercase()) {
        return ": words are lower case";
    }
    ""
}
