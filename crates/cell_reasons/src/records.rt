//! Finds a record of a script again.

use csv::{ByteRecord, Reader, ReaderBuilder};
use std::alloc::{AllocError, Global};

/// The byte order mark, which is dropped at the very start of a script.
const BYTE_ORDER_MARK: &[u8] = b"\xef\xbb\xbf";

/// A record of a script, and the line on which it begins. The first line is 1.
#[derive(Drop)]
pub struct Record {
    pub row: ByteRecord,
    pub line: usize,
}

/// The record with this number, if there is one.
pub fn record_at(alloc: Global, script: &[u8], number: u32) -> Result<Option<Record>, AllocError> {
    let mut row = ByteRecord::new(alloc);
    if !read_row(alloc, script, number, &mut row)? {
        return Ok(None);
    }
    let line = line_of(script, &row);
    Ok(Some(Record { row, line }))
}

/// Reads the record with this number. Returns whether there is one.
fn read_row(
    alloc: Global,
    script: &[u8],
    number: u32,
    row: &mut ByteRecord,
) -> Result<bool, AllocError> {
    let mut reader = ReaderBuilder::new()
        .has_headers(false)
        .flexible(true)
        .from_reader(alloc, script);
    read_to(&mut reader, number, row)
}

fn read_to(
    reader: &mut Reader<&[u8]>,
    number: u32,
    row: &mut ByteRecord,
) -> Result<bool, AllocError> {
    for _ in 0..number {
        if !read_next(reader, row)? {
            return Ok(false);
        }
    }
    read_next(reader, row)
}

/// The line on which a record that was read begins.
fn line_of(script: &[u8], row: &ByteRecord) -> usize {
    match row.position() {
        Some(position) => line_after(script, position.byte() as usize),
        None => line_after(script, 0),
    }
}

/// Reads the next record. Returns whether there is one. Memory alone can run out: a slice is always
/// read, and a record may have any number of fields and any bytes.
fn read_next(reader: &mut Reader<&[u8]>, row: &mut ByteRecord) -> Result<bool, AllocError> {
    match reader.read_byte_record(row) {
        Ok(found) => Ok(found),
        Err(_) => Err(AllocError),
    }
}

/// The line of the first byte that ends no line, from offset `before` on, after a byte order mark.
fn line_after(script: &[u8], before: usize) -> usize {
    let before = if script.starts_with(BYTE_ORDER_MARK) {
        before.max(BYTE_ORDER_MARK.len())
    } else {
        before
    };
    let rest = script.get(before..).unwrap_or(&[]);
    let blank = rest.iter().take_while(|byte| is_line_end(**byte)).count();
    let end = before.saturating_add(blank).min(script.len());
    line_ends(&script[..end]).saturating_add(1)
}

/// Whether a byte ends a line.
fn is_line_end(byte: u8) -> bool {
    byte == b'\n' || byte == b'\r'
}

/// How many lines end in these bytes, by LF, CR or CRLF.
pub fn line_ends(bytes: &[u8]) -> usize {
    let mut count = 0usize;
    let mut last = b' ';
    for byte in bytes {
        if *byte == b'\r' || *byte == b'\n' && last != b'\r' {
            count = count.saturating_add(1);
        }
        last = *byte;
    }
    count
}
