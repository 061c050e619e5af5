//! An endless reader, and a reader and a writer that count lines.

use super::count_lines;
use std::alloc::Global;
use std::cell::Cell;
use std::io;
use std::io::{Read, Write};

/// Gives line feeds without end, and counts them.
#[derive(Drop)]
pub struct EndlessReader {
    /// How many bytes it has given.
    pub given: u64,
}

impl Read for EndlessReader {
    fn read(&mut self, buf: &mut [u8]) -> io::Result<usize> {
        buf.fill(b'\n');
        self.given = self.given.saturating_add(buf.len() as u64);
        Ok(buf.len())
    }
}

/// Gives a text in parts, which bars separate, at most one part at a read. Before each part and
/// before the end it notes how many lines a `FlushedLines` has.
#[derive(Drop)]
pub struct PartReader<'a> {
    bytes: &'a [u8],
    // Whether a part begins here, or the end.
    is_between: bool,
    lines: &'a Cell<usize>,
    /// The numbers of lines that it has noted.
    pub noted: Vec<usize>,
}

impl<'a> PartReader<'a> {
    /// A reader of this text.
    pub fn new(alloc: Global, text: &'a str, lines: &'a Cell<usize>) -> PartReader<'a> {
        PartReader {
            bytes: text.as_bytes(),
            is_between: true,
            lines,
            noted: Vec::new(alloc),
        }
    }
}

impl Read for PartReader<'_> {
    fn read(&mut self, buf: &mut [u8]) -> io::Result<usize> {
        if self.is_between {
            self.noted.push(self.lines.get())?;
        }
        let mut count = 0usize;
        for place in buf.iter_mut() {
            let Some((first, rest)) = self.bytes.split_first() else {
                break;
            };
            if *first == b'|' {
                break;
            }
            *place = *first;
            self.bytes = rest;
            count = count.saturating_add(1);
        }
        self.is_between = self.bytes.is_empty();
        if let Some((b'|', rest)) = self.bytes.split_first() {
            self.is_between = true;
            self.bytes = rest;
        }
        Ok(count.min(buf.len()))
    }
}

/// Counts the lines that are written and flushed.
#[derive(Drop)]
pub struct FlushedLines<'a> {
    lines: &'a Cell<usize>,
    // How many lines are written and not flushed.
    waiting: usize,
}

impl<'a> FlushedLines<'a> {
    /// A writer that counts in `lines`.
    pub fn new(lines: &'a Cell<usize>) -> FlushedLines<'a> {
        FlushedLines { lines, waiting: 0 }
    }
}

impl Write for FlushedLines<'_> {
    fn write(&mut self, buf: &[u8]) -> io::Result<usize> {
        self.waiting = self.waiting.saturating_add(count_lines(buf));
        Ok(buf.len())
    }

    fn flush(&mut self) -> io::Result<()> {
        self.lines
            .set(self.lines.get().saturating_add(self.waiting));
        self.waiting = 0;
        Ok(())
    }
}
