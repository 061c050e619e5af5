//! A reader and a writer that fail.

use std::alloc::Global;
use std::io;
use std::io::{ErrorKind, Read, Write};

/// Gives a number of bytes of a text, one at a time, and then fails. If the text is shorter, it ends.
#[derive(Drop)]
pub struct FailingReader<'a> {
    bytes: &'a [u8],
    left: usize,
}

impl<'a> FailingReader<'a> {
    /// A reader of these bytes that fails after it has given `left` of them.
    pub fn new(bytes: &'a [u8], left: usize) -> FailingReader<'a> {
        FailingReader { bytes, left }
    }
}

impl Read for FailingReader<'_> {
    fn read(&mut self, buf: &mut [u8]) -> io::Result<usize> {
        if self.left == 0 {
            return Err(io::Error::from(ErrorKind::Other));
        }
        if buf.is_empty() {
            return Ok(0);
        }
        match self.bytes.split_first() {
            None => Ok(0),
            Some((first, rest)) => {
                buf[0] = *first;
                self.bytes = rest;
                self.left -= 1;
                Ok(1)
            }
        }
    }
}

/// Takes a number of bytes, and then fails, also at a flush.
#[derive(Drop)]
pub struct FailingWriter {
    /// The bytes that it has taken.
    pub taken: Vec<u8>,
    left: usize,
}

impl FailingWriter {
    /// A writer that fails after it has taken `left` bytes.
    pub fn new(alloc: Global, left: usize) -> FailingWriter {
        FailingWriter {
            taken: Vec::new(alloc),
            left,
        }
    }
}

impl Write for FailingWriter {
    fn write(&mut self, buf: &[u8]) -> io::Result<usize> {
        if self.left == 0 {
            return Err(io::Error::from(ErrorKind::Other));
        }
        let count = buf.len().min(self.left);
        self.taken.extend_from_slice(&buf[..count])?;
        self.left -= count;
        Ok(count)
    }

    fn flush(&mut self) -> io::Result<()> {
        if self.left == 0 {
            return Err(io::Error::from(ErrorKind::Other));
        }
        Ok(())
    }
}
