//! A reader and a writer that are interrupted, and may fail.

use std::alloc::Global;
use std::io;
use std::io::{ErrorKind, Read, Write};

/// Gives the bytes of a text, a limited number at a time, and fails after a number of them. It is
/// interrupted a number of times before each part, the end and the failure.
#[derive(Drop)]
pub struct InterruptedReader<'a> {
    bytes: &'a [u8],
    left: usize,
    at_once: usize,
    /// How often it is interrupted each time.
    pub times: u32,
    // How many reads were interrupted since the last one that wasn't.
    interrupted: u32,
}

impl<'a> InterruptedReader<'a> {
    /// A reader of these bytes that fails after it has given `left` of them, at most `at_once` at a
    /// time. It is interrupted twice each time.
    pub fn new(bytes: &'a [u8], left: usize, at_once: usize) -> InterruptedReader<'a> {
        InterruptedReader {
            bytes,
            left,
            at_once,
            times: 2,
            interrupted: 0,
        }
    }
}

impl Read for InterruptedReader<'_> {
    fn read(&mut self, buf: &mut [u8]) -> io::Result<usize> {
        if self.interrupted < self.times {
            self.interrupted += 1;
            return Err(io::Error::from(ErrorKind::Interrupted));
        }
        self.interrupted = 0;
        if self.left == 0 {
            return Err(io::Error::from(ErrorKind::Other));
        }
        let count = buf.len().min(self.bytes.len());
        let count = count.min(self.left).min(self.at_once);
        let (given, rest) = self.bytes.split_at(count);
        buf[..count].copy_from_slice(given);
        self.bytes = rest;
        self.left -= count;
        Ok(count)
    }
}

/// How a writer fails.
#[derive(Clone, Copy, PartialEq, Eq, Debug)]
pub enum Failure {
    /// A write is an error when no room is left.
    Write,
    /// A write takes no byte when no room is left.
    Full,
    /// A flush is an error.
    Flush,
}

/// Takes a limited number of bytes, a limited number at a time, and then fails in a given way. It
/// is interrupted a number of times before each part and each flush.
#[derive(Drop)]
pub struct InterruptedWriter {
    /// The bytes that it has taken.
    pub taken: Vec<u8>,
    at_once: usize,
    left: usize,
    failure: Failure,
    /// How often it is interrupted each time.
    pub times: u32,
    // How many writes or flushes were interrupted since the last one that wasn't.
    interrupted: u32,
}

impl InterruptedWriter {
    /// A writer with room for `room` bytes, which takes at most `at_once` at a time. It is
    /// interrupted once each time.
    pub fn new(alloc: Global, room: usize, at_once: usize, failure: Failure) -> InterruptedWriter {
        InterruptedWriter {
            taken: Vec::new(alloc),
            at_once,
            left: room,
            failure,
            times: 1,
            interrupted: 0,
        }
    }

    /// Interrupts as many calls as it should before the next one that isn't.
    fn interrupt(&mut self) -> io::Result<()> {
        if self.interrupted < self.times {
            self.interrupted += 1;
            return Err(io::Error::from(ErrorKind::Interrupted));
        }
        self.interrupted = 0;
        Ok(())
    }
}

impl Write for InterruptedWriter {
    fn write(&mut self, buf: &[u8]) -> io::Result<usize> {
        self.interrupt()?;
        if self.left == 0 && self.failure == Failure::Write {
            return Err(io::Error::from(ErrorKind::Other));
        }
        let count = buf.len().min(self.left).min(self.at_once);
        self.taken.extend_from_slice(&buf[..count])?;
        self.left -= count;
        Ok(count)
    }

    fn flush(&mut self) -> io::Result<()> {
        self.interrupt()?;
        match self.failure {
            Failure::Flush => Err(io::Error::from(ErrorKind::Other)),
            Failure::Write | Failure::Full => Ok(()),
        }
    }
}
