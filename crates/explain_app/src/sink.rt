//! A writer that writes nothing.

use std::io;
use std::io::Write;

/// Takes what it is given, and drops it.
#[derive(Drop)]
pub struct Sink;

impl Write for Sink {
    fn write(&mut self, buf: &[u8]) -> io::Result<usize> {
        Ok(buf.len())
    }

    fn flush(&mut self) -> io::Result<()> {
        Ok(())
    }
}
