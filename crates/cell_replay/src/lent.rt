//! A reader and a writer that are lent to a replay.

ghost use Rattle.std.specs.Prelude.{◌≡◌, ◌≤◌, ℕ, List, length, take, Option, None, OnOk};
ghost use Rattle.std.specs.Io.{ReadsAtMost};
ghost use Rattle.std.specs.Io.KnownBytes.{Appends, Keeps, ReadConsumes};

use std::io;
use std::io::{ErrorKind, Read, Write};
use std::marker::Brand;
use text_io::{WriteFault, flush, write_counted};

/// Identifies the reader and the writer of a replay: which loans they are, the bytes that the
/// reader had at first, and those that the writer had.
pub trait Origin {
    ghost bytes: { Option (List ℕ) };

    ghost reader_loan: { ℕ };

    ghost written: { Option (List ℕ) };

    ghost writer_loan: { ℕ };
}

impl Origin for Brand {
    ghost bytes = { None };

    ghost reader_loan = { 0 };

    ghost written = { None };

    ghost writer_loan = { 0 };
}

/// A reader that is lent. It stays the same loan while it is read.
pub trait LentReader {
    // The bytes that it has left, if they are known.
    ghost left: { Self → Option (List ℕ) };

    // Which loan it is.
    ghost loan_of: { Self → ℕ };

    /// Reads as `Read::read` does. An interrupted read is tried again.
    fn read_on(&mut self, buf: &mut [u8]) -> io::Result<usize>
        ensures bound { ReadsAtMost result buf.new }
        ensures bytes { ReadConsumes (left self.old) (left self.new) result buf.new }
        ensures same { loan_of self.new ≡ loan_of self.old };
}

impl<R: Read> LentReader for &mut R {
    ghost left = { λ r. R.remaining r.now };

    ghost loan_of = { λ r. r.ghost_name };

    fn read_on(&mut self, buf: &mut [u8]) -> io::Result<usize> {
        read_uninterrupted(&mut **self, buf)
    }
}

/// Reads as `Read::read` does. An interrupted read is tried again, since `csv` takes any error of
/// its reader for the end.
fn read_uninterrupted<R: Read>(reader: &mut R, buf: &mut [u8]) -> io::Result<usize>
    ensures bound { ReadsAtMost result buf.new }
    ensures bytes { ReadConsumes (R.remaining reader.old) (R.remaining reader.new) result buf.new }
{
    'tries: for _ in 0..u64::MAX {
        match reader.read(buf) {
            Ok(count) => return Ok(count),
            Err(error) => {
                if error.kind() != ErrorKind::Interrupted {
                    return Err(error);
                }
            }
        }
    }
    Err(io::Error::from(ErrorKind::Interrupted))
}

/// A writer that is lent. It stays the same loan while it is written.
pub trait LentWriter {
    // The bytes that it has, if they are known.
    ghost contents: { Self → Option (List ℕ) };

    // Which loan it is.
    ghost loan_of: { Self → ℕ };

    /// Writes as `write_counted` does.
    fn write_on(&mut self, text: &[u8]) -> (usize, Result<(), WriteFault>)
        ensures bound { result.0 ≤ length text.now }
        ensures all { OnOk result.1 (result.0 ≡ length text.now) }
        ensures bytes { Appends (contents self.old) (contents self.new) (take result.0 text.now) }
        ensures same { loan_of self.new ≡ loan_of self.old };

    /// Flushes as `flush` does.
    fn flush_on(&mut self) -> Result<(), WriteFault>
        ensures kept { Keeps (contents self.old) (contents self.new) }
        ensures same { loan_of self.new ≡ loan_of self.old };
}

impl<W: Write> LentWriter for &mut W {
    ghost contents = { λ w. W.contents w.now };

    ghost loan_of = { λ w. w.ghost_name };

    fn write_on(&mut self, text: &[u8]) -> (usize, Result<(), WriteFault>) {
        write_counted(&mut **self, text)
    }

    fn flush_on(&mut self) -> Result<(), WriteFault> {
        flush(&mut **self)
    }
}
