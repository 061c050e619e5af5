//! Writes a text, and says how much of it was written.

ghost use Rattle.std.specs.Prelude.{◌≡◌, ◌≤◌, length, take, OnOk, OnErr};
ghost use Rattle.std.specs.Io.KnownBytes.{Appends, Keeps};
ghost use Rattle.text_io.specs.Output.{WrotePrefix};

use std::io::{ErrorKind, Write};

/// Why a text wasn't written whole.
#[derive(Clone, Copy, PartialEq, Eq, Debug)]
pub enum WriteFault {
    /// The writer failed, or took none of the bytes that were left.
    Write,
}

/// Writes the whole text and flushes the writer. After an error a prefix of the text was written.
/// An interrupted write or flush is tried again.
pub fn write_text<W: Write>(writer: &mut W, text: &[u8]) -> Result<(), WriteFault>
    ensures ok { OnOk result (Appends (W.contents writer.old) (W.contents writer.new) text.now) }
    ensures err { OnErr result
        (WrotePrefix (W.contents writer.old) (W.contents writer.new) text.now) }
{
    match write_bytes(writer, text) {
        Ok(()) => flush(writer),
        Err(fault) => Err(fault),
    }
}

/// Writes the whole text, without a flush. After an error a prefix of the text was written. An
/// interrupted write is tried again.
pub fn write_bytes<W: Write>(writer: &mut W, text: &[u8]) -> Result<(), WriteFault>
    ensures ok { OnOk result (Appends (W.contents writer.old) (W.contents writer.new) text.now) }
    ensures err { OnErr result
        (WrotePrefix (W.contents writer.old) (W.contents writer.new) text.now) }
{
    write_counted(writer, text).1
}

/// Writes a text, without a flush, and returns how many of its bytes were written: all of them if
/// there was no error. An interrupted write is tried again.
pub fn write_counted<W: Write>(writer: &mut W, text: &[u8]) -> (usize, Result<(), WriteFault>)
    ensures bound { result.0 ≤ length text.now }
    ensures all { OnOk result.1 (result.0 ≡ length text.now) }
    ensures bytes { Appends (W.contents writer.old) (W.contents writer.new)
        (take result.0 text.now) }
{
    let mut written = 0;
    'parts: for _ in 0..u64::MAX {
        if written == text.len() {
            return (written, Ok(()));
        }
        let count = match writer.write(&text[written..]) {
            Ok(0) => return (written, Err(WriteFault::Write)),
            Ok(count) => count,
            Err(error) => {
                if error.kind() != ErrorKind::Interrupted {
                    return (written, Err(WriteFault::Write));
                }
                0
            }
        };
        written += count;
    }
    (written, Err(WriteFault::Write))
}

/// Flushes a writer. An interrupted flush is tried again; any other failure is an error. What was
/// written stays.
pub fn flush<W: Write>(writer: &mut W) -> Result<(), WriteFault>
    ensures { Keeps (W.contents writer.old) (W.contents writer.new) }
{
    'tries: for _ in 0..u64::MAX {
        match writer.flush() {
            Ok(()) => return Ok(()),
            Err(error) => {
                if error.kind() != ErrorKind::Interrupted {
                    return Err(WriteFault::Write);
                }
            }
        }
    }
    Err(WriteFault::Write)
}
