//! Fault lines.

ghost use Rattle.std.specs.Prelude.{◌≡◌, OnErr, OnOk};
ghost use Rattle.std.specs.Io.KnownBytes.{Appends};
ghost use Rattle.text_io.specs.Output.{WrotePrefix};
ghost use Rattle.program_shell.specs.Faults.{fault_line};

use crate::exit::Exit;
use std::io::Write;
use text_io::{WriteFault, write_bytes, write_text};

/// Prints a fault's line, as far as the writer takes it, and returns `Failed`. It takes no memory.
pub fn fail<W: Write>(writer: &mut W, fault: &str) -> Exit
    ensures status { result ≡ Exit.Failed }
    ensures line { WrotePrefix (W.contents writer.old) (W.contents writer.new)
        (fault_line fault.now) }
{
    let _ = write_fault(writer, fault);
    Exit::Failed
}

/// Writes a fault's line, however long it is, and flushes the writer. `Write` if the writer failed; then a
/// prefix of the line was written.
pub fn write_fault<W: Write>(writer: &mut W, fault: &str) -> Result<(), WriteFault>
    ensures ok { OnOk result (Appends (W.contents writer.old) (W.contents writer.new)
        (fault_line fault.now)) }
    ensures err { OnErr result (WrotePrefix (W.contents writer.old) (W.contents writer.new)
        (fault_line fault.now)) }
{
    write_bytes(writer, b"fault ")?;
    write_bytes(writer, fault.as_bytes())?;
    write_text(writer, b"\n")
}
