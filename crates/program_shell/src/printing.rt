//! Prints texts.

ghost use Rattle.std.specs.Prelude.{◌≢◌};
ghost use Rattle.program_shell.specs.Exits.{exit_status};
ghost use Rattle.program_shell.specs.Printed.{Prints};

use crate::exit::Exit;
use std::io::Write;
use text_io::write_text;

/// Prints a text, and flushes the writer. Returns `Well` if it was written, `Failed` otherwise.
pub fn print<W: Write>(writer: &mut W, text: &[u8]) -> Exit
    ensures status { result ≢ Exit.Refused }
    ensures printed { Prints (exit_status result) (W.contents writer.old) (W.contents writer.new)
        text.now }
{
    match write_text(writer, text) {
        Ok(()) => Exit::Well,
        Err(_) => Exit::Failed,
    }
}
