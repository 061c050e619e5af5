//! What is printed for words that `clap` doesn't take.

ghost use Rattle.std.specs.Prelude.{◌≡◌, codes};
ghost use Rattle.std.specs.Io.KnownBytes.{Appends};
ghost use Rattle.clap.specs.Words.{kind_of};
ghost use Rattle.text_io.specs.Output.{WrotePrefix};
ghost use Rattle.program_shell.specs.Faults.{fault_line};

use clap::Error;
use clap::error::ErrorKind;
use program_shell::{Exit, fail, print, refuse_words};
use std::io::Write;
use text_io::flush;

/// Prints why the words were refused, or `clap`'s help, and returns how the program ends: `Well` for
/// help, `Refused` for other words, `Failed` if memory ran out or the text wasn't written.
pub fn refuse<W: Write>(writer: &mut W, error: Error) -> Exit
    ensures help { result ≡ Exit.Well → kind_of error ≡ ErrorKind.DisplayHelp }
    ensures memory { kind_of error ≡ ErrorKind.OutOfMemory → result ≡ Exit.Failed }
    ensures line { kind_of error ≡ ErrorKind.OutOfMemory →
        WrotePrefix (W.contents writer.old) (W.contents writer.new) (fault_line (codes "memory")) }
{
    let exit = match error.kind() {
        ErrorKind::OutOfMemory => return fail(writer, "memory"),
        ErrorKind::DisplayHelp => Exit::Well,
        _ => Exit::Refused,
    };
    if write!(writer, "{error}").is_err() || flush(writer).is_err() {
        return Exit::Failed;
    }
    exit
}

/// Does what `refuse` does, with a program's own help and its own line for other words: `clap`'s name
/// the program `cell`. Other words are `Refused` though their line isn't written.
pub fn refuse_in_own_words<W: Write>(
    writer: &mut W,
    error: Error,
    help: &str,
    other_words: &str,
) -> Exit
    ensures help { result ≡ Exit.Well → (kind_of error ≡ ErrorKind.DisplayHelp)
        × Appends (W.contents writer.old) (W.contents writer.new) help.now }
    ensures other { result ≡ Exit.Refused →
        WrotePrefix (W.contents writer.old) (W.contents writer.new) other_words.now }
    ensures memory { kind_of error ≡ ErrorKind.OutOfMemory → result ≡ Exit.Failed }
    ensures line { kind_of error ≡ ErrorKind.OutOfMemory →
        WrotePrefix (W.contents writer.old) (W.contents writer.new) (fault_line (codes "memory")) }
{
    match error.kind() {
        ErrorKind::OutOfMemory => fail(writer, "memory"),
        ErrorKind::DisplayHelp => print(writer, help.as_bytes()),
        _ => refuse_words(writer, other_words),
    }
}
