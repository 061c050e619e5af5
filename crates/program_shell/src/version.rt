//! The version of the programs.

ghost use Rattle.std.specs.Prelude.{◌≡◌, ◌≢◌};
ghost use Rattle.program_shell.specs.Exits.{exit_status};
ghost use Rattle.program_shell.specs.Printed.{Prints};
ghost use Rattle.program_shell.specs.Versions as versions;
ghost use Rattle.program_shell.specs.Words.{texts_of};

use crate::exit::Exit;
use crate::printing::print;
use std::io::Write;
use text_io::Page;

/// The version of all programs. It is written here and nowhere else.
pub const VERSION: &str = "1.0.0";

/// Whether the words ask for the version: the program's name, and `--version` after it.
pub fn asks_for_version(words: &[&str]) -> bool
    ensures { result ≡ versions.asks_for_version (texts_of words.now) }
{
    match words {
        [_, word] => *word == "--version",
        _ => false,
    }
}

/// Prints a program's name and its version. Returns `Well` if the line was written, `Failed`
/// otherwise.
pub fn print_version<W: Write>(writer: &mut W, name: &str) -> Exit
    ensures status { result ≢ Exit.Refused }
    ensures printed { Prints (exit_status result) (W.contents writer.old) (W.contents writer.new)
        (versions.version_line name.now) }
{
    let mut page = Page::new();
    if writeln!(page, "{name} {VERSION}").is_err() {
        return Exit::Failed;
    }
    print(writer, page.as_bytes())
}
