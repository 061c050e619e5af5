//! What the program `explain` does.

ghost use Rattle.std.specs.Prelude.{◌≡◌, ◌≢◌, ◌≤◌, ◌⊎◌, codes};
ghost use Rattle.std.specs.Io.KnownBytes.{Appends, Keeps};
ghost use Rattle.clap.specs.Words.{kind_of};
ghost use Rattle.text_io.specs.Input.{TakesAtMost};
ghost use Rattle.text_io.specs.Output.{WrotePrefix};
ghost use Rattle.program_shell.specs.Versions.{AskForVersion, version_line};
ghost use Rattle.program_shell.specs.Words.{texts_of};
ghost use Rattle.cell_words.specs.Words.{AreTaken, AskForHelp};
ghost use Rattle.cell_replay.specs.Script.{max_bytes_read};
ghost use Rattle.explain_app.specs.Served.{AskOfConfig, AskOfScript, ExplainsConfig, ExplainsScript};

use crate::explain::{explain_configuration, explain_script};
use cell_words::{Mode, read_words, refuse_in_own_words};
use clap::error::ErrorKind;
use program_shell::{Exit, asks_for_version, print_version, with_texts};
use std::alloc::Global;
use std::env::Env;
use std::io::{Read, Write};

/// The help.
const HELP: &str = "\
Says what is wrong with an input that `cell` refuses, and nothing of any other.
Its words are those of `cell`: replay, sim, run; alone, --version prints the version.
Exit status: 0 if the input isn't refused; 1 if it is; 2 for bad words; 3 if reading
or writing failed, or memory ran out.

Example:
  explain replay < examples/interior.csv
";

/// What is printed for other words.
const OTHER_WORDS: &str =
    "error: the only arguments are replay, sim, run, --turns N, --tries N, --help and --version\n";

/// The exit status if reading or writing failed, or memory ran out.
pub const FAILED: u8 = 3;

/// Explains a script. Status 0: it isn't refused, and nothing was written. Status 1: it is, and the
/// explanation was written. Status 3: reading or writing failed, or memory ran out.
pub fn serve_script<R: Read, W: Write>(alloc: Global, reader: &mut R, writer: &mut W) -> u8
    ensures { ExplainsScript result (R.remaining reader.old) (R.remaining reader.new)
        (W.contents writer.old) (W.contents writer.new) }
{
    match explain_script(alloc, reader, writer) {
        Ok(verdict) => verdict.status(),
        Err(_) => FAILED,
    }
}

/// Explains a configuration. The statuses are those of a script.
pub fn serve_configuration<R: Read, W: Write>(alloc: Global, reader: &mut R, writer: &mut W) -> u8
    ensures { ExplainsConfig result (R.remaining reader.old) (R.remaining reader.new)
        (W.contents writer.old) (W.contents writer.new) }
{
    match explain_configuration(alloc, reader, writer) {
        Ok(verdict) => verdict.status(),
        Err(_) => FAILED,
    }
}

/// Does what the words ask for, and returns the exit status. The words are those of `cell`: with
/// `replay`, or nothing, after the program's name a script is explained, with `sim` or `run` a
/// configuration. The status is
/// - 0 for an input that isn't refused, for help, and for the version;
/// - 1 for one that is;
/// - 2 for words that `clap` refuses;
/// - 3 for a failed read or write, and if memory ran out.
pub fn serve<R: Read, W: Write>(alloc: Global, words: &[&str], reader: &mut R, writer: &mut W) -> u8
    ensures status { result ≤ 3 }

    // Of words that `clap` takes, with nothing or `replay` after the name: status 0 says that the
    // script isn't refused, status 1 that it is, and status 3 what was written of its explanation.
    ensures script { AskOfScript (texts_of words.now) →
        ExplainsScript result (R.remaining reader.old) (R.remaining reader.new)
        (W.contents writer.old) (W.contents writer.new) }

    // With `sim` or `run` after the name: the same of a configuration.
    ensures configuration { AskOfConfig (texts_of words.now) →
        ExplainsConfig result (R.remaining reader.old) (R.remaining reader.new)
        (W.contents writer.old) (W.contents writer.new) }

    // Status 0 comes only for words that `clap` takes and for words that ask for help or for the
    // version; status 1 only for words that it takes; status 2 never for these.
    ensures taken { result ≡ 0 → AreTaken (texts_of words.now)
        ⊎ (AskForHelp (texts_of words.now) ⊎ AskForVersion (texts_of words.now)) }
    ensures explained { result ≡ 1 → AreTaken (texts_of words.now) }
    ensures refused { AreTaken (texts_of words.now) → result ≢ 2 }

    // For words that ask for the version, status 0 says that it was written. For others that `clap`
    // doesn't take, it says that the help was.
    ensures version { AskForVersion (texts_of words.now) → result ≡ 0 →
        Appends (W.contents writer.old) (W.contents writer.new) (version_line (codes "explain")) }
    ensures help { ¬ AreTaken (texts_of words.now) → ¬ AskForVersion (texts_of words.now) →
        result ≡ 0 → Appends (W.contents writer.old) (W.contents writer.new) HELP.now }

    // Status 2 says that a line of other words was printed, or a prefix of it.
    ensures line { result ≡ 2 →
        WrotePrefix (W.contents writer.old) (W.contents writer.new) OTHER_WORDS.now }

    // At most one byte more is read than a script may have, and nothing for words that `clap`
    // doesn't take.
    ensures read { TakesAtMost (R.remaining reader.old) (R.remaining reader.new) max_bytes_read }
    ensures unread { ¬ AreTaken (texts_of words.now) →
        Keeps (R.remaining reader.old) (R.remaining reader.new) }
{
    if asks_for_version(words) {
        return status_of(print_version(writer, "explain"));
    }
    match read_words(alloc, words) {
        Ok(Mode::Replay) => serve_script(alloc, reader, writer),
        Ok(Mode::Sim | Mode::Run { .. }) => serve_configuration(alloc, reader, writer),
        Err(error) => refuse(writer, error),
    }
}

/// Prints help, or why the words were refused, and returns the exit status.
fn refuse<W: Write>(writer: &mut W, error: clap::Error) -> u8
    ensures status { result ≤ 3 }
    ensures help { result ≡ 0 → (kind_of error ≡ ErrorKind.DisplayHelp)
        × Appends (W.contents writer.old) (W.contents writer.new) HELP.now }
    ensures line { result ≡ 2 →
        WrotePrefix (W.contents writer.old) (W.contents writer.new) OTHER_WORDS.now }
    ensures told { result ≢ 1 }
    ensures memory { kind_of error ≡ ErrorKind.OutOfMemory →
        (result ≡ 3) × Keeps (W.contents writer.old) (W.contents writer.new) }
{
    match error.kind() {
        ErrorKind::OutOfMemory => FAILED,
        _ => status_of(refuse_in_own_words(writer, error, HELP, OTHER_WORDS)),
    }
}

/// The exit status after a text that is no explanation. It is the program's, but for a failure.
fn status_of(exit: Exit) -> u8
    ensures status { result ≤ 3 }
    ensures well { result ≡ 0 → exit ≡ Exit.Well }
    ensures told { result ≢ 1 }
    ensures refused { result ≡ 2 → exit ≡ Exit.Refused }
{
    match exit {
        Exit::Failed => FAILED,
        Exit::Well | Exit::Refused => exit.status(),
    }
}

/// Runs the program with the words that it was started with, and returns the exit status.
pub fn start<E: Env, R: Read, W: Write>(
    alloc: Global,
    env: &E,
    reader: &mut R,
    writer: &mut W,
) -> u8
    ensures status { result ≤ 3 }
    ensures read { TakesAtMost (R.remaining reader.old) (R.remaining reader.new) max_bytes_read }
{
    with_texts!(
        alloc,
        env,
        writer,
        status_of,
        |texts| serve(alloc, texts, reader, writer)
    )
}
