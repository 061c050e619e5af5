//! What the program `history` does.

ghost use Rattle.std.specs.Prelude.{◌≡◌, ◌≤◌, ◌<◌, ◌⊎◌, ℕ, codes};
ghost use Rattle.std.specs.Io.KnownBytes.{Appends};
ghost use Rattle.text_io.specs.Input.{TakesAtMost};
ghost use Rattle.text_io.specs.Output.{WrotePrefix};
ghost use Rattle.program_shell.specs.Printed.{Prints};
ghost use Rattle.program_shell.specs.Versions.{AskForVersion, version_line};
ghost use Rattle.cell_config.specs.Settings.{max_bytes_read};
ghost use Rattle.cell_words.specs.Words.{AreTakenAsFlags, AskForHelpOnFlags, texts_of};
ghost use Rattle.history_app.specs.Served.{AskForHistory, Records};

use crate::record::record;
use cell_replay::MAX_RECORDS;
use cell_words::{read_flags, refuse_in_own_words};
use program_shell::{Exit, asks_for_version, print_version, with_texts};
use std::alloc::Global;
use std::env::Env;
use std::io::{Read, Write};
use std::sync::Wait;
use std::thread::Threads;

/// The help.
const HELP: &str = "\
Runs the six machines in six threads, all at one pace, and writes what they asked
of the interlock as a script, which `cell replay` answers as they were answered.

Usage: history [--turns N] [--tries N]
       history --version

Reads a configuration, as `cell sim` does. Its schedule is checked but not used.
  --turns N  Maximum of turns per machine, 1 to 100000 [default: 1000]
  --tries N  Maximum of compare-exchanges per call, 1 to 64 [default: 8]
Exit status: 0 on success and for help; 2 for bad arguments; otherwise 1: a refused
input, a machine stopped by a fault, a history of more than 65536 calls, a failed
read, write or start of a thread, or no memory.

Example:
  history < examples/six_workers.toml
";

// The help names this number.
const _: () = prove!(MAX_RECORDS == 65_536);

/// What is printed for other words.
const OTHER_WORDS: &str =
    "error: the only arguments are --turns N, --tries N, --help and --version\n";

/// Does what the words ask for, and returns the exit status. The first word is the program's name;
/// the others are flags, those of the word `run` of `cell`. It waits until all threads have
/// ended. The status is
/// - 0 if all went well, for help, and for the version;
/// - 1 for a refused input, a stopped machine, a history that is too long for a script, a failed
///   read or write, a thread that couldn't be started, and if memory ran out;
/// - 2 for words that `clap` refuses.
pub fn serve<T, R: Read, W: Write>(
    rt: &T,
    alloc: Global,
    words: &[&str],
    reader: &mut R,
    writer: &mut W,
) -> u8
where
    T: Threads + Wait + Sync,
    ensures status { result ≤ 2 }

    // Of words that `clap` takes: status 0 says that the cell was run, no machine was stopped, and
    // the script of the run's history was written. Status 1 says what was written: with a stopped
    // machine that is the script all the same.
    ensures records { (turns tries : ℕ) → AskForHistory turns tries (texts_of words.now) →
        Records turns tries result (R.remaining reader.old) (R.remaining reader.new)
        (W.contents writer.old) (W.contents writer.new) }

    // With `--version` after the name: status 0 says that the version was printed, status 1 that a
    // prefix of its line was.
    ensures version { AskForVersion (texts_of words.now) →
        Prints result (W.contents writer.old) (W.contents writer.new)
        (version_line (codes "history")) }

    // Status 0 comes only for words that `clap` takes and for words that ask for help or for the
    // version. Status 2 never comes for words that it takes.
    ensures taken { result ≡ 0 → AreTakenAsFlags (texts_of words.now)
        ⊎ (AskForHelpOnFlags (texts_of words.now) ⊎ AskForVersion (texts_of words.now)) }
    ensures refused { AreTakenAsFlags (texts_of words.now) → result < 2 }

    // For other words that `clap` doesn't take, status 0 says that the help was written.
    ensures help { ¬ AreTakenAsFlags (texts_of words.now) →
        ¬ AskForVersion (texts_of words.now) → result ≡ 0 →
        Appends (W.contents writer.old) (W.contents writer.new) HELP.now }

    // Status 2 says that a line of other words was printed, or a prefix of it.
    ensures line { result ≡ 2 →
        WrotePrefix (W.contents writer.old) (W.contents writer.new) OTHER_WORDS.now }

    // At most one byte more is read than a configuration may have.
    ensures read { TakesAtMost (R.remaining reader.old) (R.remaining reader.new) max_bytes_read }
{
    if asks_for_version(words) {
        return print_version(writer, "history").status();
    }
    match read_flags(alloc, words) {
        Ok(flags) => { record(rt, alloc, flags.turns, flags.tries, reader, writer).status() }
        Err(error) => refuse_in_own_words(writer, error, HELP, OTHER_WORDS).status(),
    }
}

/// Runs the program with the words that it was started with, its input and its output, and returns
/// the exit status.
pub fn start<T, E: Env, R: Read, W: Write>(
    rt: &T,
    alloc: Global,
    env: &E,
    reader: &mut R,
    writer: &mut W,
) -> u8
where
    T: Threads + Wait + Sync,
    ensures status { result ≤ 2 }
    ensures read { TakesAtMost (R.remaining reader.old) (R.remaining reader.new) max_bytes_read }
{
    with_texts!(
        alloc,
        env,
        writer,
        Exit::status,
        |texts| serve(rt, alloc, texts, reader, writer)
    )
}
