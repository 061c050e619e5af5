//! Serves one run of the program.

ghost use Rattle.std.specs.Prelude.{◌≡◌, ◌≤◌, ◌<◌, ◌⊎◌, ℕ, codes};
ghost use Rattle.text_io.specs.Input.{TakesAtMost};
ghost use Rattle.program_shell.specs.Printed.{Prints};
ghost use Rattle.program_shell.specs.Versions.{AskForVersion, version_line};
ghost use Rattle.cell_replay.specs.Script.{max_bytes_read};
ghost use Rattle.cell_app.specs.Asked.{AskFor};
ghost use Rattle.cell_app.specs.Served.{Replays, Runs, Simulates};
ghost use Rattle.cell_words.specs.Words.{AreTaken, AskForHelp, AskForRun, texts_of};

use crate::serve_replay::serve_replay;
use crate::serve_run::serve_run;
use crate::serve_sim::serve_sim;
use cell_words::{Mode, read_words, refuse};
use program_shell::{asks_for_version, print_version};
use std::alloc::Global;
use std::io::{Read, Write};
use std::sync::Wait;
use std::thread::Threads;

/// Does what the words ask for, and returns the exit status. The first word is the program's name.
/// For the word `run` it waits until all workers have ended. The status is
/// - 0 if all went well, for help, and for the version;
/// - 1 for a refused input, a stopped machine, a rejected audit, a failed read or write, a worker
///   that couldn't be started, and if memory ran out;
/// - 2 for words that `clap` refuses.
pub fn serve<T, R: Read, W: Write>(
    rt: &T,
    alloc: Global,
    words: &[&str],
    reader: &mut R,
    writer: &mut W,
) -> u8
where
    T: Threads + Wait + Sync,
    ensures status { result ≤ 2 }

    // Of words that `clap` takes, with nothing or `replay` after the name: status 0 says that the
    // script was clean and its text was written, status 1 what was written of it.
    ensures replay { AskFor Mode.Replay (texts_of words.now) →
        Replays result (R.remaining reader.old) (R.remaining reader.new)
        (W.contents writer.old) (W.contents writer.new) }

    // With `sim` after the name: status 0 says that the run was simulated and audited, no machine
    // was stopped and the report was written, status 1 what was written. Where no machine was
    // stopped, the report is the one of this configuration.
    ensures simulation { AskFor Mode.Sim (texts_of words.now) →
        Simulates result (R.remaining reader.old) (R.remaining reader.new)
        (W.contents writer.old) (W.contents writer.new) }

    // With `run` after the name: status 0 says that six workers ran the cell, no machine was
    // stopped and the report with `audit ok` was written, status 1 what was written.
    ensures run { (turns tries : ℕ) → AskForRun turns tries (texts_of words.now) →
        Runs turns tries result (R.remaining reader.old) (R.remaining reader.new)
        (W.contents writer.old) (W.contents writer.new) }

    // With `--version` after the name: status 0 says that the version was printed, status 1 that a
    // prefix of its line was.
    ensures version { AskForVersion (texts_of words.now) →
        Prints result (W.contents writer.old) (W.contents writer.new)
        (version_line (codes "cell")) }

    // Status 0 comes only for words that `clap` takes and for words that ask for help or for the
    // version. Status 2 never comes for words that it takes.
    ensures taken { result ≡ 0 → AreTaken (texts_of words.now)
        ⊎ (AskForHelp (texts_of words.now) ⊎ AskForVersion (texts_of words.now)) }
    ensures refused { AreTaken (texts_of words.now) → result < 2 }

    // At most one byte more is read than a script may have.
    ensures read { TakesAtMost (R.remaining reader.old) (R.remaining reader.new) max_bytes_read }
{
    if asks_for_version(words) {
        return print_version(writer, "cell").status();
    }
    match read_words(alloc, words) {
        Ok(Mode::Replay) => serve_replay(alloc, reader, writer).status(),
        Ok(Mode::Sim) => serve_sim(alloc, reader, writer).status(),
        Ok(Mode::Run { turns, tries }) => {
            serve_run(rt, alloc, turns, tries, reader, writer).status()
        }
        Err(error) => refuse(writer, error).status(),
    }
}
