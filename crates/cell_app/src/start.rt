//! Starts the program: from its arguments to its exit status.

ghost use Rattle.std.specs.Prelude.{◌≤◌};
ghost use Rattle.text_io.specs.Input.{TakesAtMost};
ghost use Rattle.cell_replay.specs.Script.{max_bytes_read};

use crate::serve::serve;
use program_shell::{Exit, with_texts};
use std::alloc::Global;
use std::env::Env;
use std::io::{Read, Write};
use std::sync::Wait;
use std::thread::Threads;

/// Runs the program with the words that it was started with, its input and its output, and returns
/// the exit status. Words that aren't text are refused before `clap` sees them.
pub fn start<T, E: Env, R: Read, W: Write>(
    rt: &T,
    alloc: Global,
    env: &E,
    reader: &mut R,
    writer: &mut W,
) -> u8
where
    T: Threads + Wait + Sync,
    ensures status { result ≤ 2 }
    ensures read { TakesAtMost (R.remaining reader.old) (R.remaining reader.new) max_bytes_read }
{
    with_texts!(
        alloc,
        env,
        writer,
        Exit::status,
        |texts| serve(rt, alloc, texts, reader, writer)
    )
}
