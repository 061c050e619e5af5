//! Runs the cell by six threads, and tells the run.

ghost use Rattle.std.specs.Prelude.{◌≡◌, ◌≢◌, ◌≤◌, IfSome};
ghost use Rattle.text_io.specs.Input.{TakesAtMost};
ghost use Rattle.cell_config.specs.Settings.{max_bytes_read};
ghost use Rattle.history_app.specs.Recorded.{RecordingFails, WasRecorded};

use crate::history::write_history;
use cell_app::serve_run::run_configured;
use cell_config::read_config;
use cell_threads::PacedGate;
use program_shell::{Exit, fail};
use std::alloc::Global;
use std::io::{Read, Write};
use std::sync::Wait;
use std::thread::Threads;

/// Runs the cell by the configuration that it reads, each machine in a thread of its own and all
/// at one pace, and writes the script of the run's history, or prints a fault. Returns `Well` if
/// all went well, `Failed` otherwise.
pub fn record<T, R: Read, W: Write>(
    rt: &T,
    alloc: Global,
    turns: u32,
    tries: u8,
    reader: &mut R,
    writer: &mut W,
) -> Exit
where
    T: Threads + Wait + Sync,
    requires few { tries ≤ 64 }
    requires some { 1 ≤ tries }
    ensures status { result ≢ Exit.Refused }
    ensures well { result ≡ Exit.Well →
        WasRecorded turns tries (R.remaining reader.old)
        (W.contents writer.old) (W.contents writer.new) }
    ensures failed { result ≡ Exit.Failed →
        IfSome (R.remaining reader.old) (λ bytes.
        RecordingFails turns tries bytes (W.contents writer.old) (W.contents writer.new)) }
    ensures read { TakesAtMost (R.remaining reader.old) (R.remaining reader.new) max_bytes_read }
{
    let config = match read_config(alloc, reader) {
        Ok(config) => config,
        Err(fault) => return fail(writer, fault.text()),
    };
    let gate = PacedGate::new(rt);
    match run_configured(rt, alloc, &config, turns, tries, &gate) {
        Ok(run) => write_history(alloc, &run, writer),
        Err(fault) => fail(writer, fault.text()),
    }
}
