//! Cells whose machines work in threads, with the default scales. So each closure is on its potentiometer's
//! line. Their gate is open.
ghost use Rattle.std.specs.Prelude.{◌≤◌};

use cell_app::serve_run::run_configured;
use cell_config::read_config;
use cell_notes::RunRecord;
use cell_workers::OpenGate;
use std::alloc::Global;
use std::sync::Wait;
use std::thread::Threads;

/// Six workers from the start of this configuration. A call may lose `tries` exchanges, and each worker takes `turns`
/// turns. Without memory, or threads, there may be no record.
pub fn work<R: Threads + Wait + Sync>(
    rt: &R,
    alloc: Global,
    config: &str,
    tries: u8,
    turns: u32,
) -> Option<RunRecord>
    requires few { tries ≤ 64 }
    requires some { 1 ≤ tries }
{
    match read_config(alloc, &mut config.as_bytes()) {
        Ok(config) => run_configured(rt, alloc, &config, turns, tries, &OpenGate).ok(),
        Err(_) => None,
    }
}
