//! The program of the production cell: it replays scripts of calls to the interlock, simulates the
//! cell, or runs it by six workers.
#![tactic(auto)]

pub use cell_app::serve::serve;
use cell_app::start::start;
pub use cell_config::{Config, ConfigFault, read_config};
pub use cell_words::{Mode, read_words};
pub use cell_workers::{Gate, RunFault, run_cell};
use std::process::ExitCode;

fn main(rt: HostRuntime) -> ExitCode {
    let status = start(&rt, rt.alloc(), &rt, &mut rt.stdin(), &mut rt.stdout());
    ExitCode::from(status)
}
