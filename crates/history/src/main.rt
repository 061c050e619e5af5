//! The program that runs the cell by six threads and writes the run's history as a script.
#![tactic(auto)]

use history_app::serve::start;
use std::process::ExitCode;

fn main(rt: HostRuntime) -> ExitCode {
    let status = start(&rt, rt.alloc(), &rt, &mut rt.stdin(), &mut rt.stdout());
    ExitCode::from(status)
}
