//! The program that makes a page of a run, on which the cell moves.
#![tactic(auto)]

use film_app::serve::start;
use std::process::ExitCode;

fn main(rt: HostRuntime) -> ExitCode {
    let status = start(rt.alloc(), &rt, &mut rt.stdin(), &mut rt.stdout());
    ExitCode::from(status)
}
