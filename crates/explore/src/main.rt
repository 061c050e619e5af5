//! The program that explores every schedule from a start.
#![tactic(auto)]

use explore_app::serve::start;
use std::process::ExitCode;

fn main(rt: HostRuntime) -> ExitCode {
    let status = start(
        &rt,
        &rt,
        rt.alloc(),
        &rt,
        &mut rt.stdin(),
        &mut rt.stdout(),
        &mut rt.stderr(),
    );
    ExitCode::from(status)
}
