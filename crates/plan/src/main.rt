//! The program for plans of any plant.
#![tactic(auto)]

use plan_app::serve::start;
use std::process::ExitCode;

fn main(rt: HostRuntime) -> ExitCode {
    let status = start(&rt, rt.alloc(), &rt, &mut rt.stdin(), &mut rt.stdout());
    ExitCode::from(status)
}
