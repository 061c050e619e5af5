//! The program that says why `cell` refuses an input.
#![tactic(auto)]

use explain_app::serve::{FAILED, start};
use std::process::ExitCode;

fn main(rt: HostRuntime) -> ExitCode {
    let status = start(rt.alloc(), &rt, &mut rt.stdin(), &mut rt.stdout());
    if status == FAILED {
        let _ = eprintln!(rt; "explain: reading or writing failed, or memory ran out");
    }
    ExitCode::from(status)
}
