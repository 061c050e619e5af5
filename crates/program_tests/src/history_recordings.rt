//! Runs at one pace, in which plates get round. That a replay answers their scripts as the threads were answered is the
//! law `recordings_are_answered` of `history_app`.

use cell_app::serve_run::run_configured;
use cell_config::read_config;
use cell_notes::Status;
use cell_threads::PacedGate;
use cell_types::{Answer, Call, Journals, Zone};
use history_app::history::write_history;
use program_shell::Exit;
use std::alloc::Global;
use std::sync::Wait;
use std::thread::Threads;

/// A configuration, the most turns of each machine, and how often the crane gives at least.
type Row = (&'static str, u32, usize);

// Without plates; a plate that gets round, and four that do.
const ROWS: &[Row] = &[
    ("start = \"0000000000\"", 20, 0),
    ("start = \"1000000000\"", 2500, 2),
    ("start = \"1010100001\"", 2000, 3),
];

// How many plates the crane has given to the feed belt.
fn rounds(journals: &Journals) -> usize {
    let mut count = 0usize;
    for entry in journals.crane.as_slice() {
        if (entry.call, entry.answer) == (Call::Give(Zone::Z6), Answer::Done) {
            count = count.saturating_add(1);
        }
    }
    count
}

// Whether the machines of a run at one pace are fine, plates got round, and its script is written.
fn gets_round<T: Threads + Wait + Sync>(rt: &T, alloc: Global, row: &Row) -> bool {
    let (text, turns, least) = *row;
    let gate = PacedGate::new(rt);
    let Ok(config) = read_config(alloc, &mut text.as_bytes()) else {
        return false;
    };
    match run_configured(rt, alloc, &config, turns, 8, &gate) {
        Ok(run) => {
            let mut script = Vec::new(alloc);
            run.status == [Status::Fine; 7]
                && rounds(&run.journals) >= least
                && write_history(alloc, &run, &mut script) == Exit::Well
        }
        Err(_) => false,
    }
}

#[test]
fn plates_get_round(rt: HostRuntime) {
    for row in ROWS {
        assert!(rt; gets_round(&rt, rt.alloc(), row), "{} turns", row.1);
    }
}
