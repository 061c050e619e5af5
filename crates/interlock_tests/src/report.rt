//! Tests of replays, audits and reports, a file for each subject, and what several of them use.

use cell_replay::{Outcome, replay};
use cell_rules::State;
use std::alloc::Global;
use std::process::Abort;

mod audits;
mod doubles;
mod faults;
mod forms;
mod limits;
mod line_by_line;
mod reports;
mod scripts;

/// Whether the replay of a script writes this text and has this outcome.
fn is_answered(alloc: Global, script: &[u8], text: &str, outcome: Outcome) -> bool {
    let mut written = Vec::new(alloc);
    let got = replay(alloc, &mut &*script, &mut written);
    got == Ok(outcome) && written.as_slice() == text.as_bytes()
}

/// How many lines a text has.
fn count_lines(text: &[u8]) -> usize {
    text.iter().filter(|byte| **byte == b'\n').count()
}

/// The start with these places and this stamp.
fn start_at(rt: &impl Abort, places: [bool; 10], stamp: u32) -> State {
    State::start(places, stamp).expect(rt, "a start")
}

/// No place is full.
const EMPTY: [bool; 10] = [false; 10];
