//! A run that is cut at each turn, and goes on from its 14 bytes, comes to the same end as one that is simulated. The
//! press goes on over an interlock as it does over a bench.

use crate::resume::machines::go_on;
use crate::resume::plant::Plant;
use crate::resume::wired::press_goes_on;
use crate::runs::rounds::in_turn;
use crate::runs::simulated_cells::run;
use cell_resume::{CheckpointBytes, resume_at};
use cell_rules::State;
use std::alloc::Global;

// A plate is at the feed belt's entry, each machine at the first step of its program. In these turns
// the plate gets round once.
const START: CheckpointBytes = [0, 0, 0, 0x40, 0, 0, 0, 0, 0, 0, 0, 0, 0, 0];

const CONFIG: &str = "start = \"1000000000\"";

const TURNS: usize = 6_000;

// A plate's first round takes this many changes.
const CHANGES: u32 = 59;

// The state at the end, if the power is cut after each turn.
fn end_of_cut_run(alloc: Global, plant: &mut Plant) -> Option<State> {
    let mut bytes = START;
    for turn in 0..TURNS {
        bytes = go_on(alloc, bytes, plant, turn % 6)?;
    }
    match resume_at(bytes) {
        Ok(cell) => Some(cell.state()),
        Err(_) => None,
    }
}

// Whether a simulation ends in this state, and with the axes where they are in this plant.
fn ends_alike(alloc: Global, state: State, plant: &Plant) -> bool {
    match in_turn(alloc, TURNS) {
        Ok(turns) => match run(alloc, CONFIG, turns.as_slice()) {
            Some(record) => record.end == Some(state) && record.axes == plant.axes(),
            None => false,
        },
        Err(_) => false,
    }
}

#[test]
fn a_run_cut_at_any_turn_ends_alike(rt: HostRuntime) {
    let mut plant = Plant::new();
    let is_alike = match end_of_cut_run(rt.alloc(), &mut plant) {
        Some(state) => state.stamp() >= CHANGES && ends_alike(rt.alloc(), state, &plant),
        None => false,
    };
    assert!(rt; is_alike);
}

// What is stored after 35 turns of the press, if the power is cut after each. It claims its interior, drives to its
// middle, releases it, and is refused a plate.
fn stored_over_benches(alloc: Global) -> Option<CheckpointBytes> {
    let mut plant = Plant::new();
    let mut bytes = START;
    for _ in 0..35u32 {
        bytes = go_on(alloc, bytes, &mut plant, 3)?;
    }
    Some(bytes)
}

// The same of a press that is wired to an interlock, if the power is cut after each fifth turn.
fn stored_over_interlocks(alloc: Global) -> Option<CheckpointBytes> {
    let mut plant = Plant::new();
    let mut bytes = START;
    for _ in 0..7u32 {
        bytes = press_goes_on(alloc, bytes, &mut plant, 5)?;
    }
    Some(bytes)
}

#[test]
fn a_wired_press_goes_on_alike(rt: HostRuntime) {
    let is_alike = match (
        stored_over_benches(rt.alloc()),
        stored_over_interlocks(rt.alloc()),
    ) {
        (Some(stored), Some(other)) => stored == other && stored != START,
        _ => false,
    };
    assert!(rt; is_alike);
}
