//! Explorations and walks of some size. What they answer, the clauses of `cell_explorer` say; the rows of `served` have
//! the numbers of turns and situations.

use cell_explorer::{Explored, explore_start, take_turns};
use cell_rules::State;
use cell_types::Machine;
use std::alloc::{AllocError, Global};

/// The one plate is at the feed belt's entry.
const ONE_PLATE: [bool; 10] = [
    true, false, false, false, false, false, false, false, false, false,
];

/// Starts with two, three, four and five plates.
const MORE_PLATES: [[bool; 10]; 4] = [
    [
        true, true, false, false, false, false, false, false, false, false,
    ],
    [
        true, true, true, false, false, false, false, false, false, false,
    ],
    [
        true, true, true, true, false, false, false, false, false, false,
    ],
    [
        true, true, true, true, true, false, false, false, false, false,
    ],
];

/// Whether a search from a start with these plates finds its memory, and no refusal.
fn is_explored(alloc: Global, places: [bool; 10]) -> bool {
    match State::start(places, 0) {
        Ok(start) => is_unrefused(alloc, &start),
        Err(_) => false,
    }
}

fn is_unrefused(alloc: Global, start: &State) -> bool {
    match explore_start(alloc, start) {
        Ok(Explored::Refusal(_)) | Err(_) => false,
        Ok(_) => true,
    }
}

// A search finds its memory with each number of plates that a start has.
#[test]
fn explores_starts_with_more_plates(rt: HostRuntime) {
    for number in 0..4usize {
        assert!(rt; is_explored(rt.alloc(), MORE_PLATES[number]), "{number}");
    }
}

/// Adds this number of rounds of all machines.
fn push_rounds(way: &mut Vec<Machine>, count: usize) -> Result<(), AllocError> {
    for _ in 0..count {
        way.extend_from_slice(&Machine::ALL)?;
    }
    Ok(())
}

/// Whether someone still asks in the last one of 500 rounds.
fn is_asking(alloc: Global, start: &State, way: &[Machine]) -> bool {
    match take_turns(alloc, start, way) {
        Ok(walk) => walk.asks.len() == 3_500 && walk.asks.as_slice()[3_493..].contains(&true),
        Err(_) => false,
    }
}

// Rounds of all machines, many times over.
#[test]
fn takes_many_turns(rt: HostRuntime) {
    let start = State::start(ONE_PLATE, 0).expect(&rt, "a start");
    let mut way = Vec::new(rt.alloc());
    let is_made = push_rounds(&mut way, 500).is_ok();
    assert!(rt; is_made && is_asking(rt.alloc(), &start, way.as_slice()));
}
