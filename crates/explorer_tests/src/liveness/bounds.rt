//! Bounds of a start with one plate.

use cell_liveness::{Plates, Progress, explore_machines};
use cell_rules::State;
use cell_types::Machine;
use std::alloc::Global;

/// One plate, on the feed belt.
const ONE: [bool; 10] = [
    true, false, false, false, false, false, false, false, false, false,
];

/// Four plates: on the feed belt, on the table, in the press and on the deposit belt.
const FOUR: [bool; 10] = [
    true, false, true, false, true, false, false, true, false, false,
];

// The bound that an answer tells.
fn bound_of(answer: &Progress) -> Option<(usize, usize)> {
    match answer {
        Progress::Within { plain, helped } => Some((*plain, *helped)),
        Progress::Starves { .. } | Progress::Unknown(_) => None,
    }
}

// The bounds of all seven answers.
fn bounds_of(plates: &Plates) -> [Option<(usize, usize)>; 7] {
    [
        bound_of(&plates.any),
        bound_of(&plates.feed),
        bound_of(&plates.table),
        bound_of(&plates.robot),
        bound_of(&plates.press),
        bound_of(&plates.deposit),
        bound_of(&plates.crane),
    ]
}

// The bounds from a start with these plates, if the press gets a strong turn.
fn bounds_from(alloc: Global, places: [bool; 10]) -> Option<[Option<(usize, usize)>; 7]> {
    let start = State::start(places, 0).ok()?;
    match explore_machines(alloc, &start, Some(Machine::Press)) {
        Ok(plates) => Some(bounds_of(&plates)),
        Err(_) => None,
    }
}

#[test]
fn each_machine_moves_plates_if_the_press_gets_a_strong_turn(rt: HostRuntime) {
    let wanted = [
        Some((26, 2)),
        Some((90, 2)),
        Some((96, 2)),
        Some((60, 2)),
        Some((92, 2)),
        Some((95, 2)),
        Some((92, 2)),
    ];
    assert!(rt; bounds_from(rt.alloc(), ONE) == Some(wanted));
}

// From more plates each machine has a bound too.
#[test]
fn each_machine_moves_four_plates(rt: HostRuntime) {
    let bounds = bounds_from(rt.alloc(), FOUR).unwrap_or([None; 7]);
    for number in 0..7usize {
        assert!(rt; bounds[number].is_some(), "{number}");
    }
}
