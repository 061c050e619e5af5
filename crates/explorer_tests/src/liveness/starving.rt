//! How plates starve: with weak fairness alone, and at a standstill.

use cell_liveness::{Progress, explore_progress};
use cell_rules::State;
use cell_types::Machine;

/// One plate, on the feed belt.
const ONE: [bool; 10] = [
    true, false, false, false, false, false, false, false, false, false,
];

/// Six plates, none in the press's arms.
const SIX: [bool; 10] = [
    true, true, true, false, false, false, false, true, true, true,
];

// The circle of an answer, and whether it starves.
fn cycle_of(answer: &Progress) -> &[Machine] {
    match answer {
        Progress::Starves { cycle, .. } => cycle.as_slice(),
        Progress::Within { .. } | Progress::Unknown(_) => &[],
    }
}

#[test]
fn the_robot_goes_round_without_the_press(rt: HostRuntime) {
    let start = State::start(ONE, 0).expect(&rt, "a start");
    let answer = explore_progress(rt.alloc(), &start, None, None).expect(&rt, "memory");
    assert!(rt; cycle_of(&answer) == [Machine::Robot, Machine::Robot, Machine::Robot].as_slice());
}

#[test]
fn a_standstill_starves(rt: HostRuntime) {
    let start = State::start(SIX, 0).expect(&rt, "a start");
    let answer = explore_progress(rt.alloc(), &start, None, Some(Machine::Press)).expect(
        &rt, "memory",
    );
    assert!(rt; cycle_of(&answer).len() == 1);
}
