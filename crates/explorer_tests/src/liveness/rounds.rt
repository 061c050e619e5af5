//! Within how many rounds a plate moves.

use cell_explorer::take_turns;
use cell_liveness::moving::plates_differ;
use cell_rounds::{Rounds, explore_round};
use cell_rules::State;
use cell_types::Machine;

/// One plate, on the feed belt.
const ONE: [bool; 10] = [
    true, false, false, false, false, false, false, false, false, false,
];

/// Four plates: on the feed belt, on the table, in the press and on the deposit belt.
const FOUR: [bool; 10] = [
    true, false, true, false, true, false, false, true, false, false,
];

/// Six plates, none in the press or on the robot.
const SIX: [bool; 10] = [
    true, true, true, false, false, false, false, true, true, true,
];

/// An order along the way of a plate.
const ALONG: [Machine; 6] = [
    Machine::Feed,
    Machine::Table,
    Machine::Robot,
    Machine::Press,
    Machine::Deposit,
    Machine::Crane,
];

/// The other way round.
const AGAINST: [Machine; 6] = [
    Machine::Crane,
    Machine::Deposit,
    Machine::Press,
    Machine::Robot,
    Machine::Table,
    Machine::Feed,
];

/// All turns are the robot's.
const ROBOT: [Machine; 6] = [Machine::Robot; 6];

// What rounds in an order are answered from a start.
fn rounds_of(rt: HostRuntime, plates: [bool; 10], order: [Machine; 6]) -> Option<Rounds> {
    let start = State::start(plates, 0).ok()?;
    explore_round(rt.alloc(), &start, order).ok()
}

// The state after a walk.
fn state_after(rt: HostRuntime, start: &State, way: &[Machine]) -> Option<State> {
    match take_turns(rt.alloc(), start, way) {
        Ok(walk) => Some(walk.end.state),
        Err(_) => None,
    }
}

// The most turns of rounds from a start, one after another, in which no plate moves: by a walk of 240 turns.
fn longest_wait(rt: HostRuntime, plates: [bool; 10], order: [Machine; 6]) -> Option<usize> {
    let start = State::start(plates, 0).ok()?;
    let mut turns = [Machine::Watch; 240];
    let mut before = start;
    let mut wait: usize = 0;
    let mut longest = 0;
    for turn in 0..240usize {
        turns[turn] = order[turn % 6];
        let after = state_after(rt, &start, &turns[..=turn])?;
        wait = if plates_differ(&before, &after) {
            0
        } else {
            wait.saturating_add(1)
        };
        longest = longest.max(wait);
        before = after;
    }
    Some(longest)
}

#[test]
fn one_plate_moves_again_and_again(rt: HostRuntime) {
    let found = rounds_of(rt, ONE, ALONG);
    assert!(rt; found == Some(Rounds::Within(8)));
    let back = rounds_of(rt, ONE, AGAINST);
    assert!(rt; back == Some(Rounds::Within(8)));
}

#[test]
fn four_plates_move_again_and_again(rt: HostRuntime) {
    let found = rounds_of(rt, FOUR, ALONG);
    assert!(rt; found == Some(Rounds::Within(9)));
    let back = rounds_of(rt, FOUR, AGAINST);
    assert!(rt; back == Some(Rounds::Within(8)));
}

// In 47 turns no plate moves, and in one more one does: so within 8 rounds, and no fewer.
#[test]
fn a_walk_waits_as_long(rt: HostRuntime) {
    let one = longest_wait(rt, ONE, ALONG);
    assert!(rt; one == Some(47));
}

#[test]
fn at_a_standstill_rounds_starve(rt: HostRuntime) {
    let found = rounds_of(rt, SIX, ALONG);
    assert!(rt; matches!(found, Some(Rounds::Starves { cycle: 1, .. })));
}

#[test]
fn rounds_of_the_robot_alone_starve(rt: HostRuntime) {
    let found = rounds_of(rt, ONE, ROBOT);
    assert!(rt; found == Some(Rounds::Starves { stem: 1, cycle: 1 }));
}

// Which places are full, by the bits of a number.
fn places_of(number: u32) -> [bool; 10] {
    [
        number & 1 != 0,
        number & 2 != 0,
        number & 4 != 0,
        number & 8 != 0,
        number & 16 != 0,
        number & 32 != 0,
        number & 64 != 0,
        number & 128 != 0,
        number & 256 != 0,
        number & 512 != 0,
    ]
}

// How many starts have one to four plates, and within how many rounds a plate moves from each; `None` if from one
// plates don't go on.
fn every_start(rt: HostRuntime, order: [Machine; 6]) -> Option<(usize, usize)> {
    let mut starts: usize = 0;
    let mut most = 0;
    for number in 1..1024u32 {
        if number.count_ones() > 4 {
            continue;
        }
        let Ok(start) = State::start(places_of(number), 0) else {
            continue;
        };
        starts = starts.saturating_add(1);
        match explore_round(rt.alloc(), &start, order) {
            Ok(Rounds::Within(rounds)) => most = most.max(rounds),
            _ => return None,
        }
    }
    Some((starts, most))
}

#[test]
fn plates_move_from_each_start_with_one_to_four(rt: HostRuntime) {
    let along = every_start(rt, ALONG);
    assert!(rt; along == Some((348, 11)));
    let against = every_start(rt, AGAINST);
    assert!(rt; against == Some((348, 10)));
}
