//! Long runs: plates that go round through all six machines, and a cell that comes to a standstill.
//! The numbers come from another program, which was written from the tables of the cell alone.

use crate::runs::simulated_cells::{full_places, places_of, run};
use cell_plant::{RunRecord, Status, Turn};
use cell_types::Machine;
use std::alloc::{AllocError, Global};

const WORKING: [Machine; 6] = [
    Machine::Feed,
    Machine::Table,
    Machine::Robot,
    Machine::Press,
    Machine::Deposit,
    Machine::Crane,
];

// The turn with this number, if the machines take theirs one after another.
fn turn_at(number: usize) -> Turn {
    Turn {
        machine: WORKING[number % 6],
        busy: false,
    }
}

/// This number of turns, one machine after another.
pub fn in_turn(alloc: Global, count: usize) -> Result<Vec<Turn>, AllocError> {
    let mut turns = Vec::new(alloc);
    for number in 0..count {
        turns.push(turn_at(number))?;
    }
    Ok(turns)
}

// This number of turns of machines in a random order; one in eight finds the interlock busy.
fn by_chance(alloc: Global, seed: u32, count: usize) -> Result<Vec<Turn>, AllocError> {
    let mut turns = Vec::new(alloc);
    let mut number = seed;
    for _ in 0..count {
        number = number.wrapping_mul(1_664_525).wrapping_add(1_013_904_223);
        let drawn = number >> 16;
        turns.push(Turn {
            machine: WORKING[(drawn % 6) as usize],
            busy: drawn / 6 % 8 == 0,
        })?;
    }
    Ok(turns)
}

const WATCH: Turn = Turn {
    machine: Machine::Watch,
    busy: false,
};

// Adds these turns, with those of the watch between them: it stops the cell after every 97th turn, and resumes after a
// number of further ones.
fn push_with_stops(all: &mut Vec<Turn>, turns: &[Turn], pause: usize) -> Result<(), AllocError> {
    let mut is_stopped = false;
    for (number, turn) in turns.iter().enumerate() {
        all.push(*turn)?;
        let since = (number % 97 + 1) % 97;
        if since == 0 {
            all.push(WATCH)?;
            is_stopped = true;
        }
        if is_stopped && since == pause {
            all.push(WATCH)?;
            is_stopped = false;
        }
    }
    if is_stopped {
        all.push(WATCH)?;
    }
    Ok(())
}

// These turns, with those of the watch between them.
fn with_stops(alloc: Global, turns: &[Turn], pause: usize) -> Result<Vec<Turn>, AllocError> {
    let mut all = Vec::new(alloc);
    match push_with_stops(&mut all, turns, pause) {
        Ok(()) => Ok(all),
        Err(error) => Err(error),
    }
}

// The order of the turns: one machine after another; or a random one, by a seed.
#[derive(Clone, Copy)]
enum Order {
    InTurn,
    OfSix(u32),
}

// A run and its end.
struct Round {
    start: &'static str,
    order: Order,
    count: usize,
    // how many turns each stop of the watch lasts, if it stops the cell after every 97th turn
    pause: Option<usize>,
    places: &'static [u8; 10],
    stamp: u32,
    // the number of each machine's done calls
    done: Option<[u64; 7]>,
    axes: Option<[i32; 8]>,
}

const ROUNDS: &[Round] = &[
    // a plate goes once round and is back where it began
    Round {
        start: "start = \"1000000000\"",
        order: Order::InTurn,
        count: 5257,
        pause: None,
        places: b"1000000000",
        stamp: 62,
        done: Some([10, 13, 8, 15, 12, 4, 0]),
        axes: Some([500, 20, 20, 320, 0, 0, 2000, 860]),
    },
    // four plates go round and round
    Round {
        start: "start = \"1010100001\"",
        order: Order::InTurn,
        count: 20_000,
        pause: None,
        places: b"1011000000",
        stamp: 292,
        done: Some([56, 52, 47, 66, 49, 22, 0]),
        axes: None,
    },
    Round {
        start: "start = \"1010100001\"",
        order: Order::OfSix(5),
        count: 20_000,
        pause: None,
        places: b"0011000011",
        stamp: 283,
        done: Some([52, 51, 46, 66, 48, 20, 0]),
        axes: None,
    },
    // with six plates the cell comes to a standstill: later turns change nothing, and no machine
    // stops
    Round {
        start: "start = \"1011010101\"",
        order: Order::InTurn,
        count: 6000,
        pause: None,
        places: b"0111001011",
        stamp: 22,
        done: Some([3, 4, 2, 8, 5, 0, 0]),
        axes: None,
    },
    // four plates go round while the watch stops the cell again and again; it resumes at once or later
    Round {
        start: "start = \"1010100001\"",
        order: Order::InTurn,
        count: 20_000,
        pause: Some(0),
        places: b"1011000000",
        stamp: 704,
        done: Some([56, 52, 47, 66, 49, 22, 412]),
        axes: None,
    },
    Round {
        start: "start = \"1010100001\"",
        order: Order::OfSix(5),
        count: 20_000,
        pause: Some(48),
        places: b"0101000011",
        stamp: 685,
        done: Some([48, 45, 46, 66, 48, 20, 412]),
        axes: None,
    },
];

// The turns of a round, but for those of the watch.
fn turns_of_six(alloc: Global, round: &Round) -> Result<Vec<Turn>, AllocError> {
    match round.order {
        Order::InTurn => in_turn(alloc, round.count),
        Order::OfSix(seed) => by_chance(alloc, seed, round.count),
    }
}

// Whether a round with these turns, and those of the watch, ends as it should.
fn goes_by(alloc: Global, round: &Round, turns: &[Turn]) -> bool {
    match round.pause {
        Some(pause) => match with_stops(alloc, turns, pause) {
            Ok(all) => ends_so(round, run(alloc, round.start, all.as_slice())),
            Err(_) => false,
        },
        None => ends_so(round, run(alloc, round.start, turns)),
    }
}

// Whether no machine is stopped for good in a round's run, and it ends so.
fn goes_round(alloc: Global, round: &Round) -> bool {
    match turns_of_six(alloc, round) {
        Ok(turns) => goes_by(alloc, round, turns.as_slice()),
        Err(_) => false,
    }
}

// Whether there is a record, no machine was stopped in its run, and it ended as its round says.
fn ends_so(round: &Round, record: Option<RunRecord>) -> bool {
    match record {
        Some(record) => record.status == [Status::Fine; 7] && has_end(round, &record),
        None => false,
    }
}

fn has_end(round: &Round, record: &RunRecord) -> bool {
    let Some(end) = record.end else {
        return false;
    };
    let done = record.counts.map(|counts| counts.done);
    end.stamp() == round.stamp
        && full_places(&end) == places_of(round.places)
        && round.done.unwrap_or(done) == done
        && round.axes.unwrap_or(record.axes) == record.axes
}

// No machine is stopped for good.
#[test]
fn rounds_end_so(rt: HostRuntime) {
    for round in ROUNDS {
        assert!(rt; goes_round(rt.alloc(), round), "{}", round.stamp);
    }
}
