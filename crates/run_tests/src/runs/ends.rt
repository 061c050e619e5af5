//! The run in which the feed belt hands a plate to the table, with busy turns and without memory. Another one without
//! memory, in which the watch stops the cell.

use crate::runs::simulated_cells::run;
use cell_plant::{RunRecord, Status, Turn};
use cell_types::{Machine, Place};

// A plate is at the feed belt's end.
const START: &str = "start = \"0100000000\"";

const EMPTY: &str = "start = \"0000000000\"";

fn turn_of(machine: Machine) -> Turn {
    Turn {
        machine,
        busy: false,
    }
}

// Six turns of the table, eleven of the feed belt, and one more of the table.
fn first_turns() -> [Turn; 18] {
    let mut turns = [turn_of(Machine::Feed); 18];
    turns[..6].fill(turn_of(Machine::Table));
    turns[17] = turn_of(Machine::Table);
    turns
}

// Whether there is a record, and no machine was stopped.
fn stops_nobody(record: Option<RunRecord>) -> bool {
    match record {
        Some(record) => record.status == [Status::Fine; 7],
        None => false,
    }
}

// One turn of the feed belt after another is busy: no machine stops.
#[test]
fn busy_turns_stop_nobody(rt: HostRuntime) {
    for busy in 6..17usize {
        let mut turns = first_turns();
        turns[busy].busy = true;
        assert!(rt; stops_nobody(run(rt.alloc(), START, &turns)), "{busy}");
    }
}

// Two turns of each machine. The watch stops the cell, and soon resumes.
const TWICE: [Machine; 14] = [
    Machine::Feed,
    Machine::Table,
    Machine::Robot,
    Machine::Press,
    Machine::Deposit,
    Machine::Crane,
    Machine::Watch,
    Machine::Watch,
    Machine::Feed,
    Machine::Table,
    Machine::Robot,
    Machine::Press,
    Machine::Deposit,
    Machine::Crane,
];

// The done calls and the inquiries of each machine in two turns.
const ASKED: [(u64, u64); 7] = [(2, 0), (2, 0), (0, 1), (2, 0), (2, 0), (0, 0), (2, 0)];

// Whether each machine that is fine has asked all that it should, and each other machine stopped
// for memory. If the watch had no memory to resume, the others may be refused.
fn lacks_but_memory(record: &RunRecord) -> bool {
    let stays_stopped = match record.end {
        Some(end) => end.stopped(),
        None => false,
    };
    for machine in 0..7usize {
        let counts = record.counts[machine];
        let refused = if stays_stopped { counts.refused } else { 0 };
        let answered = counts.done.saturating_add(refused);
        let wanted = if (answered, counts.read) == ASKED[machine] {
            Status::Fine
        } else {
            Status::Memory
        };
        if record.status[machine] != wanted {
            return false;
        }
    }
    true
}

// Whether no machine stopped but for memory; without one, the plate is on the table.
fn ends_or_lacks(record: &RunRecord) -> bool {
    let is_over = match record.end {
        Some(end) => end.is_full(Place::Table) && end.stamp() == 11,
        None => false,
    };
    let mut lacks = false;
    let mut is_right = true;
    for machine in 0..7usize {
        let status = record.status[machine];
        lacks = lacks || status == Status::Memory;
        is_right = is_right && (status == Status::Fine || status == Status::Memory);
    }
    is_right && (lacks || is_over)
}

// Whichever allocation fails, each run has a record, or the fault says why not.
#[test]
fn a_run_without_memory(rt: HostRuntime) {
    let is_first_right = match run(rt.alloc(), START, &first_turns()) {
        Some(record) => ends_or_lacks(&record),
        None => true,
    };
    let is_other_right = match run(rt.alloc(), EMPTY, &TWICE.map(turn_of)) {
        Some(record) => lacks_but_memory(&record),
        None => true,
    };
    assert!(rt; is_first_right && is_other_right);
}
