//! Runs of six workers, and what their records say: of the machines, and of the interlock's end.

use crate::runs::worker_cells::work;
use cell_notes::{Counts, RunRecord, Status};
use cell_report::audit;
use cell_rules::{State, apply};
use cell_types::{Event, Machine, Posture, Zone};
use std::alloc::Global;

const EMPTY: &str = "start = \"0000000000\"";

// Plates at FeedEntry, Table, PressIn and Crane.
const FOUR: &str = "start = \"1010100001\"";

// A machine's calls in three turns: the number of done calls, and of inquiries.
fn three_turns(done: u64, read: u64) -> Counts {
    Counts {
        turns: 3,
        done,
        read,
        refused: 0,
        busy: 0,
    }
}

// Each machine's calls in its first three turns, from a start without plates. No machines meet in
// them, so they are the same in whichever order the workers go on.
fn first_steps() -> [Counts; 7] {
    [
        three_turns(3, 0),
        three_turns(3, 0),
        three_turns(0, 2),
        three_turns(2, 0),
        three_turns(3, 0),
        three_turns(0, 1),
        Counts::none(),
    ]
}

// The zones after these steps: owners and postures.
const ZONES_THEN: [(Zone, Option<Machine>, Posture); 6] = [
    (Zone::Z1, Some(Machine::Table), Posture::Moving),
    (Zone::Z2, Some(Machine::Table), Posture::Moving),
    (Zone::Z3, Some(Machine::Press), Posture::Moving),
    (Zone::Z4, Some(Machine::Deposit), Posture::OpenIn),
    (Zone::Z5, Some(Machine::Deposit), Posture::Closed),
    (Zone::Z6, None, Posture::OpenIn),
];

fn ends_so(end: &State) -> bool {
    for number in 0..6usize {
        let (zone, owner, posture) = ZONES_THEN[number];
        if (end.owner(zone), end.posture(zone)) != (owner, posture) {
            return false;
        }
    }
    (end.stamp(), end.plates(), end.stopped()) == (11, 0, false)
}

fn is_first_steps(record: &RunRecord) -> bool {
    record.counts == first_steps()
        && record.status == [Status::Fine; 7]
        && record.axes == [980, 0, 0, 300, 0, 0, 0, 900]
        && record.end.is_some_and(|end| ends_so(&end))
}

// Whether there is a record, and it is that of the first steps.
fn takes_first_steps(record: Option<RunRecord>) -> bool {
    match record {
        Some(record) => is_first_steps(&record),
        None => false,
    }
}

#[test]
fn first_steps_are_always_the_same(rt: HostRuntime) {
    for round in 0..100u32 {
        let record = work(&rt, rt.alloc(), EMPTY, 64, 3);
        assert!(rt; takes_first_steps(record), "{round}");
    }
}

// The state that events lead to.
fn state_after(start: State, events: &[Event]) -> State {
    let mut state = start;
    for event in events {
        apply(&mut state, event.machine, event.call);
    }
    state
}

// Whether an audit finds a history from the start to the end, with the journals, and its events lead
// to that end.
fn is_audited(alloc: Global, record: &RunRecord) -> bool {
    match audit(alloc, &record.journals, &record.start, record.end.as_ref()) {
        Ok(events) => record.end == Some(state_after(record.start, events.as_slice())),
        Err(_) => false,
    }
}

// Whether each machine has had this number of turns, and none has stopped.
fn have_turns(record: &RunRecord, turns: u64) -> bool {
    for machine in 0..6usize {
        if record.counts[machine].turns != turns {
            return false;
        }
    }
    record.status == [Status::Fine; 7]
}

// Whether there is a record, no machine has stopped, and the number of plates stays the same.
fn keeps_plates(alloc: Global, record: Option<RunRecord>) -> bool {
    match record {
        Some(record) => {
            have_turns(&record, 20_000)
                && record.end.is_some_and(|end| end.plates() == 4)
                && is_audited(alloc, &record)
        }
        None => false,
    }
}

#[test]
fn long_runs_keep_their_plates(rt: HostRuntime) {
    let by_one = work(&rt, rt.alloc(), FOUR, 1, 20_000);
    assert!(rt; keeps_plates(rt.alloc(), by_one));
    let by_eight = work(&rt, rt.alloc(), FOUR, 8, 20_000);
    assert!(rt; keeps_plates(rt.alloc(), by_eight));
}

// Whether each machine has asked all that it should and is fine, or was stopped for memory.
fn lacks_but_memory(record: &RunRecord) -> bool {
    let wanted = first_steps();
    for machine in 0..7usize {
        let (found, all) = (record.counts[machine], wanted[machine]);
        let ends = if (found.done, found.read) == (all.done, all.read) {
            Status::Fine
        } else {
            Status::Memory
        };
        if record.status[machine] != ends {
            return false;
        }
    }
    true
}

// Whichever allocation fails, the record shows which machines it stopped, or there is none.
#[test]
fn workers_without_memory(rt: HostRuntime) {
    let is_right = match work(&rt, rt.alloc(), EMPTY, 64, 3) {
        Some(record) => lacks_but_memory(&record),
        None => true,
    };
    assert!(rt; is_right);
}
