//! Runs by six workers with a gate: which turns each machine takes, and for which it asks.
ghost use Rattle.std.specs.Prelude.{IfOk, pos, ◌≤◌, ◌<ℤ◌, ◌≤ℤ◌};
ghost use Rattle.cell_sensors.specs.Line.{IsReading};
ghost use Rattle.cell_parts.specs.Axes.{IsAxisScale, arm_end, rotation_end, turn_end};
ghost use Rattle.cell_rules.specs.Start.{IsStartState};

use super::gates::{Doorkeeper, Waits};
use cell_notes::{RunRecord, Status};
use cell_plant::{Cell, Turn, simulate};
use cell_rules::State;
use cell_sensors::{Calibration, Gauge, Points, PointsFault, position_on_line};
use cell_types::{Answer, Entry, Machine};
use cell_workers::run_cell;
use std::alloc::Global;
use std::sync::Wait;
use std::sync::atomic::{AtomicU64, Ordering};
use std::thread::Threads;

// Raw values from 0 to 4000 over an axis.
fn points_of(end: i32) -> Result<Points, PointsFault>
    requires some { pos 0 <ℤ end }
    requires few { end ≤ℤ pos 4000 }
    ensures { IfOk result (IsAxisScale end) }
{
    Points::new(0, 4000, 0, end, 5)
}

// The points of the five potentiometers.
#[derive(Clone, Copy)]
struct AxisPoints {
    arm: Points,
    rotation: Points,
    turn: Points,
}

const WORKING: [Machine; 6] = [
    Machine::Feed,
    Machine::Table,
    Machine::Robot,
    Machine::Press,
    Machine::Deposit,
    Machine::Crane,
];

fn turn_of(machine: Machine) -> Turn {
    Turn {
        machine,
        busy: false,
    }
}

// A run of a cell with these closures: by six workers with a gate and this number of turns, where a call may lose eight
// exchanges; or without a number a simulation in which each machine has one turn. `None` is a fault.
fn run_by<R, F1, F2, F3, F4, F5>(
    rt: &R,
    alloc: Global,
    start: State,
    gauges: (F1, F2, F3, F4, F5),
    points: AxisPoints,
    turns: Option<u32>,
    gate: &Doorkeeper,
) -> Option<RunRecord>
where
    R: Threads + Wait + Sync,
    F1: Gauge + Send,
    F2: Gauge + Send,
    F3: Gauge + Send,
    F4: Gauge + Send,
    F5: Gauge + Send,
    requires start { IsStartState start }
    requires arm1 { F1.keeps gauges.0 points.arm }
    requires arm2 { F2.keeps gauges.1 points.arm }
    requires rotation { F3.keeps gauges.2 points.rotation }
    requires turn { F4.keeps gauges.3 points.turn }
    requires gripper { F5.keeps gauges.4 points.arm }
    requires arm_axis { IsAxisScale arm_end points.arm }
    requires rotation_axis { IsAxisScale rotation_end points.rotation }
    requires turn_axis { IsAxisScale turn_end points.turn }
{
    let (arm1, arm2, rotation, turn, gripper) = gauges;
    let cell = Cell::new(
        &start,
        Calibration::new(arm1, points.arm),
        Calibration::new(arm2, points.arm),
        Calibration::new(rotation, points.rotation),
        Calibration::new(turn, points.turn),
        Calibration::new(gripper, points.arm),
    );
    match turns {
        Some(turns) => run_cell(rt, alloc, cell, start, 8, turns, gate).ok(),
        None => simulate(alloc, cell, start, &WORKING.map(turn_of)).ok(),
    }
}

// Such a run of a cell without plates from this stamp on, whose closures count their calls.
fn run<R: Threads + Wait + Sync>(
    rt: &R,
    alloc: Global,
    stamp: u32,
    turns: Option<u32>,
    gate: &Doorkeeper,
) -> Option<RunRecord> {
    let Ok(start) = State::start([false; 10], stamp) else {
        return None;
    };
    let Ok(arm) = points_of(1000) else {
        return None;
    };
    let Ok(rotation) = points_of(2000) else {
        return None;
    };
    let Ok(turn) = points_of(500) else {
        return None;
    };
    let calls = &gate.calls;
    let gauges = (
        |raw: u16| line_with_count(&calls[0], arm, raw),
        |raw: u16| line_with_count(&calls[1], arm, raw),
        |raw: u16| line_with_count(&calls[2], rotation, raw),
        |raw: u16| line_with_count(&calls[3], turn, raw),
        |raw: u16| line_with_count(&calls[4], arm, raw),
    );
    let points = AxisPoints {
        arm,
        rotation,
        turn,
    };
    run_by(rt, alloc, start, gauges, points, turns, gate)
}

// The line, and the call is counted.
fn line_with_count(calls: &AtomicU64, points: Points, raw: u16) -> i32
    requires low { points.raw_lo ≤ raw }
    requires high { raw ≤ points.raw_hi }
    ensures { IsReading points raw result }
{
    calls.fetch_add(1, Ordering::SeqCst);
    position_on_line(&points, raw)
}

/// The last stamp.
const LAST_STAMP: u32 = 1_048_575;

/// The greatest number of turns of each worker; how many turns the gate lets each machine begin; and how they wait for
/// each other.
type Row = (u32, [u32; 6], Waits);

const ROWS: &[Row] = &[
    // all machines are let in, and all work at once
    (0, [9; 6], Waits::ForAll(0, 9)),
    (1, [9; 6], Waits::ForAll(0, 9)),
    (6, [9; 6], Waits::ForAll(0, 9)),
    // they meet at turn 1 alone
    (3, [9; 6], Waits::ForAll(1, 2)),
    // the feed belt is shut out of turn 1 alone
    (3, [1, 9, 9, 9, 9, 9], Waits::Nobody),
    // none is let in; each machine is shut out at another turn
    (6, [0; 6], Waits::Nobody),
    (6, [5, 4, 3, 2, 1, 0], Waits::Nobody),
];

// Whether each machine takes exactly the turns that it may begin, and asks for them and the next one, once each; and
// its closures are called once a turn.
fn is_gated<R: Threads + Wait + Sync>(rt: &R, alloc: Global, row: &Row) -> bool {
    let (turns, lets, waits) = *row;
    let mut status = [Status::Fine; 7];
    let mut taken = [0; 6];
    let mut asked = [0; 6];
    for machine in 0..6usize {
        let may_begin = lets[machine];
        if may_begin < turns {
            status[machine] = Status::GateLimit;
        }
        taken[machine] = may_begin.min(turns);
        asked[machine] = may_begin.saturating_add(1).min(turns);
    }
    let gate = Doorkeeper::new(lets, waits);
    let record = run(rt, alloc, 0, Some(turns), &gate);
    has_ended(record, &status, &taken) && gate.was_asked(&asked) && gate.was_called(&taken)
}

// Whether there is a record of a run that has an end, with these statuses, and the six machines have taken these turns
// and the watch none.
fn has_ended(record: Option<RunRecord>, status: &[Status; 7], taken: &[u32; 6]) -> bool {
    match record {
        Some(record) => {
            let mut are_taken = record.counts[6].turns == 0;
            for machine in 0..6usize {
                are_taken = are_taken && record.counts[machine].turns == u64::from(taken[machine]);
            }
            are_taken && record.status == *status && record.end.is_some()
        }
        None => false,
    }
}

#[test]
fn gates_let_machines_in(rt: HostRuntime) {
    for row in ROWS {
        assert!(rt; is_gated(&rt, rt.alloc(), row), "{} turns", row.0);
    }
}

// One machine is shut out at one turn, whichever they are. The others take all their turns.
#[test]
fn one_machine_is_shut_out(rt: HostRuntime) {
    for machine in 0..6usize {
        for turn in 0..6u32 {
            let mut lets = [6; 6];
            lets[machine] = turn;
            let row = (6, lets, Waits::Nobody);
            assert!(rt; is_gated(&rt, rt.alloc(), &row), "{machine} {turn}");
        }
    }
}

// Whether the robot has been shown its zone with the table as its owner, and never otherwise.
fn has_met_the_table(journal: &[Entry]) -> bool {
    let mut has_met = !journal.is_empty();
    for entry in journal {
        has_met = has_met
            && matches!(
                entry.answer,
                Answer::Shown {
                    owner: Some(Machine::Table),
                    ..
                }
            );
    }
    has_met
}

// The table's first two turns, in which it claims its zones, are over when it asks for the third.
#[test]
fn a_turn_is_asked_for_after_the_one_before(rt: HostRuntime) {
    let gate = Doorkeeper::new([9; 6], Waits::InOrder);
    let is_right = match run(&rt, rt.alloc(), 0, Some(3), &gate) {
        Some(record) => has_met_the_table(&record.journals.robot) && gate.was_asked(&[3; 6]),
        None => false,
    };
    assert!(rt; is_right);
}

// If a thread isn't started, each machine whose thread was has had all its turns when the run
// returns. A run with threads for all has an end.
#[test]
fn nothing_is_left_running(rt: HostRuntime) {
    let gate = Doorkeeper::new([9; 6], Waits::Nobody);
    let is_over = match run(&rt, rt.alloc(), 0, Some(3), &gate) {
        Some(record) => record.end.is_some(),
        None => gate.has_let_in_the_first(3),
    };
    assert!(rt; is_over);
}

// With the last stamp the machines that claim first are worn in their first turn, and don't ask
// again.
#[test]
fn worn_machines_ask_no_more(rt: HostRuntime) {
    let gate = Doorkeeper::new([9; 6], Waits::Nobody);
    let record = run(&rt, rt.alloc(), LAST_STAMP, Some(6), &gate);
    let (worn, fine) = (Status::Worn, Status::Fine);
    let status = [worn, worn, fine, worn, worn, fine, fine];
    let taken = [1, 1, 6, 1, 1, 6];
    assert!(rt; has_ended(record, &status, &taken) && gate.was_asked(&taken));
}

// A simulation by closures of its own calls each once in its machine's turn.
#[test]
fn simulates_by_closures(rt: HostRuntime) {
    let gate = Doorkeeper::new([0; 6], Waits::Nobody);
    let record = run(&rt, rt.alloc(), 0, None, &gate);
    assert!(rt; has_ended(record, &[Status::Fine; 7], &[1; 6]) && gate.was_called(&[1; 6]));
}
