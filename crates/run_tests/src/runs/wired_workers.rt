//! Runs of six workers with devices of their own, and a gate that counts. In some the press's switches clash, or don't
//! answer; in others the gate refuses machines.
ghost use Rattle.std.specs.Prelude.{◌≡◌};
ghost use Rattle.cell_rules.specs.Start.{IsStartState};
ghost use Rattle.cell_threads.specs.Six.{AreReadyAt};

use super::gates::CountingGate;
use cell_belts_crane::{CraneProgram, DepositProgram, FeedProgram};
use cell_control::{Commands, CtlFault, Program};
use cell_devices::{CraneAct, DepositAct, FeedAct, Motor, PressAct, RobotAct, TableAct};
use cell_notes::Status;
use cell_renewal::{Devices, WiredOutput, WiredWorker};
use cell_robot::RobotProgram;
use cell_rules::State;
use cell_sensors::{
    Calibration, CraneSense, DepositSense, FeedSense, Gauge, Points, PressSense, RobotSense,
    SensorFault, TableSense, position_on_line,
};
use cell_table_press::{PressProgram, TableProgram};
use cell_threads::{RunFault, SixOf, SixRecord, Worker, run_workers};
use std::alloc::Global;
use std::process::Abort;
use std::sync::Wait;
use std::thread::Threads;

/// Devices that show one sense for some reads, and something else or nothing from then on. They count
/// their calls and keep the last command.
#[derive(Drop)]
struct Recorder<S, A> {
    shows: S,
    // How many reads more show it.
    left: u32,
    then: Option<S>,
    reads: u32,
    sets: u32,
    last: Option<Commands<A>>,
}

impl<S: Copy, A: Copy> Devices for Recorder<S, A> {
    ghost use Rattle.std.specs.Prelude.{◌≡◌, ◌⊎◌, Some};

    type Sense = S;

    type Act = A;

    ghost shows = { λ devices sense _. (sense ≡ Some devices.shows) ⊎ (sense ≡ devices.then) };

    ghost sets = { λ _ told now. now.last ≡ Some told };

    fn read(&mut self) -> Option<S> {
        self.reads = self.reads.saturating_add(1);
        if self.left == 0 {
            return self.then;
        }
        self.left -= 1;
        Some(self.shows)
    }

    fn set(&mut self, told: &Commands<A>) {
        self.sets = self.sets.saturating_add(1);
        self.last = Some(*told);
    }
}

impl<S, A> Recorder<S, A> {
    fn new(shows: S, left: u32, then: Option<S>) -> Recorder<S, A> {
        Recorder {
            shows,
            left,
            then,
            reads: 0,
            sets: 0,
            last: None,
        }
    }
}

// A machine at the start of its program, whose sensors show the same in each turn.
fn still<P: Program>(
    program: P,
    opening: State,
    sense: P::Sense,
) -> WiredWorker<P, Recorder<P::Sense, P::Act>>
    ensures program { result.program ≡ program }
    ensures opening { result.opening ≡ opening }
{
    WiredWorker {
        program,
        opening,
        devices: Recorder::new(sense, 0, Some(sense)),
    }
}

/// What is left of the six machines.
type SixOutputs = SixRecord<
    WiredOutput<Recorder<FeedSense, FeedAct>>,
    WiredOutput<Recorder<TableSense, TableAct>>,
    WiredOutput<Recorder<RobotSense, RobotAct>>,
    WiredOutput<Recorder<PressSense, PressAct>>,
    WiredOutput<Recorder<DepositSense, DepositAct>>,
    WiredOutput<Recorder<CraneSense, CraneAct>>,
>;

// Six workers at the start; only the press's sensors change. One gauge serves each potentiometer.
fn run_by<R: Threads + Wait + Sync, F: Gauge + Copy + Send>(
    rt: &R,
    alloc: Global,
    opening: State,
    gauge: F,
    points: Points,
    press: Recorder<PressSense, PressAct>,
    turns: u32,
    gate: &CountingGate,
) -> Result<SixOutputs, RunFault>
    requires start { IsStartState opening }
    requires keeps { F.keeps gauge points }
{
    let robot = RobotProgram::new(
        Calibration::new(gauge, points),
        Calibration::new(gauge, points),
        Calibration::new(gauge, points),
    );
    let table = TableProgram::new(Calibration::new(gauge, points));
    let crane = CraneProgram::new(Calibration::new(gauge, points));
    let workers = SixOf {
        feed: still(FeedProgram, opening, FeedSense { barrier: false }),
        table: still(table, opening, AT_BOTTOM),
        robot: still(robot, opening, AT_TABLE),
        press: WiredWorker {
            program: PressProgram,
            opening,
            devices: press,
        },
        deposit: still(DepositProgram, opening, DepositSense { barrier: false }),
        crane: still(crane, opening, AT_DEPOSIT),
    };
    run_six(rt, alloc, workers, opening, turns, gate)
}

// Runs six workers, whichever they are. It says nothing of the run, so `run_by` doesn't carry what is told of one.
fn run_six<R, W1, W2, W3, W4, W5, W6>(
    rt: &R,
    alloc: Global,
    workers: SixOf<W1, W2, W3, W4, W5, W6>,
    opening: State,
    turns: u32,
    gate: &CountingGate,
) -> Result<
    SixRecord<W1::Output, W2::Output, W3::Output, W4::Output, W5::Output, W6::Output>,
    RunFault,
>
where
    R: Threads + Wait + Sync,
    W1: Worker + Send,
    W2: Worker + Send,
    W3: Worker + Send,
    W4: Worker + Send,
    W5: Worker + Send,
    W6: Worker + Send,
    W1::Output: Send,
    W2::Output: Send,
    W3::Output: Send,
    W4::Output: Send,
    W5::Output: Send,
    W6::Output: Send,
    requires ready { AreReadyAt W1.is_ready W2.is_ready W3.is_ready W4.is_ready W5.is_ready W6.is_ready opening
        workers }
{
    run_workers(rt, alloc, workers, opening, 64, turns, gate)
}

const AT_BOTTOM: TableSense = TableSense {
    bottom: true,
    top: false,
    turn: 0,
};

const AT_TABLE: RobotSense = RobotSense {
    arm1: 0,
    arm2: 0,
    rotation: 300,
};

const AT_DEPOSIT: CraneSense = CraneSense {
    deposit: true,
    feed: false,
    gripper: 900,
};

const AT_TOP: PressSense = PressSense {
    bottom: false,
    middle: false,
    top: true,
};

const BOTH_ON: PressSense = PressSense {
    bottom: true,
    middle: false,
    top: true,
};

// A row's run from a start without plates, in which a raw value is the position. `None` is a fault.
fn run_row<R: Threads + Wait + Abort + Sync>(
    rt: &R,
    alloc: Global,
    gate: &CountingGate,
    row: &Row,
) -> Option<SixOutputs> {
    let opening = State::start([false; 10], 0).expect(rt, "a start");
    let points = Points::new(0, 2000, 0, 2000, 5).expect(rt, "points");
    let gauge = move |raw: u16| position_on_line(&points, raw);
    let press = Recorder::new(AT_TOP, row.good, row.then);
    run_by(rt, alloc, opening, gauge, points, press, row.limit, gate).ok()
}

/// How many turns the press has before its switches show what comes next, the greatest number of cycles of
/// each machine, and how often the gate lets each machine in. Then how the press ends: its turns, its
/// cycles without a reading, its status, and how often it has asked; and its motor's last command, with
/// the fault, if it has had one.
struct Row {
    good: u32,
    then: Option<PressSense>,
    limit: u32,
    lets: [u32; 6],
    press: (u32, u32, Status, u32),
    told: Option<(Motor, Option<CtlFault>)>,
}

const ALL: [u32; 6] = [99; 6];

const CLASH: Option<CtlFault> = Some(CtlFault::Sensor(SensorFault::Clash));

// The press claims its interior and tells that it moves; from its third turn on it drives down.
const ROWS: &[Row] = &[
    // its switches are good throughout; or they clash in its first turn, while its motor is on, or in its last turn; or
    // they don't answer from the beginning, or while its motor is on
    Row {
        good: 9,
        then: Some(BOTH_ON),
        limit: 3,
        lets: ALL,
        press: (3, 0, Status::Fine, 3),
        told: Some((Motor::Minus, None)),
    },
    Row {
        good: 0,
        then: Some(BOTH_ON),
        limit: 6,
        lets: ALL,
        press: (1, 0, Status::Sensor, 1),
        told: Some((Motor::Off, CLASH)),
    },
    Row {
        good: 3,
        then: Some(BOTH_ON),
        limit: 6,
        lets: ALL,
        press: (4, 0, Status::Sensor, 4),
        told: Some((Motor::Off, CLASH)),
    },
    Row {
        good: 5,
        then: Some(BOTH_ON),
        limit: 6,
        lets: ALL,
        press: (6, 0, Status::Sensor, 6),
        told: Some((Motor::Off, CLASH)),
    },
    Row {
        good: 0,
        then: None,
        limit: 4,
        lets: ALL,
        press: (0, 4, Status::Fine, 4),
        told: Some((Motor::Off, None)),
    },
    Row {
        good: 3,
        then: None,
        limit: 6,
        lets: ALL,
        press: (3, 3, Status::Fine, 6),
        told: Some((Motor::Off, None)),
    },
    // the gate refuses none; all; each at another cycle
    Row {
        good: 9,
        then: None,
        limit: 6,
        lets: [6; 6],
        press: (6, 0, Status::Fine, 6),
        told: Some((Motor::Minus, None)),
    },
    Row {
        good: 9,
        then: None,
        limit: 6,
        lets: [0; 6],
        press: (0, 0, Status::GateLimit, 1),
        told: None,
    },
    Row {
        good: 9,
        then: None,
        limit: 6,
        lets: [5, 4, 3, 2, 1, 0],
        press: (2, 0, Status::GateLimit, 3),
        told: Some((Motor::Off, None)),
    },
    // the gate lets the press begin cycles in which its switches don't answer
    Row {
        good: 1,
        then: None,
        limit: 6,
        lets: [6, 0, 6, 4, 6, 5],
        press: (1, 3, Status::GateLimit, 5),
        told: Some((Motor::Off, None)),
    },
    // the press's switches clash before the gate refuses it, or in the last cycle that it lets begin
    Row {
        good: 0,
        then: Some(BOTH_ON),
        limit: 6,
        lets: [1, 6, 6, 5, 6, 6],
        press: (1, 0, Status::Sensor, 1),
        told: Some((Motor::Off, CLASH)),
    },
    Row {
        good: 1,
        then: Some(BOTH_ON),
        limit: 6,
        lets: [6, 6, 2, 2, 6, 3],
        press: (2, 0, Status::Sensor, 2),
        told: Some((Motor::Off, CLASH)),
    },
];

// Whether a machine has had these turns, in each of which its devices were read and set once, but for
// cycles without a reading, and has ended so.
fn has_had<S, A>(
    output: &WiredOutput<Recorder<S, A>>,
    turns: u32,
    missed: u32,
    status: Status,
) -> bool {
    let devices = &output.devices;
    let cycles = turns.saturating_add(missed);
    (output.turns, output.missed, devices.reads, devices.sets) == (turns, missed, cycles, cycles)
        && output.status == status
}

// Whether a machine with good sensors has had the turns that its gate lets begin.
fn was_let_in<S, A>(output: &WiredOutput<Recorder<S, A>>, limit: u32, lets: u32) -> bool {
    let status = if lets < limit {
        Status::GateLimit
    } else {
        Status::Fine
    };
    has_had(output, lets.min(limit), 0, status)
}

// Whether the machines other than the press have had the turns that their gate lets begin.
fn were_others_let_in(run: &SixOutputs, limit: u32, lets: [u32; 6]) -> bool {
    let six = &run.outputs;
    was_let_in(&six.feed, limit, lets[0])
        && was_let_in(&six.table, limit, lets[1])
        && was_let_in(&six.robot, limit, lets[2])
        && was_let_in(&six.deposit, limit, lets[4])
        && was_let_in(&six.crane, limit, lets[5])
}

// Whether the press ends as its row says, and its devices were neither read nor set after its last cycle.
fn does_press_end_so(press: &WiredOutput<Recorder<PressSense, PressAct>>, row: &Row) -> bool {
    let (turns, missed, status, _) = row.press;
    let told = press.devices.last.map(|told| (told.act.press, told.fault));
    told == row.told && has_had(press, turns, missed, status)
}

// Whether each machine has asked its gate exactly as often as its row says: the other ones once for each
// turn, and for the one at which they are refused.
fn was_asked(gate: &CountingGate, row: &Row) -> bool {
    let mut asked = row.lets.map(|lets| lets.saturating_add(1).min(row.limit));
    asked[3] = row.press.3;
    gate.was_asked(asked)
}

// Whether the machines end as a row says, and each has asked its gate exactly as often.
fn ends_so<R: Threads + Wait + Abort + Sync>(
    rt: &R,
    alloc: Global,
    gate: &CountingGate,
    row: &Row,
) -> bool {
    match run_row(rt, alloc, gate, row) {
        Some(run) => {
            does_press_end_so(&run.outputs.press, row)
                && were_others_let_in(&run, row.limit, row.lets)
                && was_asked(gate, row)
        }
        None => false,
    }
}

#[test]
fn gates_are_asked_once_for_each_cycle(rt: HostRuntime) {
    for row in ROWS {
        let gate = CountingGate::new(row.lets);
        assert!(rt;
            ends_so(&rt, rt.alloc(), &gate, row),
            "{} good turns",
            row.good
        );
    }
}
