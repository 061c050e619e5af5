//! Six workers with devices of your own.
ghost use Rattle.std.specs.Prelude.{◌≡◌, None};
ghost use Rattle.cell_threads.specs.Six.{AreReadyAt};

use crate::axis::Axis;
use crate::devices::{Belt, Crane, DepositBelt, FeedBelt, Press, Robot, Table};
use crate::lookout::Lookout;
use crate::rounds::{Audits, RoundsGate};
use cell_belts_crane::{CraneProgram, DepositProgram, FeedProgram};
use cell_notes::Status;
use cell_renewal::{GoingWorker, Renewal, RenewalFault, RenewedWorker, run_renewed};
use cell_report::AuditFault;
use cell_robot::RobotProgram;
use cell_rules::State;
use cell_sensors::{Calibration, Gauge, Points};
use cell_table_press::{PressProgram, TableProgram};
use cell_threads::SixOf;
use cell_types::Machine;
use std::alloc::Global;
use std::sync::Wait;
use std::thread::Threads;

// The number of exchanges that a call may lose before it is Busy.
const TRIES: u8 = 8;

// The round in which the watch stops the cell; it resumes it in the next one.
const STOPS_IN: u32 = 3;

/// The points of the potentiometers: those of both arms and the gripper, of the robot's rotation,
/// and of the table's.
#[derive(Clone, Copy)]
pub struct AxisPoints {
    pub arm: Points,
    pub rotation: Points,
    pub turn: Points,
}

/// How many rounds there are, of how many turns of each machine. A stamp that has passed the mark
/// begins again at 0.
#[derive(Clone, Copy)]
pub struct RoundPlan {
    pub rounds: u32,
    pub turns: u32,
    pub mark: u32,
}

impl RoundPlan {
    // How its rounds are renewed.
    fn renewal(self) -> Renewal
        ensures tries { result.tries ≡ 8 }
        ensures turns { result.turns ≡ self.turns }
        ensures mark { result.mark ≡ self.mark }
    {
        Renewal {
            tries: TRIES,
            turns: self.turns,
            mark: self.mark,
        }
    }
}

/// How each machine ended.
pub type SixStatuses = SixOf<Status, Status, Status, Status, Status, Status>;

/// Drives the six machines, each in a thread of its own and all at one pace, over one interlock
/// after another. A watch looks at each. The closures are those of the arms, the robot's rotation, the table's rotation
/// and the gripper.
pub fn drive<R, F1, F2, F3, F4, F5>(
    rt: &R,
    alloc: Global,
    opening: State,
    gauges: (F1, F2, F3, F4, F5),
    points: AxisPoints,
    plan: RoundPlan,
    audits: &mut Audits,
) -> Result<(SixStatuses, Lookout), RenewalFault<AuditFault>>
where
    R: Threads + Wait + Sync,
    F1: Gauge + Send,
    F2: Gauge + Send,
    F3: Gauge + Send,
    F4: Gauge + Send,
    F5: Gauge + Send,
    requires arm1 { F1.keeps gauges.0 points.arm }
    requires arm2 { F2.keeps gauges.1 points.arm }
    requires rotation { F3.keeps gauges.2 points.rotation }
    requires turn { F4.keeps gauges.3 points.turn }
    requires gripper { F5.keeps gauges.4 points.arm }
    requires first { audits.old.left ≡ None }
{
    let (arm1, arm2, rotation, turn, gripper) = gauges;
    let robot = RobotProgram::new(
        Calibration::new(arm1, points.arm),
        Calibration::new(arm2, points.arm),
        Calibration::new(rotation, points.rotation),
    );
    let table = TableProgram::new(Calibration::new(turn, points.turn));
    let crane = CraneProgram::new(Calibration::new(gripper, points.arm));
    let belt = FeedBelt(Belt::new());
    let deposit = DepositBelt(Belt::new());
    let workers = SixOf {
        feed: GoingWorker::at_start(FeedProgram, Machine::Feed, opening, belt),
        table: GoingWorker::at_start(table, Machine::Table, opening, Table::at_start()),
        robot: GoingWorker::at_start(robot, Machine::Robot, opening, Robot::at_start()),
        press: GoingWorker::at_start(PressProgram, Machine::Press, opening, Press::at_start()),
        deposit: GoingWorker::at_start(DepositProgram, Machine::Deposit, opening, deposit),
        crane: GoingWorker::at_start(crane, Machine::Crane, opening, Crane::at_start()),
    };
    run_six(rt, alloc, workers, opening, plan, audits)
}

// Runs six workers over one interlock after another, whichever they are. It gives back little of what they leave, and
// says nothing of the run: so `drive` neither holds the six machines' types again nor carries what is told of a run.
fn run_six<R, W1, W2, W3, W4, W5, W6>(
    rt: &R,
    alloc: Global,
    workers: SixOf<W1, W2, W3, W4, W5, W6>,
    opening: State,
    plan: RoundPlan,
    audits: &mut Audits,
) -> Result<(SixStatuses, Lookout), RenewalFault<AuditFault>>
where
    R: Threads + Wait + Sync,
    W1: RenewedWorker + Send,
    W2: RenewedWorker + Send,
    W3: RenewedWorker + Send,
    W4: RenewedWorker + Send,
    W5: RenewedWorker + Send,
    W6: RenewedWorker + Send,
    W1::Output: Send,
    W2::Output: Send,
    W3::Output: Send,
    W4::Output: Send,
    W5::Output: Send,
    W6::Output: Send,
    requires ready { AreReadyAt W1.is_ready W2.is_ready W3.is_ready W4.is_ready W5.is_ready W6.is_ready opening
        workers }
    requires first { audits.old.left ≡ None }
{
    let gate = RoundsGate::new(rt, plan.rounds);
    let renewal = plan.renewal();
    let watch = Lookout::new(STOPS_IN);
    let left = run_renewed(rt, alloc, workers, watch, opening, renewal, &gate, audits)?;
    Ok((
        statuses_of::<W1, W2, W3, W4, W5, W6>(left.outputs),
        left.watch,
    ))
}

// How each of the six ended.
fn statuses_of<W1, W2, W3, W4, W5, W6>(
    six: SixOf<W1::Output, W2::Output, W3::Output, W4::Output, W5::Output, W6::Output>,
) -> SixStatuses
where
    W1: RenewedWorker,
    W2: RenewedWorker,
    W3: RenewedWorker,
    W4: RenewedWorker,
    W5: RenewedWorker,
    W6: RenewedWorker,
{
    SixOf {
        feed: W1::status(&six.feed),
        table: W2::status(&six.table),
        robot: W3::status(&six.robot),
        press: W4::status(&six.press),
        deposit: W5::status(&six.deposit),
        crane: W6::status(&six.crane),
    }
}
