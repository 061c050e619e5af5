//! Two machines at a press at work by their passes: alone, in threads, and over one interlock after another. In threads
//! with journals they work in `at_work.rt`.
ghost use Rattle.std.specs.Prelude.{◌≡◌, ◌∷◌, All, IfOk, IfSome, false, replicate, true};
ghost use Rattle.plan_types.specs.Examples.{press_table};
ghost use Rattle.plan_rules.specs.State.{start_state};
ghost use Rattle.plan_workers.specs.Jobs.{IsJobOf, IsReady};
ghost use Rattle.plan_workers.specs.Renewing.{AreReadyAt};

use plan_controller::{Faults, PlanController, Step};
use plan_interlock::examples::press;
use plan_interlock::{PlanInterlock, PlanPass};
use plan_rules::State;
use plan_types::{Answer, Call, Plan, examples};
use plan_word::laws::starts_are_of_plan;
use plan_workers::laws::machines_are_ready_at_start;
use plan_workers::{
    OpenPlanGate, PacedPlanGate, PlanAuditFault, PlanDevices, PlanEntry, PlanGate, PlanJob,
    PlanMachine, PlanPassLine, PlanPause, PlanRenewal, PlanRound, PlanRoundSink, PlanWorked,
    PlanWorker, audit, open_from, renew, work_by_pass, work_in_threads, work_renewed,
};
use std::alloc::{AllocError, Global};
use std::sync::atomic::{AtomicU64, Ordering};
use std::time::Duration;

/// Sensors that show always the same, and count how often they are read; and whether that was more often than another
/// machine's. The motors that were given last, and those that were ever given.
#[derive(Drop)]
struct Shown<'a> {
    sensors: Option<u32>,
    own: &'a AtomicU64,
    other: &'a AtomicU64,
    ran_ahead: bool,
    motors: u64,
    ever: u64,
}

impl<'a> Shown<'a> {
    /// Devices with all motors off, of the first machine of these two or of the second.
    fn new(sensors: Option<u32>, own: &'a AtomicU64, other: &'a AtomicU64) -> Shown<'a> {
        Shown {
            sensors,
            own,
            other,
            ran_ahead: false,
            motors: 0,
            ever: 0,
        }
    }
}

impl PlanDevices for Shown<'_> {
    fn sensors(&mut self) -> Option<u32> {
        let had = self.own.fetch_add(1, Ordering::SeqCst);
        if self.other.load(Ordering::SeqCst) < had {
            self.ran_ahead = true;
        }
        self.sensors
    }

    fn drive(&mut self, motors: u64) {
        self.motors = motors;
        self.ever |= motors;
    }
}

/// The press claims its zone, moves, and runs its ram.
fn steps_of_press(alloc: Global) -> Result<Vec<Step>, AllocError> {
    let steps = vec![in alloc;
        Step::Do(Call::Claim(0), Faults::none()),
        Step::Do(Call::SetPose(3), Faults::none()),
        Step::Run {
            motors: 0b1,
            until: 4,
        },
    ]?;
    Ok(steps)
}

/// The loader claims the zone and leaves it, again and again, as far as the press lets it.
fn steps_of_loader(alloc: Global) -> Result<Vec<Step>, AllocError> {
    let steps = vec![in alloc;
        Step::Do(Call::Claim(0), Faults::none()),
        Step::Do(Call::Release(0), Faults::none()),
    ]?;
    Ok(steps)
}

/// The interlock of the example and its passes. Of its clauses it keeps what jobs need.
fn at_press(alloc: Global) -> Option<(PlanInterlock, PlanPass, PlanPass)>
    ensures loader { IfSome result (λ made. IsJobOf made.0 made.1) }
    ensures press { IfSome result (λ made. IsJobOf made.0 made.2) }
{
    press(alloc)
}

/// The press at the end of its line.
type PressWorker<'a> = PlanWorker<PlanPassLine<'a>, Shown<'a>>;

fn press_worker<'a>(
    interlock: &'a PlanInterlock,
    pass: PlanPass,
    steps: Vec<Step>,
    count: &'a AtomicU64,
) -> PressWorker<'a>
    requires { IsJobOf interlock.now pass }
{
    let devices = Shown::new(Some(0), count, count);
    PlanWorker::new(steps, PlanPassLine::new(interlock, pass), devices)
}

/// Whether two turns are two calls.
fn asks_twice(worker: &mut PressWorker<'_>) -> bool {
    let turns = worker.work(&OpenPlanGate, 2);
    turns == 2 && worker.devices().ever == 0 && worker.controller().place() == 2
}

/// Whether a turn turns on the ram.
fn runs_ram(worker: &mut PressWorker<'_>) -> bool {
    let turn = worker.work_turn();
    let is_on = worker.devices().motors == 0b1;
    is_on && turn.sensors == Some(0) && turn.taken.motors == 0b1
}

/// Whether its end turns it off.
fn ends_off(worker: PressWorker<'_>) -> bool {
    let (controller, line, devices) = worker.into_parts();
    devices.motors == 0 && controller.place() == 2 && line.into_pass().actor() == 1
}

#[test]
fn a_press_runs_its_ram(rt: HostRuntime) {
    let Some((interlock, _loader, pass)) = at_press(rt.alloc()) else {
        panic!(rt; "no memory");
    };
    let steps = steps_of_press(rt.alloc()).expect(&rt, "memory");
    let count = AtomicU64::new(0);
    let mut worker = press_worker(&interlock, pass, steps, &count);
    assert!(rt; asks_twice(&mut worker) && runs_ram(&mut worker));
    assert!(rt; ends_off(worker));
}

/// Whether this machine has worked at the pace of the other, and these motors were on.
fn has_worked(back: &PlanWorked<Shown<'_>>, machine: u8, motors: u64) -> bool {
    let devices = &back.devices;
    back.turns == 1_000
        && back.pass.actor() == machine
        && devices.ever == motors
        && devices.motors == 0
        && !devices.ran_ahead
}

/// Whether these are the loader, whose motors were off, and the press, whose ram was on.
fn have_worked(backs: &[PlanWorked<Shown<'_>>]) -> bool {
    match backs {
        [loader, press] => has_worked(loader, 0, 0) && has_worked(press, 1, 0b1),
        _ => false,
    }
}

/// The jobs of the loader and the press, from the beginning of their programs.
fn jobs_of_two<D: Drop>(
    alloc: Global,
    _interlock: &PlanInterlock,
    passes: (PlanPass, PlanPass),
    devices: (D, D),
) -> Result<Vec<PlanJob<D>>, AllocError>
    requires loader { IsJobOf _interlock.now passes.0 }
    requires press { IsJobOf _interlock.now passes.1 }
    ensures { IfOk result (λ jobs. All (λ job. IsReady _interlock.now job) jobs.items) }
{
    let loader = PlanJob::new(passes.0, steps_of_loader(alloc)?, devices.0);
    let press = PlanJob::new(passes.1, steps_of_press(alloc)?, devices.1);
    let mut jobs = Vec::new(alloc);
    jobs.push(loader)?;
    jobs.push(press)?;
    Ok(jobs)
}

#[test]
fn two_machines_work_at_one_pace(rt: HostRuntime) {
    let Some((interlock, loader, press)) = at_press(rt.alloc()) else {
        panic!(rt; "no memory");
    };
    let (first, second) = (AtomicU64::new(0), AtomicU64::new(0));
    let loaders = Shown::new(None, &first, &second);
    let presses = Shown::new(Some(0), &second, &first);
    let jobs = jobs_of_two(rt.alloc(), &interlock, (loader, press), (loaders, presses));
    let jobs = jobs.expect(&rt, "memory");
    let gate = PacedPlanGate::new(&rt, 2, Duration::from_secs(30));
    let backs = work_in_threads(&rt, &interlock, jobs, &gate, 1_000).expect(&rt, "memory");
    assert!(rt; have_worked(&backs));
}

/// How many of 100 turns a machine takes.
fn turns_alone<G: PlanGate>(interlock: &PlanInterlock, job: PlanJob<Shown<'_>>, gate: &G) -> u32
    requires { IsReady interlock.now job }
{
    work_by_pass(interlock, job, gate, 100).turns
}

#[test]
fn a_machine_alone_goes_on(rt: HostRuntime) {
    let Some((interlock, loader, _press)) = at_press(rt.alloc()) else {
        panic!(rt; "no memory");
    };
    let steps = steps_of_loader(rt.alloc()).expect(&rt, "memory");
    let count = AtomicU64::new(0);
    let loader = PlanJob::new(loader, steps, Shown::new(None, &count, &count));
    let gate = PacedPlanGate::new(&rt, 2, Duration::from_millis(10));
    assert!(rt; turns_alone(&interlock, loader, &gate) == 100);
}

/// The plan of the press, and the start of its example.
fn plan_and_start(alloc: Global) -> Option<(Plan, State)>
    ensures plan { IfSome result (λ made. made.0 ≡ press_table) }
    ensures start { IfSome result (λ made. made.1 ≡ start_state (true ∷ replicate 15 false) 0) }
{
    let plan = Plan::new(examples::press(alloc).ok()?).ok()?;
    let mut full = [false; 16];
    full[0] = true;
    Some((plan, State::start(full, 0)))
}

/// What is wrong with a journal of the press alone, in which a call is done at a stamp.
fn fault_of(alloc: Global, call: Call, stamp: u32, end: Option<&State>) -> Option<PlanAuditFault> {
    let (plan, start) = plan_and_start(alloc)?;
    let entry = PlanEntry {
        call,
        answer: Answer::Done,
        stamp,
    };
    let journal = vec![in alloc; entry].ok()?;
    let journals = vec![in alloc; Vec::new(alloc), journal].ok()?;
    audit(alloc, &plan, &start, &journals, end).err()
}

#[test]
fn an_audit_tells_what_is_wrong(rt: HostRuntime) {
    let claim = Call::Claim(0);
    assert!(rt; fault_of(rt.alloc(), claim, 1, None) == None);
    let out_of_turn = fault_of(rt.alloc(), claim, 2, None);
    assert!(rt; out_of_turn == Some(PlanAuditFault::OutOfTurn { stamp: 0 }));
    let differs = PlanAuditFault::Differs {
        machine: 1,
        stamp: 1,
    };
    assert!(rt; fault_of(rt.alloc(), Call::Stop, 1, None) == Some(differs));
    let start = State::start([false; 16], 1);
    assert!(rt; fault_of(rt.alloc(), claim, 1, Some(&start)) == Some(PlanAuditFault::End));
}

/// A sink that audits each round.
#[derive(Drop)]
struct Audits<'a> {
    alloc: Global,
    plan: &'a Plan,
    rounds: u32,
}

impl PlanRoundSink for Audits<'_> {
    type Fault = PlanAuditFault;

    fn take(&mut self, round: PlanRound) -> Result<(), PlanAuditFault> {
        let PlanRound {
            opening,
            journals,
            end,
        } = round;
        self.rounds = self.rounds.saturating_add(1);
        match audit(self.alloc, self.plan, &opening, &journals, Some(&end)) {
            Ok(_) => Ok(()),
            Err(fault) => Err(fault),
        }
    }
}

/// The loader and the press at their first lines.
fn at_first_lines<'a>(
    alloc: Global,
    plan: &Plan,
    start: State,
    count: &'a AtomicU64,
) -> Result<PlanPause<Shown<'a>>, AllocError>
    requires plan { plan.now ≡ press_table }
    requires start { start ≡ start_state (true ∷ replicate 15 false) 0 }
    ensures { IfOk result (λ begun. AreReadyAt plan.now begun.state begun.machines.items) }
{
    let loader = PlanMachine {
        controller: PlanController::new(0, steps_of_loader(alloc)?),
        devices: Shown::new(Some(0), count, count),
    };
    let press = PlanMachine {
        controller: PlanController::new(1, steps_of_press(alloc)?),
        devices: Shown::new(Some(0), count, count),
    };
    let machines = vec![in alloc; loader, press]?;
    machines_are_ready_at_start(plan, &start, &machines);
    Ok(PlanPause {
        machines,
        state: start,
    })
}

#[test]
fn machines_go_on_over_the_next_interlock(rt: HostRuntime) {
    let (plan, start) = plan_and_start(rt.alloc()).expect(&rt, "memory");
    let count = AtomicU64::new(0);
    let begun = at_first_lines(rt.alloc(), &plan, start, &count).expect(&rt, "memory");
    let renewal = PlanRenewal {
        tries: 8,
        turns: 1,
        rounds: 3,
    };
    let mut audits = Audits {
        alloc: rt.alloc(),
        plan: &plan,
        rounds: 0,
    };
    let gate = PacedPlanGate::new(&rt, 2, Duration::from_secs(60));
    let left = work_renewed(&rt, rt.alloc(), &plan, begun, renewal, &gate, &mut audits);
    let Ok(left) = left else {
        panic!(rt; "no end");
    };
    assert!(rt; audits.rounds == 3 && left.state.stamp <= 1 && left.machines.len() == 2);
    assert!(rt; left.machines[1].controller.place() == 2 && left.machines[1].devices.ever == 1);
}

#[test]
fn an_interlock_is_renewed(rt: HostRuntime) {
    let (plan, start) = plan_and_start(rt.alloc()).expect(&rt, "memory");
    starts_are_of_plan(&plan, &start);
    let Some((interlock, mut passes)) = open_from(rt.alloc(), &plan, &start, 8) else {
        panic!(rt; "no memory");
    };
    let loader = interlock.take_pass(&mut passes, 0);
    let mut press = interlock.take_pass(&mut passes, 1);
    let _ = interlock.ask(&mut press, Call::Claim(0));
    interlock.give_back(&mut passes, press);
    interlock.give_back(&mut passes, loader);
    let Ok((interlock, mut passes)) = renew(rt.alloc(), &plan, interlock, passes, 8) else {
        panic!(rt; "no memory");
    };
    let mut loader = interlock.take_pass(&mut passes, 0);
    let state = interlock.survey(&mut loader);
    assert!(rt; state.stamp == 0 && state.zone(0).owner == Some(1));
}
