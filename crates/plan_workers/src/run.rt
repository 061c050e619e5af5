//! Machines at work over one interlock, each in a thread of its own.
ghost use Rattle.std.specs.Prelude.{◌≡◌, IfOk, All, None, vec_len};
ghost use Rattle.plan_controller.specs.Turns.{control};
ghost use Rattle.plan_workers.specs.Jobs.{IsJobOf, IsReady, HasDone, HaveDone, PlanInterlockView};

use crate::devices::PlanDevices;
use crate::gate::PlanGate;
use crate::pass_line::PlanPassLine;
use crate::worker::PlanWorker;
use plan_controller::laws::rounds_begin_anywhere;
use plan_controller::{PlanController, Step};
use plan_interlock::{PlanInterlock, PlanPass};
use plan_types::Refusal;
use std::alloc::AllocError;
use std::thread;
use std::thread::Threads;

/// A machine that is to go to work: its pass, its program, its devices.
#[derive(Drop)]
pub struct PlanJob<D> {
    /// The machine's pass.
    pub pass: PlanPass,
    /// Its controller: its program, its place in it, and what has stopped it.
    pub controller: PlanController,
    /// Its devices.
    pub devices: D,
}

impl<D> PlanJob<D> {
    /// A machine at the beginning of its program.
    pub fn new(pass: PlanPass, steps: Vec<Step>, devices: D) -> PlanJob<D>
        ensures pass { result.pass ≡ pass }
        ensures controller { result.controller ≡ control pass.actor steps.items 0 None }
        ensures devices { result.devices ≡ devices }
        ensures ready { (i : PlanInterlockView) → IsJobOf i pass → IsReady i result }
    {
        rounds_begin_anywhere();
        let controller = PlanController::new(pass.actor(), steps);
        PlanJob {
            pass,
            controller,
            devices,
        }
    }
}

/// What a machine gives back after its work.
#[derive(Drop)]
pub struct PlanWorked<D> {
    /// Its pass.
    pub pass: PlanPass,
    /// Its controller: it may go on where it is, by this pass.
    pub controller: PlanController,
    /// Its devices, with all motors off.
    pub devices: D,
    /// How many turns it took.
    pub turns: u32,
    /// The refusal that has stopped it, if one has.
    pub stopped_by: Option<Refusal>,
}

/// Lets a machine work over an interlock, from where its controller is: at most `turns` turns, each once the gate lets
/// it begin. Then all its motors are off.
///
/// By all that its pass has seen the machine is at its controller's place.
pub fn work_by_pass<D: PlanDevices + Drop, G: PlanGate>(
    interlock: &PlanInterlock,
    job: PlanJob<D>,
    gate: &G,
    turns: u32,
) -> PlanWorked<D>
    requires ready { IsReady interlock.now job }
    ensures { HasDone D.reads D.drives interlock.now (G.may_answer gate.now) turns job result }
{
    let PlanJob {
        pass,
        controller,
        devices,
    } = job;
    let line = PlanPassLine::new(interlock, pass);
    let mut worker = PlanWorker::going_on(controller, line, devices);
    let turns = worker.work(gate, turns);
    let (controller, line, devices) = worker.into_parts();
    let stopped_by = controller.stopped_by();
    PlanWorked {
        pass: line.into_pass(),
        controller,
        devices,
        turns,
        stopped_by,
    }
}

/// Lets machines work over one interlock, each in a thread of its own where one can be made, and gives what each gives
/// back, in their order. See [`work_by_pass`].
///
/// Where no thread can be made, machines work one after another. `Err` if memory ran out: then some may not have
/// worked.
pub fn work_in_threads<R: Threads + Sync, D: PlanDevices + Send + Drop, G: PlanGate + Sync>(
    rt: &R,
    interlock: &PlanInterlock,
    jobs: Vec<PlanJob<D>>,
    gate: &G,
    turns: u32,
) -> Result<Vec<PlanWorked<D>>, AllocError>
    requires ready { All (λ job. IsReady interlock.now job) jobs.items }
    ensures many { IfOk result (λ backs. vec_len backs ≡ vec_len jobs) }
    ensures each { IfOk result (λ backs. HaveDone D.reads D.drives interlock.now
        (G.may_answer gate.now) turns jobs.items backs.items) }
{
    thread::map_vec(
        rt,
        jobs,
        &|job: PlanJob<D>| -> PlanWorked<D>
            requires { IsReady interlock.now job }
            ensures { HasDone D.reads D.drives interlock.entry.now
                (G.may_answer gate.entry.now) turns job result }
        { work_by_pass(interlock, job, gate, turns) },
    )
}
