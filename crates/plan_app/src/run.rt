//! Lets the machines of a plan work in threads, with simulated devices, and tells what they did.
ghost use Rattle.std.specs.Prelude.{◌≡◌, IfOk, IfErr, All, Some, None, length, map};
ghost use Rattle.plan_rules.specs.declared.state.State.{State};
ghost use Rattle.plan_interlock.specs.Book.{plan_book, plan_of};
ghost use Rattle.plan_text.specs.HistoryLaws.{IsStartOf};
ghost use Rattle.plan_controller.specs.Turns.{control};
ghost use Rattle.plan_workers.specs.Audited.{IsAudited};
ghost use Rattle.plan_workers.specs.Jobs.{IsJobOf, IsReady, PlanInterlockView};
ghost use Rattle.word_interlock.specs.Bunches.{fresh_passes};
ghost use Rattle.plan_app.specs.Simulated.{new_simulation};
ghost use Rattle.plan_app.specs.Runs as spec;
ghost use Rattle.plan_app.specs.Runs.{IsRunOf, IsUntold};

use crate::run_text::{PlanRun, are_fine, are_own, text_of};
use crate::simulated::SimulatedDevices;
use plan_controller::Step;
use plan_document::ProgrammedPlan;
use plan_interlock::laws::starts_can_open;
use plan_interlock::{PlanInterlock, PlanPass, PlanRules};
use plan_rules::State;
use plan_text::MAX_RECORDS;
use plan_types::Refusal;
use plan_workers::{
    PacedPlanGate, PlanAuditFault, PlanEntry, PlanJob, PlanRecorded, PlanWorked, audit,
    record_in_threads,
};
use std::alloc::{AllocError, AllocFailed, Global};
use std::sync::Wait;
use std::thread::Threads;
use std::time::{Clock, Duration};
use word_interlock::{Interlock, Passes};

/// How many exchanges a call may lose.
pub(crate) const TRIES: u8 = 64;

/// How many seconds a machine waits for the others before its turn.
pub(crate) const PATIENCE: u64 = 60;

/// The most calls that are told.
pub(crate) const MAX_CALLS: usize = MAX_RECORDS as usize;

/// Why a run isn't told.
#[derive(Clone, Copy, PartialEq, Eq, Debug)]
pub enum RunFault {
    /// Memory ran out.
    Memory,
    /// No legal history explains the journals, or it has a call that isn't its machine's own. No run is known to come
    /// to it, but no clause says that none does.
    Audit,
    /// There are more calls than a script may have.
    Long,
}

/// What `plan run` prints.
#[derive(Drop)]
pub enum Told {
    /// No machine was stopped.
    Fine(String),
    /// Some machine was stopped by a refusal: one that nobody's call mends, or that its line has as a fault.
    Stopped(String),
}

impl From<AllocError> for RunFault {
    ghost use Rattle.std.specs.Prelude.{◌≡◌};
    ghost use Rattle.plan_app.specs.declared.run.RunFault.TheVariants.{Memory};

    ghost from_gives = { λ _ e. e ≡ Memory };

    fn from(_fault: AllocError) -> RunFault {
        RunFault::Memory
    }
}

impl<T: Drop> From<AllocFailed<T>> for RunFault {
    ghost use Rattle.std.specs.Prelude.{◌≡◌};
    ghost use Rattle.plan_app.specs.declared.run.RunFault.TheVariants.{Memory};

    ghost from_gives = { λ _ e. e ≡ Memory };

    fn from(_fault: AllocFailed<T>) -> RunFault {
        RunFault::Memory
    }
}

/// The steps of a machine's program.
pub(crate) fn steps_of(plan: &ProgrammedPlan, machine: u8) -> &[Step]
    ensures { result.now ≡ spec.program_of plan.now machine }
{
    match plan.steps.get(usize::from(machine)) {
        Some(steps) => steps.as_slice(),
        None => &[],
    }
}

/// A copy of a program.
pub(crate) fn copy_of(alloc: Global, steps: &[Step]) -> Result<Vec<Step>, AllocError>
    ensures { IfOk result (λ copy. copy.items ≡ steps.now) }
{
    steps.iter().copied().collect(alloc)
}

/// The job of a machine by its pass: its program, with simulated devices.
fn job_of(
    alloc: Global,
    plan: &ProgrammedPlan,
    machine: u8,
    pass: PlanPass,
) -> Result<PlanJob<SimulatedDevices>, AllocError>
    ensures pass { IfOk result (λ job. job.pass ≡ pass) }
    ensures controller { IfOk result
        (λ job. job.controller ≡ control pass.actor (spec.program_of plan.now machine) 0 None) }
    ensures devices { IfOk result
        (λ job. job.devices ≡ new_simulation (spec.program_of plan.now machine)) }
    ensures ready { IfOk result
        (λ job. (i : PlanInterlockView) → IsJobOf i pass → IsReady i job) }
{
    let steps = copy_of(alloc, steps_of(plan, machine))?;
    let devices = SimulatedDevices::new(copy_of(alloc, steps_of(plan, machine))?);
    Ok(PlanJob::new(pass, steps, devices))
}

/// The jobs of all machines, by the passes of a new interlock. The watch's pass stays.
fn jobs_of(
    alloc: Global,
    plan: &ProgrammedPlan,
    interlock: &PlanInterlock,
    passes: &mut Passes<PlanRules>,
) -> Result<Vec<PlanJob<SimulatedDevices>>, AllocError>
    requires rules { plan_of interlock.now.rules ≡ plan.now.named.plan }
    requires fresh { passes.old
        ≡ fresh_passes interlock.now (plan_book plan.now.named.plan).actors }
    ensures table { passes.new.table ≡ interlock.now.table }
    ensures many { IfOk result (λ jobs. length jobs.items ≡ plan.now.named.plan.machines) }
    ensures each { IfOk result (λ jobs. spec.AreJobsFor plan.now interlock.now jobs.items) }
{
    let mut jobs = Vec::new(alloc);
    for machine in 0..plan.named.plan().machines() {
        let pass = interlock.take_pass(passes, machine);
        jobs.push(job_of(alloc, plan, machine, pass)?)?;
    }
    Ok(jobs)
}

/// Lets the machines of a plan take turns, each in a thread of its own, at one pace, over one interlock that opens with
/// this start. No run is known to come to `Audit`, but no clause says that none does.
pub fn run_machines<T: Threads + Wait + Clock + Sync>(
    rt: &T,
    alloc: Global,
    plan: &ProgrammedPlan,
    start: &State,
    turns: u32,
) -> Result<PlanRun, RunFault>
    requires start { IsStartOf plan.now.named start.now }
    ensures run { IfOk result (λ run.
        IsRunOf plan.now turns start.now run.history.items run.stops.items) }
    ensures fault { IfErr result (λ fault. IsUntold plan.now turns start.now fault) }
{
    let rules = PlanRules::new(plan.named.plan().clone()?);
    starts_can_open(&rules, start);
    let Ok((interlock, mut passes)) = Interlock::new(alloc, rules, *start, TRIES) else {
        return Err(RunFault::Memory);
    };
    let jobs = jobs_of(alloc, plan, &interlock, &mut passes)?;
    let patience = Duration::from_secs(PATIENCE);
    let gate = PacedPlanGate::new(rt, plan.named.plan().machines(), patience);
    let backs = record_in_threads(rt, alloc, &interlock, jobs, &gate, turns)?;
    end_run(alloc, plan, start, interlock, passes, backs)
}

/// What machines have noted and how they ended, apart from their passes, which are given back.
fn take_apart(
    alloc: Global,
    interlock: &PlanInterlock,
    passes: &mut Passes<PlanRules>,
    backs: Vec<PlanRecorded<SimulatedDevices>>,
) -> Result<(Vec<Vec<PlanEntry>>, Vec<Option<Refusal>>), RunFault>
    requires table { passes.old.table ≡ interlock.now.table }
    requires own { All (λ back. back.worked.pass.table ≡ interlock.now.table) backs.items }
    ensures table { passes.new.table ≡ interlock.now.table }
    ensures journals { IfOk result
        (λ parts. parts.0.items ≡ map (λ back. back.journal) backs.items) }
    ensures stops { IfOk result (λ parts. parts.1.items ≡ spec.stops_in backs.items) }
    ensures fault { IfErr result (λ fault. fault ≡ RunFault.Memory) }
{
    let mut journals = Vec::new(alloc);
    let mut stops = Vec::new(alloc);
    'backs: for back in backs {
        let PlanRecorded { worked, journal } = back;
        let PlanWorked {
            pass,
            stopped_by,
            ..
        } = worked;
        interlock.give_back(passes, pass);
        journals.push(journal)?;
        stops.push(stopped_by)?;
    }
    Ok((journals, stops))
}

/// The history of machines that have worked, by an audit of their journals.
fn end_run(
    alloc: Global,
    plan: &ProgrammedPlan,
    start: &State,
    interlock: PlanInterlock,
    passes: Passes<PlanRules>,
    backs: Vec<PlanRecorded<SimulatedDevices>>,
) -> Result<PlanRun, RunFault>
    requires table { passes.table ≡ interlock.table }
    requires own { All (λ back. back.worked.pass.table ≡ interlock.table) backs.items }
    ensures audited { IfOk result (λ run. (end : State)
        × IsAudited plan.now.named.plan start.now (spec.noted_in backs.items) (Some end)
        run.history.items) }
    ensures stops { IfOk result (λ run. run.stops.items ≡ spec.stops_in backs.items) }
    ensures fault { IfErr result (spec.IsUnaudited plan.now start.now backs.items) }
{
    let mut passes = passes;
    let (journals, stops) = take_apart(alloc, &interlock, &mut passes, backs)?;
    let end = interlock.close(passes);
    match audit(alloc, plan.named.plan(), start, &journals, Some(&end)) {
        Ok(history) => Ok(PlanRun { history, stops }),
        Err(PlanAuditFault::Memory) => Err(RunFault::Memory),
        Err(_) => Err(RunFault::Audit),
    }
}

/// Tells a run, unless it has more calls than a script may have.
pub fn tell_run(
    alloc: Global,
    plan: &ProgrammedPlan,
    start: &State,
    turns: u32,
    run: &PlanRun,
) -> Result<Told, RunFault>
    requires { IsRunOf plan.now turns start.now run.now.history.items run.now.stops.items }
    ensures told { IfOk result (spec.IsTold plan.now turns start.now) }
    ensures fault { IfErr result (IsUntold plan.now turns start.now) }
{
    if !are_own(&plan.named, &run.history) {
        return Err(RunFault::Audit);
    }
    if run.history.len() > MAX_CALLS {
        return Err(RunFault::Long);
    }
    let text = text_of(alloc, &plan.named, start, turns, run)?;
    if are_fine(&run.stops) {
        Ok(Told::Fine(text))
    } else {
        Ok(Told::Stopped(text))
    }
}

/// Runs the machines of a plan from a start, and tells the run.
pub fn run_and_tell<T: Threads + Wait + Clock + Sync>(
    rt: &T,
    alloc: Global,
    plan: &ProgrammedPlan,
    start: &State,
    turns: u32,
) -> Result<Told, RunFault>
    requires start { IsStartOf plan.now.named start.now }
    ensures told { IfOk result (spec.IsTold plan.now turns start.now) }
    ensures fault { IfErr result (IsUntold plan.now turns start.now) }
{
    let run = run_machines(rt, alloc, plan, start, turns)?;
    tell_run(alloc, plan, start, turns, &run)
}
