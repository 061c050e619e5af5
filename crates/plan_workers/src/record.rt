//! Machines at work over one interlock that keep journals, each in a thread of its own.
ghost use Rattle.std.specs.Prelude.{◌≡◌, IfOk, All, vec_len};
ghost use Rattle.plan_workers.specs.Jobs.{IsReady};
ghost use Rattle.plan_workers.specs.Recording.{HasRecorded, HaveRecorded};

use crate::devices::PlanDevices;
use crate::gate::PlanGate;
use crate::journal::PlanEntry;
use crate::journal_line::PlanJournalLine;
use crate::run::{PlanJob, PlanWorked};
use crate::worker::PlanWorker;
use plan_interlock::PlanInterlock;
use std::alloc::{AllocError, Global};
use std::thread;
use std::thread::Threads;

/// What a machine gives back after its work, with its journal.
#[derive(Drop)]
pub struct PlanRecorded<D> {
    /// Its pass, its devices, and how it ended.
    pub worked: PlanWorked<D>,
    /// Its calls that were answered in this work, in order.
    pub journal: Vec<PlanEntry>,
}

/// Lets a machine work over an interlock as [`crate::work_by_pass`] does, and keeps its journal.
///
/// Out of memory for the journal it makes no call, and stays where it is until its next turn.
pub fn record_by_pass<D: PlanDevices + Drop, G: PlanGate>(
    alloc: Global,
    interlock: &PlanInterlock,
    job: PlanJob<D>,
    gate: &G,
    turns: u32,
) -> PlanRecorded<D>
    requires ready { IsReady interlock.now job }
    ensures { HasRecorded D.reads D.drives interlock.now (G.may_answer gate.now) turns job result }
{
    let PlanJob {
        pass,
        controller,
        devices,
    } = job;
    let line = PlanJournalLine::new(alloc, interlock, pass);
    let mut worker = PlanWorker::going_on(controller, line, devices);
    let turns = worker.work(gate, turns);
    let (controller, line, devices) = worker.into_parts();
    let stopped_by = controller.stopped_by();
    let (pass, journal) = line.into_parts();
    let worked = PlanWorked {
        pass,
        controller,
        devices,
        turns,
        stopped_by,
    };
    PlanRecorded { worked, journal }
}

/// Lets machines work over one interlock as [`crate::work_in_threads`] does, and keeps a journal of each. See
/// [`record_by_pass`].
///
/// Where no thread can be made, machines work one after another. `Err` if memory ran out: then some may not have
/// worked.
pub fn record_in_threads<R: Threads + Sync, D: PlanDevices + Send + Drop, G: PlanGate + Sync>(
    rt: &R,
    alloc: Global,
    interlock: &PlanInterlock,
    jobs: Vec<PlanJob<D>>,
    gate: &G,
    turns: u32,
) -> Result<Vec<PlanRecorded<D>>, AllocError>
    requires ready { All (λ job. IsReady interlock.now job) jobs.items }
    ensures many { IfOk result (λ backs. vec_len backs ≡ vec_len jobs) }
    ensures each { IfOk result (λ backs. HaveRecorded D.reads D.drives interlock.now
        (G.may_answer gate.now) turns jobs.items backs.items) }
{
    thread::map_vec(
        rt,
        jobs,
        &|job: PlanJob<D>| -> PlanRecorded<D>
            requires { IsReady interlock.now job }
            ensures { HasRecorded D.reads D.drives interlock.entry.now
                (G.may_answer gate.entry.now) turns job result }
        { record_by_pass(alloc, interlock, job, gate, turns) },
    )
}
