//! Starts workers in threads, and joins them.
ghost use Rattle.std.specs.Prelude.{◌≡◌, [], IfSome, Some, None, true, false};
ghost use Rattle.cell_threads.specs.Promises.{IsPromised};

use crate::gate::Gate;
use crate::worker::Worker;
use crate::worker_result::WorkerResult;
use cell_interlock::{Interlock, Pass};
use std::alloc::Global;
use std::snapshot::Snapshot;
use std::thread::{Promise, PromisedHandle, Scope, Threads};

/// What the workers of a run have in common.
#[derive(Drop)]
pub(crate) struct WorkerContext<'s, G> {
    /// The allocator of their journals.
    pub alloc: Global,
    /// The interlock over which they take their turns.
    pub interlock: &'s Interlock,
    /// The gate that lets them begin their turns.
    pub gate: &'s G,
    /// The greatest number of turns of each.
    pub turns: u32,
}

/// What a worker's result keeps.
#[derive(Drop)]
pub(crate) struct WorkerPromise<W, G> {
    interlock: Snapshot<Interlock>,
    pass: Snapshot<Pass>,
    worker: Snapshot<W>,
    gate: Snapshot<G>,
    turns: u32,
}

impl<W: Worker, G: Gate> Promise<WorkerResult<W::Output>> for WorkerPromise<W, G> {
    ghost use Rattle.cell_threads.specs.Promises.{GivesBack};

    ghost kept_by = { λ p r. GivesBack W.gives_back p.worker.value p.pass.value p.interlock.value.tries
        (G.may_answer p.gate.value p.pass.value.machine) p.turns r };
}

/// Starts a worker, unless an earlier one couldn't be started. A gate is told of each machine that has
/// no worker, so that no other waits for it. No double of `Threads` refuses a thread, so no test sees
/// this.
///
/// Returns `None` if it isn't started; then `all_run` is false. Otherwise it stays true.
pub(crate) fn start<'s, E, W: Worker + Send + 's, G: Gate + Sync>(
    scope: &Scope<'s, E>,
    context: &WorkerContext<'s, G>,
    all_run: &mut bool,
    pass: Pass,
    worker: W,
) -> Option<PromisedHandle<WorkerResult<W::Output>, WorkerPromise<W, G>>>
where
    W::Output: Send,
    requires table { pass.table ≡ context.now.interlock.now.table }
    requires fresh { pass.seen ≡ [] }
    requires ready { W.is_ready worker pass }
    ensures failed { result ≡ None → all_run.new ≡ false }
    ensures goes_on { IfSome result (λ h. all_run.new ≡ true) }
    ensures none_after { all_run.old ≡ false → result ≡ None }
    ensures promised { IfSome result (λ h. IsPromised context.now.interlock.now context.now.gate.now context.now.turns
        pass worker h.promise) }
{
    let WorkerContext {
        alloc,
        interlock,
        gate,
        turns,
    } = *context;
    let machine = pass.machine();
    if !*all_run {
        gate.end(machine);
        return None;
    }
    let promise = WorkerPromise {
        interlock: Snapshot::of(interlock),
        pass: Snapshot::of(&pass),
        worker: Snapshot::of(&worker),
        gate: Snapshot::of(gate),
        turns,
    };
    let started = scope
        .spawn_with(promise, move || {
            let result = worker.take_turns(alloc, interlock, pass, gate, turns);
            gate.end(machine);
            result
        })
        .ok();
    *all_run = started.is_some();
    if !*all_run {
        gate.end(machine);
    }
    started
}

/// Waits until a worker has ended, if it was started.
pub(crate) fn join<R: Threads, T, P: Promise<T>>(
    rt: &R,
    started: Option<PromisedHandle<T, P>>,
) -> Option<T>
    ensures { IfSome result (λ t. (h : _) × (started ≡ Some h) × P.kept_by h.promise t) }
{
    match started {
        Some(handle) => Some(handle.join(rt)),
        None => None,
    }
}
