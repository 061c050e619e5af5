//! Six workers in threads, and their watch.
ghost use Rattle.std.specs.Prelude.{IfSome};
ghost use Rattle.cell_threads.specs.Promises.{AreAllFresh, AreKept, ArePromised, AreReady, AreStartedInTurn};
ghost use Rattle.cell_threads.specs.Watching.{HaveWorked, MayBegin};

use crate::gate::Gate;
use crate::six_of::{SixOf, SixPasses, SixResults, all_six};
use crate::start::{WorkerContext, WorkerPromise, join, start};
use crate::watching::Watching;
use crate::worker::Worker;
use crate::worker_result::WorkerResult;
use cell_interlock::Pass;
use std::sync::Wait;
use std::thread;
use std::thread::{PromisedHandle, Scope, Threads};

// A worker's handle, or `None` if it wasn't started.
type WorkerHandle<T, W, G> = Option<PromisedHandle<WorkerResult<T>, WorkerPromise<W, G>>>;

/// Starts six workers, each in a thread of its own, watches, and joins them.
///
/// Returns `None` if one couldn't be started; those before it have ended.
pub(crate) fn run_in_threads<R, W1, W2, W3, W4, W5, W6, H, G>(
    rt: &R,
    context: &WorkerContext<'_, G>,
    passes: SixPasses,
    workers: SixOf<W1, W2, W3, W4, W5, W6>,
    pass: Pass,
    watch: H,
) -> Option<
    (
        SixResults<W1::Output, W2::Output, W3::Output, W4::Output, W5::Output, W6::Output>,
        WorkerResult<H>,
    ),
>
where
    R: Threads + Wait,
    W1: Worker + Send,
    W2: Worker + Send,
    W3: Worker + Send,
    W4: Worker + Send,
    W5: Worker + Send,
    W6: Worker + Send,
    W1::Output: Send,
    W2::Output: Send,
    W3::Output: Send,
    W4::Output: Send,
    W5::Output: Send,
    W6::Output: Send,
    H: Watching,
    G: Gate + Sync,
    requires begins { MayBegin W1.is_ready W2.is_ready W3.is_ready W4.is_ready W5.is_ready W6.is_ready
        context.now.interlock.now workers passes pass }
    ensures { IfSome result (λ back. HaveWorked W1.gives_back W2.gives_back W3.gives_back W4.gives_back W5.gives_back
        W6.gives_back H.watches workers watch passes pass context.now.interlock.now.tries
        (G.may_answer context.now.gate.now) context.now.turns back.0 back.1) }
{
    thread::scope(
        thread::scope_env(),
        rt,
        move |scope| -> Option<
            (
                SixResults<W1::Output, W2::Output, W3::Output, W4::Output, W5::Output, W6::Output>,
                WorkerResult<H>,
            ),
        >
            requires { MayBegin W1.is_ready W2.is_ready W3.is_ready W4.is_ready W5.is_ready W6.is_ready
                context.now.interlock.now workers passes pass }
            ensures { IfSome result (λ back. HaveWorked W1.gives_back W2.gives_back W3.gives_back W4.gives_back
                W5.gives_back W6.gives_back H.watches workers watch passes pass context.entry.now.interlock.now.tries
                (G.may_answer context.entry.now.gate.now) context.entry.now.turns back.0 back.1) }
        {
            let started = start_six(scope, context, passes, workers);
            let watched = watch.watch(context.alloc, context.interlock, pass);
            join_six(rt, started).zip(Some(watched))
        },
    )
}

// Starts all six, or those before the first that can't be started.
fn start_six<'s, E, W1, W2, W3, W4, W5, W6, G>(
    scope: &Scope<'s, E>,
    context: &WorkerContext<'s, G>,
    passes: SixPasses,
    workers: SixOf<W1, W2, W3, W4, W5, W6>,
) -> SixOf<
    WorkerHandle<W1::Output, W1, G>,
    WorkerHandle<W2::Output, W2, G>,
    WorkerHandle<W3::Output, W3, G>,
    WorkerHandle<W4::Output, W4, G>,
    WorkerHandle<W5::Output, W5, G>,
    WorkerHandle<W6::Output, W6, G>,
>
where
    W1: Worker + Send + 's,
    W2: Worker + Send + 's,
    W3: Worker + Send + 's,
    W4: Worker + Send + 's,
    W5: Worker + Send + 's,
    W6: Worker + Send + 's,
    W1::Output: Send,
    W2::Output: Send,
    W3::Output: Send,
    W4::Output: Send,
    W5::Output: Send,
    W6::Output: Send,
    G: Gate + Sync,
    requires fresh { AreAllFresh context.now.interlock.now passes }
    requires ready { AreReady W1.is_ready W2.is_ready W3.is_ready W4.is_ready W5.is_ready W6.is_ready workers passes }
    ensures promised { ArePromised context.now.interlock.now context.now.gate.now context.now.turns passes workers
        result }
    ensures in_turn { AreStartedInTurn result }
{
    let mut all_run = true;
    SixOf {
        feed: start(scope, context, &mut all_run, passes.feed, workers.feed),
        table: start(scope, context, &mut all_run, passes.table, workers.table),
        robot: start(scope, context, &mut all_run, passes.robot, workers.robot),
        press: start(scope, context, &mut all_run, passes.press, workers.press),
        deposit: start(
            scope,
            context,
            &mut all_run,
            passes.deposit,
            workers.deposit,
        ),
        crane: start(scope, context, &mut all_run, passes.crane, workers.crane),
    }
}

// Waits until all six have ended.
//
// Returns `None` if one wasn't started; those that were have ended.
fn join_six<R, W1, W2, W3, W4, W5, W6, G>(
    rt: &R,
    started: SixOf<
        WorkerHandle<W1::Output, W1, G>,
        WorkerHandle<W2::Output, W2, G>,
        WorkerHandle<W3::Output, W3, G>,
        WorkerHandle<W4::Output, W4, G>,
        WorkerHandle<W5::Output, W5, G>,
        WorkerHandle<W6::Output, W6, G>,
    >,
) -> Option<SixResults<W1::Output, W2::Output, W3::Output, W4::Output, W5::Output, W6::Output>>
where
    R: Threads,
    W1: Worker,
    W2: Worker,
    W3: Worker,
    W4: Worker,
    W5: Worker,
    W6: Worker,
    G: Gate,
    ensures { IfSome result (AreKept W1.gives_back W2.gives_back W3.gives_back W4.gives_back W5.gives_back
        W6.gives_back G.may_answer started) }
{
    all_six(SixOf {
        feed: join(rt, started.feed),
        table: join(rt, started.table),
        robot: join(rt, started.robot),
        press: join(rt, started.press),
        deposit: join(rt, started.deposit),
        crane: join(rt, started.crane),
    })
}
