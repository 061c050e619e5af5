//! Six workers over one interlock, and their watch.
ghost use Rattle.std.specs.Prelude.{◌≡◌, ◌<◌, ◌⊎◌, ◌↔◌, IfOk, Err};
ghost use Rattle.cell_threads.specs.Six.{AreReadyAt, TellsSix};
ghost use Rattle.cell_threads.specs.Watching.{TellsWatched};

use crate::fault::RunFault;
use crate::gate::Gate;
use crate::six_of::{SixOf, into_parts, six_and_watch};
use crate::start::WorkerContext;
use crate::threads::run_in_threads;
use crate::watching::{NoWatch, Watching};
use crate::worker::Worker;
use crate::worker_result::WorkerResult;
use cell_interlock::Interlock;
use cell_rules::State;
use cell_types::Journals;
use std::alloc::Global;
use std::sync::Wait;
use std::thread::Threads;

/// The record of six workers over one interlock.
#[derive(Drop)]
pub struct SixRecord<A, B, C, D, E, F> {
    /// The state that the interlock opened with.
    pub start: State,
    /// What each machine noted of its settled calls; by `run_workers` the watch's journal is empty.
    pub journals: Journals,
    /// The state that the interlock closed with.
    pub end: State,
    /// What else each worker gave back.
    pub outputs: SixOf<A, B, C, D, E, F>,
}

/// Runs six workers, whose machines are the six. Each takes up to `turns` turns in a thread of its
/// own. All six share one interlock, which opens with `opening` and on which a call may lose `tries`
/// exchanges. After joining all six it closes the interlock, whose last state is the record's end.
///
/// The gate is told of each machine that takes no more turns: its worker has ended, or its thread
/// couldn't be started.
///
/// Errors:
/// - `Tries` if `tries` isn't 1 to 64; it is checked first;
/// - `Memory` if there is no memory for the interlock;
/// - `Spawn` if a thread couldn't be started; the workers that had begun have ended, and nothing is
///   closed.
pub fn run_workers<R, W1, W2, W3, W4, W5, W6, G>(
    rt: &R,
    alloc: Global,
    workers: SixOf<W1, W2, W3, W4, W5, W6>,
    opening: State,
    tries: u8,
    turns: u32,
    gate: &G,
) -> Result<
    SixRecord<W1::Output, W2::Output, W3::Output, W4::Output, W5::Output, W6::Output>,
    RunFault,
>
where
    R: Threads + Wait + Sync,
    W1: Worker + Send,
    W2: Worker + Send,
    W3: Worker + Send,
    W4: Worker + Send,
    W5: Worker + Send,
    W6: Worker + Send,
    W1::Output: Send,
    W2::Output: Send,
    W3::Output: Send,
    W4::Output: Send,
    W5::Output: Send,
    W6::Output: Send,
    G: Gate + Sync,
    requires ready { AreReadyAt W1.is_ready W2.is_ready W3.is_ready W4.is_ready W5.is_ready W6.is_ready opening
        workers }
    ensures tries { (result ≡ Err RunFault.Tries) ↔ ((tries < 1) ⊎ (64 < tries)) }
    ensures work { IfOk result (TellsSix W1.gives_back W2.gives_back W3.gives_back W4.gives_back W5.gives_back
        W6.gives_back workers opening tries turns (G.may_answer gate.now)) }
{
    match run_watched(rt, alloc, workers, NoWatch, opening, tries, turns, gate) {
        Ok((record, _)) => Ok(record),
        Err(fault) => Err(fault),
    }
}

/// Runs six workers as `run_workers` does, and a watch with them. Once all six are started, it
/// watches in the thread of the caller, and after that they are joined. The record has the watch's
/// journal too. Gives back the watch as it was after that.
///
/// Errors: as in `run_workers`. If a thread couldn't be started, the watch has watched the others.
pub fn run_watched<R, W1, W2, W3, W4, W5, W6, H, G>(
    rt: &R,
    alloc: Global,
    workers: SixOf<W1, W2, W3, W4, W5, W6>,
    watch: H,
    opening: State,
    tries: u8,
    turns: u32,
    gate: &G,
) -> Result<
    (
        SixRecord<W1::Output, W2::Output, W3::Output, W4::Output, W5::Output, W6::Output>,
        H,
    ),
    RunFault,
>
where
    R: Threads + Wait + Sync,
    W1: Worker + Send,
    W2: Worker + Send,
    W3: Worker + Send,
    W4: Worker + Send,
    W5: Worker + Send,
    W6: Worker + Send,
    W1::Output: Send,
    W2::Output: Send,
    W3::Output: Send,
    W4::Output: Send,
    W5::Output: Send,
    W6::Output: Send,
    H: Watching,
    G: Gate + Sync,
    requires ready { AreReadyAt W1.is_ready W2.is_ready W3.is_ready W4.is_ready W5.is_ready W6.is_ready opening
        workers }
    ensures tries { (result ≡ Err RunFault.Tries) ↔ ((tries < 1) ⊎ (64 < tries)) }
    ensures work { IfOk result (λ back. TellsWatched W1.gives_back W2.gives_back W3.gives_back W4.gives_back
        W5.gives_back W6.gives_back H.watches workers watch opening tries turns (G.may_answer gate.now)
        back.0 back.1) }
{
    let (interlock, passes) = Interlock::new(alloc, opening, tries)?;
    let context = WorkerContext {
        alloc,
        interlock: &interlock,
        gate,
        turns,
    };
    let (passes, pass) = six_and_watch(passes);
    let Some((results, watched)) = run_in_threads(rt, &context, passes, workers, pass, watch) else {
        return Err(RunFault::Spawn);
    };
    let WorkerResult {
        pass,
        journal,
        output: watch,
    } = watched;
    let (journals, passes, outputs) = into_parts(results, pass, journal);
    let ended = interlock.close(passes);
    let record = SixRecord {
        start: opening,
        journals,
        end: ended.state,
        outputs,
    };
    Ok((record, watch))
}
