//! Six workers over one interlock after another.
ghost use Rattle.std.specs.Prelude.{◌≡◌, ◌↔◌, IfOk, IsTrue};
ghost use Rattle.cell_rules.specs.ModelState.{ModelState};
ghost use Rattle.cell_notes.specs.declared.status.Status.TheVariants.{Fine};
ghost use Rattle.cell_threads.specs.Six.{AreReadyAt};
ghost use Rattle.cell_renewal.specs.Renewing.{AreAllFine, EndsRound, GoAllOn, GoOnAfter};
ghost use Rattle.cell_renewal.specs.Renewing.{IsTurnedOver, MayAllGoOn, MayTakeEach, MayTakeNext};
ghost use Rattle.cell_renewal.specs.Renewing.{OpensAfter, RunsRenewed};

use crate::renewed_worker::RenewedWorker;
use crate::rounds::{Leave, Round, RoundSink};
use cell_notes::Status;
use cell_rules::State;
use cell_rules::laws::states_are_sound;
use cell_threads::{Gate, RunFault, SixOf, SixRecord, Watching, run_watched};
use std::alloc::Global;
use std::sync::Wait;
use std::thread::Threads;

/// How six workers go from one interlock to the next.
#[derive(Clone, Copy, Debug)]
pub struct Renewal {
    /// The number of exchanges that a call may lose before it is Busy.
    pub tries: u8,
    /// How many turns each machine has over one interlock.
    pub turns: u32,
    /// A stamp that has passed this mark at the end of a round begins again at 0.
    pub mark: u32,
}

/// Why a run over many interlocks gives no record.
#[derive(Clone, Copy, PartialEq, Eq, Debug)]
pub enum RenewalFault<E> {
    /// A round gave no record.
    Run(RunFault),
    /// The sink failed, with this error.
    Sink(E),
}

impl<E> From<RunFault> for RenewalFault<E> {
    ghost use Rattle.std.specs.Prelude.{◌≡◌};
    ghost use Rattle.cell_renewal.specs.declared.renewed.RenewalFault.{RenewalFault};

    ghost from_gives = { λ fault renewal. renewal ≡ RenewalFault.Run fault };

    fn from(fault: RunFault) -> RenewalFault<E> {
        RenewalFault::Run(fault)
    }
}

/// Runs six workers, whose machines are the six, in rounds. In a round each takes its turns in a
/// thread of its own, as by `run_watched`, over an interlock of the round; meanwhile the watch
/// watches. The sink takes what they noted. Then each machine goes on where it was: the next
/// interlock opens with the state that the one before it left. A stamp that has passed the mark
/// begins again at 0.
///
/// Each round that the sink is handed is one that it may take, also in a run that fails later or
/// never ends.
///
/// The run ends after a round in which a worker didn't end fine: its gate refused it a turn, or its
/// machine has stopped. A gate is asked by the number of the turn in its round.
///
/// Errors:
/// - `Run` as in `run_watched`, in any round; the sink has taken the rounds before;
/// - `Sink` if the sink failed.
pub fn run_renewed<R, W1, W2, W3, W4, W5, W6, H, G, S>(
    rt: &R,
    alloc: Global,
    workers: SixOf<W1, W2, W3, W4, W5, W6>,
    watch: H,
    opening: State,
    renewal: Renewal,
    gate: &G,
    sink: &mut S,
) -> Result<
    Leave<W1::Output, W2::Output, W3::Output, W4::Output, W5::Output, W6::Output, H>,
    RenewalFault<S::Fault>,
>
where
    R: Threads + Wait + Sync,
    W1: RenewedWorker + Send,
    W2: RenewedWorker + Send,
    W3: RenewedWorker + Send,
    W4: RenewedWorker + Send,
    W5: RenewedWorker + Send,
    W6: RenewedWorker + Send,
    W1::Output: Send,
    W2::Output: Send,
    W3::Output: Send,
    W4::Output: Send,
    W5::Output: Send,
    W6::Output: Send,
    H: Watching,
    G: Gate + Sync,
    S: RoundSink,
    requires ready { AreReadyAt W1.is_ready W2.is_ready W3.is_ready W4.is_ready W5.is_ready W6.is_ready opening
        workers }
    requires may_take { MayTakeEach W1.gives_back W2.gives_back W3.gives_back W4.gives_back W5.gives_back
        W6.gives_back H.watches S.takes
        renewal.tries renewal.turns (G.may_answer gate.now) W1.ended W2.ended W3.ended W4.ended W5.ended W6.ended
        W1.goes_on W2.goes_on W3.goes_on W4.goes_on W5.goes_on W6.goes_on renewal.mark S.may_take
        (record { workers = workers; watch = watch; opening = opening; sink = sink.old }) }
    ensures rounds { IfOk result (λ left. RunsRenewed W1.gives_back W2.gives_back W3.gives_back W4.gives_back
        W5.gives_back W6.gives_back H.watches S.takes
        renewal.tries renewal.turns (G.may_answer gate.now) W1.ended W2.ended W3.ended W4.ended W5.ended W6.ended
        W1.goes_on W2.goes_on W3.goes_on W4.goes_on W5.goes_on W6.goes_on renewal.mark
        (record { workers = workers; watch = watch; opening = opening; sink = sink.old }) left sink.new) }
{
    let mut workers = workers;
    let mut watch = watch;
    let mut opening = opening;
    'rounds: for _ in rt.forever() {
        let turned = take_round(rt, alloc, workers, watch, opening, renewal, gate, sink)?;
        match turned {
            RoundEnd::GoesOn(next, watched, opened) => {
                workers = next;
                watch = watched;
                opening = opened;
            }
            RoundEnd::Ends(left) => return Ok(left),
        }
    }
    unreachable!()
}

// What comes after a round.
#[derive(Drop)]
enum RoundEnd<W1, W2, W3, W4, W5, W6, A, B, C, D, E, F, H> {
    // The workers and the watch of the next round, and the state that its interlock opens with.
    GoesOn(SixOf<W1, W2, W3, W4, W5, W6>, H, State),
    // Nothing: this is what the six and the watch left.
    Ends(Leave<A, B, C, D, E, F, H>),
}

// One round, and what comes after it.
fn take_round<R, W1, W2, W3, W4, W5, W6, H, G, S>(
    rt: &R,
    alloc: Global,
    workers: SixOf<W1, W2, W3, W4, W5, W6>,
    watch: H,
    opening: State,
    renewal: Renewal,
    gate: &G,
    sink: &mut S,
) -> Result<
    RoundEnd<
        W1,
        W2,
        W3,
        W4,
        W5,
        W6,
        W1::Output,
        W2::Output,
        W3::Output,
        W4::Output,
        W5::Output,
        W6::Output,
        H,
    >,
    RenewalFault<S::Fault>,
>
where
    R: Threads + Wait + Sync,
    W1: RenewedWorker + Send,
    W2: RenewedWorker + Send,
    W3: RenewedWorker + Send,
    W4: RenewedWorker + Send,
    W5: RenewedWorker + Send,
    W6: RenewedWorker + Send,
    W1::Output: Send,
    W2::Output: Send,
    W3::Output: Send,
    W4::Output: Send,
    W5::Output: Send,
    W6::Output: Send,
    H: Watching,
    G: Gate + Sync,
    S: RoundSink,
    requires ready { AreReadyAt W1.is_ready W2.is_ready W3.is_ready W4.is_ready W5.is_ready W6.is_ready opening
        workers }
    requires may_take { MayTakeNext W1.gives_back W2.gives_back W3.gives_back W4.gives_back W5.gives_back
        W6.gives_back H.watches S.takes
        renewal.tries renewal.turns (G.may_answer gate.now) S.may_take
        (record { workers = workers; watch = watch; opening = opening; sink = sink.old }) }
    ensures { IfOk result (λ turned. (left : _) × EndsRound W1.gives_back W2.gives_back W3.gives_back
        W4.gives_back W5.gives_back W6.gives_back H.watches S.takes
        renewal.tries renewal.turns (G.may_answer gate.now)
        (record { workers = workers; watch = watch; opening = opening; sink = sink.old }) left sink.new
        × IsTurnedOver W1.is_ready W2.is_ready W3.is_ready W4.is_ready W5.is_ready W6.is_ready
        W1.ended W2.ended W3.ended W4.ended W5.ended W6.ended
        W1.goes_on W2.goes_on W3.goes_on W4.goes_on W5.goes_on W6.goes_on renewal.mark left turned) }
{
    let left = run_round(rt, alloc, workers, watch, opening, renewal, gate, sink)?;
    Ok(turn_over(left, renewal.mark))
}

// One round. Each machine that it leaves may go on where the next interlock opens.
fn run_round<R, W1, W2, W3, W4, W5, W6, H, G, S>(
    rt: &R,
    alloc: Global,
    workers: SixOf<W1, W2, W3, W4, W5, W6>,
    watch: H,
    opening: State,
    renewal: Renewal,
    gate: &G,
    sink: &mut S,
) -> Result<
    Leave<W1::Output, W2::Output, W3::Output, W4::Output, W5::Output, W6::Output, H>,
    RenewalFault<S::Fault>,
>
where
    R: Threads + Wait + Sync,
    W1: RenewedWorker + Send,
    W2: RenewedWorker + Send,
    W3: RenewedWorker + Send,
    W4: RenewedWorker + Send,
    W5: RenewedWorker + Send,
    W6: RenewedWorker + Send,
    W1::Output: Send,
    W2::Output: Send,
    W3::Output: Send,
    W4::Output: Send,
    W5::Output: Send,
    W6::Output: Send,
    H: Watching,
    G: Gate + Sync,
    S: RoundSink,
    requires ready { AreReadyAt W1.is_ready W2.is_ready W3.is_ready W4.is_ready W5.is_ready W6.is_ready opening
        workers }
    requires may_take { MayTakeNext W1.gives_back W2.gives_back W3.gives_back W4.gives_back W5.gives_back
        W6.gives_back H.watches S.takes
        renewal.tries renewal.turns (G.may_answer gate.now) S.may_take
        (record { workers = workers; watch = watch; opening = opening; sink = sink.old }) }
    ensures ends { IfOk result (λ left. EndsRound W1.gives_back W2.gives_back W3.gives_back W4.gives_back
        W5.gives_back W6.gives_back H.watches S.takes
        renewal.tries renewal.turns (G.may_answer gate.now)
        (record { workers = workers; watch = watch; opening = opening; sink = sink.old }) left sink.new) }
    ensures may_go_on { IfOk result (λ left. (next : ModelState) → OpensAfter renewal.mark left.end next
        → MayAllGoOn W1.machine W2.machine W3.machine W4.machine W5.machine W6.machine W1.left W2.left W3.left
        W4.left W5.left W6.left
        left.outputs next) }
{
    gate.begin();
    states_are_sound(&opening);
    W1::leaves(gate);
    W2::leaves(gate);
    W3::leaves(gate);
    W4::leaves(gate);
    W5::leaves(gate);
    W6::leaves(gate);
    let Renewal { tries, turns, .. } = renewal;
    let (record, watch) = run_watched(rt, alloc, workers, watch, opening, tries, turns, gate)?;
    let SixRecord {
        start,
        journals,
        end,
        outputs,
    } = record;
    let round = Round {
        start,
        journals,
        end,
    };
    if let Err(fault) = sink.take(round) {
        return Err(RenewalFault::Sink(fault));
    }
    Ok(Leave {
        end,
        outputs,
        watch,
    })
}

// What comes after a round that left this.
fn turn_over<W1, W2, W3, W4, W5, W6, H>(
    left: Leave<W1::Output, W2::Output, W3::Output, W4::Output, W5::Output, W6::Output, H>,
    mark: u32,
) -> RoundEnd<
    W1,
    W2,
    W3,
    W4,
    W5,
    W6,
    W1::Output,
    W2::Output,
    W3::Output,
    W4::Output,
    W5::Output,
    W6::Output,
    H,
>
where
    W1: RenewedWorker,
    W2: RenewedWorker,
    W3: RenewedWorker,
    W4: RenewedWorker,
    W5: RenewedWorker,
    W6: RenewedWorker,
    H: Drop,
    requires may_go_on { (next : ModelState) → OpensAfter mark left.end next
        → MayAllGoOn W1.machine W2.machine W3.machine W4.machine W5.machine W6.machine W1.left W2.left W3.left
        W4.left W5.left W6.left
        left.outputs next }
    ensures { IsTurnedOver W1.is_ready W2.is_ready W3.is_ready W4.is_ready W5.is_ready W6.is_ready
        W1.ended W2.ended W3.ended W4.ended W5.ended W6.ended
        W1.goes_on W2.goes_on W3.goes_on W4.goes_on W5.goes_on W6.goes_on mark left result }
{
    if are_all_fine::<W1, W2, W3, W4, W5, W6>(&left.outputs) {
        let (workers, watch, opening) = go_on_after(left, mark);
        RoundEnd::GoesOn(workers, watch, opening)
    } else {
        RoundEnd::Ends(left)
    }
}

// The workers and the watch of the next round, and the state that its interlock opens with.
fn go_on_after<W1, W2, W3, W4, W5, W6, H>(
    left: Leave<W1::Output, W2::Output, W3::Output, W4::Output, W5::Output, W6::Output, H>,
    mark: u32,
) -> (SixOf<W1, W2, W3, W4, W5, W6>, H, State)
where
    W1: RenewedWorker,
    W2: RenewedWorker,
    W3: RenewedWorker,
    W4: RenewedWorker,
    W5: RenewedWorker,
    W6: RenewedWorker,
    H: Drop,
    requires may_go_on { (next : ModelState) → OpensAfter mark left.end next
        → MayAllGoOn W1.machine W2.machine W3.machine W4.machine W5.machine W6.machine W1.left W2.left W3.left
        W4.left W5.left W6.left
        left.outputs next }
    requires fine { AreAllFine W1.ended W2.ended W3.ended W4.ended W5.ended W6.ended left.outputs }
    ensures { GoOnAfter W1.is_ready W2.is_ready W3.is_ready W4.is_ready W5.is_ready W6.is_ready
        W1.ended W2.ended W3.ended W4.ended W5.ended W6.ended
        W1.goes_on W2.goes_on W3.goes_on W4.goes_on W5.goes_on W6.goes_on mark left result.0 result.1 result.2 }
{
    let Leave {
        end,
        outputs,
        watch,
    } = left;
    let opening = opening_after(&end, mark);
    let workers = all_go_on(outputs, &opening);
    (workers, watch, opening)
}

// The state that the next interlock opens with.
fn opening_after(end: &State, mark: u32) -> State
    ensures { OpensAfter mark end.now result }
{
    if mark < end.stamp() {
        end.restamped(0)
    } else {
        *end
    }
}

// Whether each of the six ended fine.
fn are_all_fine<W1, W2, W3, W4, W5, W6>(
    each: &SixOf<W1::Output, W2::Output, W3::Output, W4::Output, W5::Output, W6::Output>,
) -> bool
where
    W1: RenewedWorker,
    W2: RenewedWorker,
    W3: RenewedWorker,
    W4: RenewedWorker,
    W5: RenewedWorker,
    W6: RenewedWorker,
    ensures { IsTrue result ↔ AreAllFine W1.ended W2.ended W3.ended W4.ended W5.ended W6.ended each.now }
{
    is_fine::<W1>(&each.feed)
        && is_fine::<W2>(&each.table)
        && is_fine::<W3>(&each.robot)
        && is_fine::<W4>(&each.press)
        && is_fine::<W5>(&each.deposit)
        && is_fine::<W6>(&each.crane)
}

// Whether a worker ended fine.
fn is_fine<W: RenewedWorker>(output: &W::Output) -> bool
    ensures { IsTrue result ↔ (W.ended output.now ≡ Fine) }
{
    matches!(W::status(output), Status::Fine)
}

// The six workers that go on.
fn all_go_on<W1, W2, W3, W4, W5, W6>(
    each: SixOf<W1::Output, W2::Output, W3::Output, W4::Output, W5::Output, W6::Output>,
    opening: &State,
) -> SixOf<W1, W2, W3, W4, W5, W6>
where
    W1: RenewedWorker,
    W2: RenewedWorker,
    W3: RenewedWorker,
    W4: RenewedWorker,
    W5: RenewedWorker,
    W6: RenewedWorker,
    requires may_go_on { MayAllGoOn W1.machine W2.machine W3.machine W4.machine W5.machine W6.machine
        W1.left W2.left W3.left W4.left W5.left W6.left each opening.now }
    ensures goes_on { GoAllOn W1.goes_on W2.goes_on W3.goes_on W4.goes_on W5.goes_on W6.goes_on each
        opening.now result }
    ensures ready { AreReadyAt W1.is_ready W2.is_ready W3.is_ready W4.is_ready W5.is_ready W6.is_ready
        opening.now result }
{
    let feed = W1::go_on(each.feed, opening);
    let table = W2::go_on(each.table, opening);
    let robot = W3::go_on(each.robot, opening);
    let press = W4::go_on(each.press, opening);
    let deposit = W5::go_on(each.deposit, opening);
    let crane = W6::go_on(each.crane, opening);
    SixOf {
        feed,
        table,
        robot,
        press,
        deposit,
        crane,
    }
}
