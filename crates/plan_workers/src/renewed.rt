//! The machines of a plan at work over one interlock after another.
ghost use Rattle.std.specs.Prelude.{◌≡◌, ◌≤◌, IfOk, All, length, map};
ghost use Rattle.word_interlock.specs.Bunches.{fresh_passes};
ghost use Rattle.plan_interlock.specs.Book.{plan_book, plan_of};
ghost use Rattle.plan_workers.specs.Renewing.{AreReadyAt, HasRenewed, TakesRound};
ghost use Rattle.plan_workers.specs.Renewing.{given_back, jobs_from, left_by, round_moment, watch_alone};

use crate::devices::PlanDevices;
use crate::gate::PlanGate;
use crate::journal::PlanEntry;
use crate::record::{PlanRecorded, record_in_threads};
use crate::renewal::open_from;
use crate::rounds::{
    PlanMachine, PlanPause, PlanRenewal, PlanRenewalFault, PlanRound, PlanRoundSink,
};
use crate::run::{PlanJob, PlanWorked};
use plan_interlock::{PlanInterlock, PlanRules};
use plan_rules::{LAST_STAMP, State};
use plan_types::Plan;
use std::alloc::{AllocError, Global};
use std::thread::Threads;
use word_interlock::Passes;

/// Lets the machines of a plan work in rounds, each over an interlock of its own. In a round each machine works by a
/// new pass, from where it was, in a thread of its own, and keeps a journal, as by [`record_in_threads`]; at its end
/// its motors are off. The interlock opens with the state that the one before it left, with stamp 0. The sink takes
/// what was noted, which it may audit.
///
/// A machine that a refusal has stopped stays so. A gate is asked by the number of the turn in its round.
///
/// So that no interlock is worn, let all machines together have fewer turns in a round than [`LAST_STAMP`] says: law
/// [`crate::laws::turns_leave_room`].
///
/// Errors, each of which ends the run:
/// - `Memory` if memory ran out; then the sink has taken the rounds before;
/// - `Sink` if the sink failed;
/// - `Worn` if an interlock has left the last stamp; the sink has taken that round.
pub fn work_renewed<R, D, G, S>(
    rt: &R,
    alloc: Global,
    plan: &Plan,
    begun: PlanPause<D>,
    renewal: PlanRenewal,
    gate: &G,
    sink: &mut S,
) -> Result<PlanPause<D>, PlanRenewalFault<S::Fault>>
where
    R: Threads + Sync,
    D: PlanDevices + Send + Drop,
    G: PlanGate + Sync,
    S: PlanRoundSink,
    requires tries { (1 ≤ renewal.tries) × (renewal.tries ≤ 64) }
    requires ready { AreReadyAt plan.now begun.state begun.machines.items }
    ensures rounds { IfOk result (λ left. HasRenewed D.reads D.drives S.takes plan.now renewal.tries
        renewal.turns (G.may_answer gate.now) renewal.rounds
        (round_moment begun.machines.items begun.state sink.old)
        (round_moment left.machines.items left.state sink.new)) }
    ensures ready { IfOk result (λ left. AreReadyAt plan.now left.state left.machines.items) }
{
    let mut pause = begun;
    for _round in 0..renewal.rounds {
        pause = take_round(rt, alloc, plan, pause, renewal, gate, sink)?;
    }
    Ok(pause)
}

/// One round.
fn take_round<R, D, G, S>(
    rt: &R,
    alloc: Global,
    plan: &Plan,
    before: PlanPause<D>,
    renewal: PlanRenewal,
    gate: &G,
    sink: &mut S,
) -> Result<PlanPause<D>, PlanRenewalFault<S::Fault>>
where
    R: Threads + Sync,
    D: PlanDevices + Send + Drop,
    G: PlanGate + Sync,
    S: PlanRoundSink,
    requires tries { (1 ≤ renewal.tries) × (renewal.tries ≤ 64) }
    requires ready { AreReadyAt plan.now before.state before.machines.items }
    ensures round { IfOk result (λ left. TakesRound D.reads D.drives S.takes plan.now renewal.tries
        renewal.turns (G.may_answer gate.now)
        (round_moment before.machines.items before.state sink.old)
        (round_moment left.machines.items left.state sink.new)) }
    ensures ready { IfOk result (λ left. AreReadyAt plan.now left.state left.machines.items) }
{
    gate.begin();
    let PlanPause { machines, state } = before;
    let Some((interlock, mut passes)) = open_from(alloc, plan, &state, renewal.tries) else {
        return Err(PlanRenewalFault::Memory);
    };
    let opening = State { stamp: 0, ..state };
    let jobs = jobs_of(alloc, plan, &interlock, &mut passes, machines)?;
    let backs = record_in_threads(rt, alloc, &interlock, jobs, gate, renewal.turns)?;
    let (machines, journals) = take_apart(alloc, &interlock, &mut passes, backs)?;
    let end = interlock.close(passes);
    let round = PlanRound {
        opening,
        journals,
        end,
    };
    if let Err(fault) = sink.take(round) {
        return Err(PlanRenewalFault::Sink(fault));
    }
    if end.stamp >= LAST_STAMP {
        return Err(PlanRenewalFault::Worn);
    }
    Ok(PlanPause {
        machines,
        state: end,
    })
}

/// The jobs of a plan's machines, by the passes of a new interlock. The watch's pass stays.
fn jobs_of<D: Drop>(
    alloc: Global,
    plan: &Plan,
    interlock: &PlanInterlock,
    passes: &mut Passes<PlanRules>,
    machines: Vec<PlanMachine<D>>,
) -> Result<Vec<PlanJob<D>>, AllocError>
    requires plan { plan_of interlock.now.rules ≡ plan.now }
    requires fresh { passes.old ≡ fresh_passes interlock.now (plan_book plan.now).actors }
    requires all { length machines.items ≡ plan.now.machines }
    ensures table { passes.new.table ≡ interlock.now.table }
    ensures watch { IfOk result (λ _. passes.new.actors ≡ watch_alone interlock.now) }
    ensures jobs { IfOk result (λ jobs. jobs.items ≡ jobs_from interlock.now 0 machines.items) }
{
    let _few = plan.machines();
    let mut jobs = Vec::new(alloc);
    let mut number: u8 = 0;
    'machines: for machine in machines {
        let PlanMachine {
            controller,
            devices,
        } = machine;
        let pass = interlock.take_pass(passes, number);
        jobs.push(PlanJob {
            pass,
            controller,
            devices,
        })?;
        number += 1;
    }
    Ok(jobs)
}

/// Machines that have worked, apart from their passes, which are given back, and from their journals.
fn take_apart<D: Drop>(
    alloc: Global,
    interlock: &PlanInterlock,
    passes: &mut Passes<PlanRules>,
    backs: Vec<PlanRecorded<D>>,
) -> Result<(Vec<PlanMachine<D>>, Vec<Vec<PlanEntry>>), AllocError>
    requires table { passes.old.table ≡ interlock.now.table }
    requires own { All (λ back. back.worked.pass.table ≡ interlock.now.table) backs.items }
    ensures table { passes.new.table ≡ interlock.now.table }
    ensures passes { IfOk result
        (λ _. passes.new.actors ≡ given_back passes.old.actors backs.items) }
    ensures machines { IfOk result (λ parts. parts.0.items ≡ map left_by backs.items) }
    ensures journals { IfOk result
        (λ parts. parts.1.items ≡ map (λ back. back.journal) backs.items) }
{
    let mut machines = Vec::new(alloc);
    let mut journals = Vec::new(alloc);
    'backs: for back in backs {
        let PlanRecorded { worked, journal } = back;
        let PlanWorked {
            pass,
            controller,
            devices,
            ..
        } = worked;
        interlock.give_back(passes, pass);
        machines.push(PlanMachine {
            controller,
            devices,
        })?;
        journals.push(journal)?;
    }
    Ok((machines, journals))
}
