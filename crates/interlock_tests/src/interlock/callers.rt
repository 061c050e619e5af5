//! Callers who make their calls by single steps, so a table can say how the calls overlap. None of
//! them may wait: see `waiting.rt`.
ghost use Rattle.cell_interlock.specs.Ends.{ArePassesOf, IsPassOf};
ghost use Rattle.cell_interlock.specs.Tries.{after_look};
ghost use Rattle.interlock_tests.specs.Held.{IsOwn, IsHeld, AreHeld};

use cell_interlock::{Interlock, Look, Pass, Passes, Tried, Try};
use cell_types::{Answer, Call, Machine, Reply};

/// A step of a caller.
#[derive(Clone, Copy)]
pub enum Step {
    /// A whole call.
    Ask(Call),
    Look(Call),
    Attempt,
    Abandon,
}

/// The outcome of a step.
#[derive(Clone, Copy, PartialEq, Eq)]
pub enum StepOutcome {
    Settled(Answer, u32),
    Busy(u8, u32),
    Pending,
    Lost,
    Abandoned,
    /// Its caller can't take this step now.
    OutOfTurn,
}

/// What a caller has when a step begins: its pass, or a call that isn't made yet.
pub type Own = Result<Pass, Try>;

/// What a caller holds: `None` only while it takes a step.
pub type Held = Option<Own>;

/// What the callers hold, in the order of the machines.
pub type Callers = (Held, Held, Held, Held, Held, Held, Held);

fn outcome_of(reply: Reply) -> StepOutcome {
    match reply {
        Reply::Settled(answer, stamp) => StepOutcome::Settled(answer, stamp),
        Reply::Busy { lost, stamp } => StepOutcome::Busy(lost, stamp),
    }
}

/// What a machine's caller has after a look.
pub fn own_in(interlock: &Interlock, machine: Machine, look: Look) -> (Own, StepOutcome)
    requires { IsPassOf interlock.now machine (after_look look) }
    ensures { IsOwn interlock.now machine result.0 }
{
    let _ = interlock;
    let _ = machine;
    match look {
        Look::Settled(answer, stamp, pass) => (Ok(pass), StepOutcome::Settled(answer, stamp)),
        Look::Pending(pending) => (Err(pending), StepOutcome::Pending),
    }
}

fn after_attempt(interlock: &Interlock, machine: Machine, pending: Try) -> (Own, StepOutcome)
    requires { IsPassOf interlock.now machine pending.pass }
    ensures { IsOwn interlock.now machine result.0 }
{
    let _ = machine;
    match interlock.attempt(pending) {
        Tried::Settled(answer, stamp, pass) => (Ok(pass), StepOutcome::Settled(answer, stamp)),
        Tried::Lost(pending) => (Err(pending), StepOutcome::Lost),
        Tried::Busy { lost, stamp, pass } => (Ok(pass), StepOutcome::Busy(lost, stamp)),
    }
}

/// Takes a step with what a machine's caller has, and returns what it has afterwards.
fn after_step(interlock: &Interlock, machine: Machine, own: Own, step: Step) -> (Own, StepOutcome)
    requires { IsOwn interlock.now machine own }
    ensures { IsOwn interlock.now machine result.0 }
{
    match (own, step) {
        (Ok(mut pass), Step::Ask(call)) => {
            let reply = interlock.ask(&mut pass, call);
            (Ok(pass), outcome_of(reply))
        }
        (Ok(pass), Step::Look(call)) => own_in(interlock, machine, interlock.look(pass, call)),
        (Err(pending), Step::Attempt) => after_attempt(interlock, machine, pending),
        (Err(pending), Step::Abandon) => (Ok(pending.abandon()), StepOutcome::Abandoned),
        (own, _) => (own, StepOutcome::OutOfTurn),
    }
}

/// A machine's caller takes a step with what it holds.
fn take_step(interlock: &Interlock, machine: Machine, held: &mut Held, step: Step) -> StepOutcome
    requires { IsHeld interlock.now machine held.old }
    ensures { IsHeld interlock.now machine held.new }
{
    let Some(own) = held.take() else {
        unreachable!()
    };
    let (after, outcome) = after_step(interlock, machine, own, step);
    *held = Some(after);
    outcome
}

/// A machine's caller takes a step.
pub fn make_step(
    interlock: &Interlock,
    callers: &mut Callers,
    machine: Machine,
    next: Step,
) -> StepOutcome
    requires { AreHeld interlock.now callers.old }
    ensures { AreHeld interlock.now callers.new }
{
    match machine {
        Machine::Feed => take_step(interlock, machine, &mut callers.0, next),
        Machine::Table => take_step(interlock, machine, &mut callers.1, next),
        Machine::Robot => take_step(interlock, machine, &mut callers.2, next),
        Machine::Press => take_step(interlock, machine, &mut callers.3, next),
        Machine::Deposit => take_step(interlock, machine, &mut callers.4, next),
        Machine::Crane => take_step(interlock, machine, &mut callers.5, next),
        Machine::Watch => take_step(interlock, machine, &mut callers.6, next),
    }
}

/// Callers with their passes.
pub fn callers_by(interlock: &Interlock, passes: Passes) -> Callers
    requires { ArePassesOf interlock.now passes }
    ensures { AreHeld interlock.now result }
{
    let _ = interlock;
    (
        Some(Ok(passes.feed)),
        Some(Ok(passes.table)),
        Some(Ok(passes.robot)),
        Some(Ok(passes.press)),
        Some(Ok(passes.deposit)),
        Some(Ok(passes.crane)),
        Some(Ok(passes.watch)),
    )
}

/// The pass of a machine's caller. A pending call is abandoned.
pub fn pass_in(interlock: &Interlock, machine: Machine, held: Held) -> Pass
    requires { IsHeld interlock.now machine held }
    ensures { IsPassOf interlock.now machine result }
{
    let _ = interlock;
    let _ = machine;
    match held {
        Some(Ok(pass)) => pass,
        Some(Err(pending)) => pending.abandon(),
        None => unreachable!(),
    }
}

/// The passes of the callers. Pending calls are abandoned.
pub fn passes_in(interlock: &Interlock, callers: Callers) -> Passes
    requires { AreHeld interlock.now callers }
    ensures { ArePassesOf interlock.now result }
{
    Passes {
        feed: pass_in(interlock, Machine::Feed, callers.0),
        table: pass_in(interlock, Machine::Table, callers.1),
        robot: pass_in(interlock, Machine::Robot, callers.2),
        press: pass_in(interlock, Machine::Press, callers.3),
        deposit: pass_in(interlock, Machine::Deposit, callers.4),
        crane: pass_in(interlock, Machine::Crane, callers.5),
        watch: pass_in(interlock, Machine::Watch, callers.6),
    }
}
