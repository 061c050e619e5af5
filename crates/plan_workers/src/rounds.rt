//! Rounds of machines at work: each is over an interlock of its own.

use crate::journal::PlanEntry;
use plan_controller::PlanController;
use plan_rules::State;
use std::alloc::{AllocError, AllocFailed};

/// A machine between two interlocks: it goes on where its controller is, by a new pass.
#[derive(Drop)]
pub struct PlanMachine<D> {
    /// Its controller: its program, its place in it, and what has stopped it.
    pub controller: PlanController,
    /// Its devices.
    pub devices: D,
}

/// What was noted of a round: what an audit takes.
#[derive(Drop)]
pub struct PlanRound {
    /// The state that its interlock opened with. Its stamp is 0.
    pub opening: State,
    /// The journal of each machine, by its number.
    pub journals: Vec<Vec<PlanEntry>>,
    /// The state that its interlock left.
    pub end: State,
}

/// Takes what was noted of each round. A sink that keeps nothing needs no memory, however many rounds there are.
pub trait PlanRoundSink {
    ghost use Rattle.std.specs.Prelude.{Result, ⊤};
    ghost use Rattle.plan_workers.specs.declared.rounds.PlanRound.{PlanRound};

    /// Why it fails.
    type Fault;

    // The sink before, the round, what came back, the sink after. The default is anything.
    ghost takes: { Self → PlanRound → Result (Unit {0}) Self.Fault → Self → Type 0 } = { λ _ _ _ _. ⊤ };

    /// Takes what was noted of a round. An error ends the run.
    fn take(&mut self, round: PlanRound) -> Result<(), Self::Fault>
        ensures { takes self.old round result self.new };
}

/// How machines go from one interlock to the next.
#[derive(Clone, Copy, Debug, PartialEq, Eq)]
pub struct PlanRenewal {
    /// How many exchanges a call may lose before it is Busy: 1 to 64.
    pub tries: u8,
    /// How many turns each machine has in a round, at most.
    pub turns: u32,
    /// How many rounds there are.
    pub rounds: u32,
}

/// The machines of a plan between two interlocks.
#[derive(Drop)]
pub struct PlanPause<D> {
    /// The machines, by their numbers.
    pub machines: Vec<PlanMachine<D>>,
    /// The state that the last interlock has left, or that the first one is to open with.
    pub state: State,
}

/// Why a run over many interlocks ends early.
#[derive(Clone, Copy, Debug, PartialEq, Eq)]
pub enum PlanRenewalFault<E> {
    /// Memory ran out.
    Memory,
    /// An interlock was worn: it has left the last stamp.
    Worn,
    /// The sink failed, with this error.
    Sink(E),
}

impl<E> From<AllocError> for PlanRenewalFault<E> {
    fn from(_fault: AllocError) -> PlanRenewalFault<E> {
        PlanRenewalFault::Memory
    }
}

impl<T: Drop, E> From<AllocFailed<T>> for PlanRenewalFault<E> {
    fn from(_fault: AllocFailed<T>) -> PlanRenewalFault<E> {
        PlanRenewalFault::Memory
    }
}
