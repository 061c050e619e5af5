//! A bench: the sequential interlock with its history, for simulations and tests.
ghost use Rattle.cell_rules.specs.Stored.{IsHistory};

use crate::answers::{answer, apply_answer};
use crate::heard::{Answered, Heard, LineFault};
use crate::line::Line;
use crate::state::State;
use cell_types::{Call, Event, Machine, Reply};
use std::alloc::Global;

// How the last call ended. A call that was settled is the last event of the history.
#[derive(Clone, Copy)]
enum LastCall {
    Nothing,
    Settled,
    Busy(Call),
    OutOfMemory(Call),
}

/// A sequential interlock that stores its history and the state that it opened with.
///
/// It serves one caller at a time, chosen by [`Bench::seat`]; at first the watch. Out of memory
/// changes nothing but what was heard.
#[derive(Drop)]
pub struct Bench {
    opening: State,
    state: State,
    history: Vec<Event>,
    machine: Machine,
    busy: bool,
    asks: u64,
    last_call: LastCall,
    ghost kept: { ∥ IsHistory opening state history.items ∥₁ },
}

impl Bench {
    ghost use Rattle.std.specs.Prelude.{◌≡◌, false, []};
    ghost use Rattle.cell_rules.specs.History.{after};
    ghost use Rattle.cell_rules.specs.Laws.{LawfulThroughout};
    ghost use Rattle.cell_rules.specs.Seen.{heard_nothing};
    ghost use Rattle.cell_rules.specs.BenchView.{desk_of, heard_of};

    /// A bench that opens with this state. It allocates nothing until the first call.
    pub fn new(alloc: Global, opening: State) -> Bench
        ensures desk { desk_of result ≡ record {
          opening = opening;
          state = opening;
          history = [];
          machine = Machine.Watch;
          busy = false;
        } }
        ensures heard { heard_of result ≡ heard_nothing }
    {
        let _ = &opening.stamp;
        Bench {
            opening,
            state: opening,
            history: Vec::new(alloc),
            machine: Machine::Watch,
            busy: false,
            asks: 0,
            last_call: LastCall::Nothing,
        }
    }

    /// Chooses the caller until the next seating, and whether the caller finds the bench busy: its
    /// calls are then not made, and answered `Busy` with one failed try.
    pub fn seat(&mut self, machine: Machine, busy: bool)
        ensures desk { desk_of self.new
            ≡ record (desk_of self.old) { machine = machine; busy = busy } }
        ensures heard { heard_of self.new ≡ heard_of self.old }
    {
        self.machine = machine;
        self.busy = busy;
    }

    /// The state that the history leads to.
    #[tactic(auto, using(crate::proofs::lemmas::SeenLemmas::state_reached))]
    pub fn state(&self) -> State
        ensures state { result ≡ (desk_of self.now).state }
        ensures reached { result ≡ after (desk_of self.now).opening (desk_of self.now).history }
    {
        self.state
    }

    /// Each call that was answered since the opening, the oldest first.
    pub fn history(&self) -> &[Event]
        ensures events { result.now ≡ (desk_of self.now).history }
        ensures lawful { LawfulThroughout (desk_of self.now).opening result.now }
    {
        &self.history
    }

    // The last call, and what came back. Only a bench's own calls change its state, so the stamp that
    // came back is that of the state.
    fn last_heard(&self) -> Option<(Call, Answered)>
        ensures { result ≡ (heard_of self.now).last }
    {
        let stamp = self.state.stamp();
        match self.last_call {
            LastCall::Nothing => None,
            LastCall::Settled => match self.history.last() {
                Some(event) => Some((event.call, Ok(Reply::Settled(event.answer, stamp)))),
                None => None,
            },
            LastCall::Busy(call) => Some((call, Ok(Reply::Busy { lost: 1, stamp }))),
            LastCall::OutOfMemory(call) => Some((call, Err(LineFault::Memory))),
        }
    }
}

impl Line for Bench {
    ghost use Rattle.std.proofs.Math.Logic.{∥∥₁_elim};
    ghost use Rattle.cell_rules.specs.Stored.{IsSound-prop, IsLegal-prop};
    ghost use Rattle.cell_rules.specs.Benches.{BenchAsks};
    ghost use Rattle.cell_rules.specs.BenchView.{desk_of, heard_of};

    ghost machine = { λ b. b.machine };

    ghost opening = { λ b. b.opening };

    ghost seen = { λ b. b.history.items };

    ghost heard = { heard_of };

    // What a call answers and leaves; Busy exactly if `seat` said so.
    ghost asks = { λ b call r d. BenchAsks (desk_of b) call r (desk_of d) };

    ghost sound = { λ b. ∥∥₁_elim b.kept (IsSound-prop b.opening) (λ k. k.sound) };

    ghost legal = { λ b. ∥∥₁_elim b.kept (IsLegal-prop b.opening b.history.items) (λ k. k.legal) };

    fn machine(&self) -> Machine {
        self.machine
    }

    fn heard(&self) -> Heard {
        Heard {
            asks: self.asks,
            last: self.last_heard(),
        }
    }

    // inline, so that the answer need not pass through memory
    #[inline(always)]
    fn ask(&mut self, call: Call) -> Result<Reply, LineFault> {
        self.asks = self.asks.wrapping_add(1);
        if self.busy {
            self.last_call = LastCall::Busy(call);
            return Ok(Reply::Busy {
                lost: 1,
                stamp: self.state.stamp(),
            });
        }
        let machine = self.machine;
        let answer = answer(&self.state, machine, call);
        let event = Event {
            machine,
            call,
            answer,
        };
        match self.history.push(event) {
            Ok(()) => {
                apply_answer(&mut self.state, machine, call, answer);
                self.last_call = LastCall::Settled;
                Ok(Reply::Settled(answer, self.state.stamp()))
            }
            Err(_) => {
                self.last_call = LastCall::OutOfMemory(call);
                Err(LineFault::Memory)
            }
        }
    }
}
