//! A bench: the sequential interlock of a plan with its history, for simulations and tests.
ghost use Rattle.plan_controller.specs.Benches.{IsHistory};

use crate::line::PlanLine;
use plan_rules::{State, apply};
use plan_types::{Answer, Call, Event, Plan};
use std::alloc::Global;

/// A sequential interlock of a plan that stores its history and the state that it opened with.
///
/// It serves one machine at a time, chosen by [`PlanBench::seat`]; at first machine 0. Out of memory it makes no call.
#[derive(Drop)]
pub struct PlanBench {
    plan: Plan,
    opening: State,
    state: State,
    history: Vec<Event>,
    machine: u8,
    ghost kept: { ∥ IsHistory plan opening state history.items ∥₁ },
}

impl PlanBench {
    ghost use Rattle.std.specs.Prelude.{◌≡◌, []};
    ghost use Rattle.plan_rules.specs.Sound.{IsSound};
    ghost use Rattle.plan_controller.specs.BenchView.{desk_of};

    /// A bench by a plan that opens with this state. It allocates nothing until the first call.
    pub fn new(alloc: Global, plan: Plan, opening: State) -> PlanBench
        requires { IsSound plan opening }
        ensures { desk_of result ≡ record {
          table = plan;
          opening = opening;
          state = opening;
          history = [];
          machine = 0;
        } }
    {
        let _ = plan.machines();
        PlanBench {
            plan,
            opening,
            state: opening,
            history: Vec::new(alloc),
            machine: 0,
        }
    }

    /// Chooses the machine that calls until the next seating.
    pub fn seat(&mut self, machine: u8)
        ensures { desk_of self.new ≡ record (desk_of self.old) { machine = machine } }
    {
        self.machine = machine;
    }

    /// The state that the history leads to.
    pub fn state(&self) -> State
        ensures { result ≡ (desk_of self.now).state }
    {
        self.state
    }

    /// Each call that was answered since the opening, the oldest first.
    pub fn history(&self) -> &[Event]
        ensures { result.now ≡ (desk_of self.now).history }
    {
        &self.history
    }
}

impl PlanLine for PlanBench {
    ghost use Rattle.std.proofs.Math.Logic.{∥∥₁_elim};
    ghost use Rattle.plan_controller.specs.Benches.{BenchAsks, IsPlan-prop, IsSound-prop, IsLegal-prop};
    ghost use Rattle.plan_controller.specs.BenchView.{desk_of};

    ghost table = { λ b. b.plan };

    ghost machine = { λ b. b.machine };

    ghost opening = { λ b. b.opening };

    ghost seen = { λ b. b.history.items };

    // What a call answers and leaves.
    ghost asks = { λ b call answer d. BenchAsks (desk_of b) call answer (desk_of d) };

    ghost plan = { λ b. ∥∥₁_elim b.kept (IsPlan-prop b.plan) (λ k. k.plan) };

    ghost sound = { λ b. ∥∥₁_elim b.kept (IsSound-prop b.plan b.opening) (λ k. k.sound) };

    ghost legal = { λ b. ∥∥₁_elim b.kept (IsLegal-prop b.plan b.opening b.history.items) (λ k. k.legal) };

    fn machine(&self) -> u8 {
        self.machine
    }

    fn ask(&mut self, call: Call) -> Option<Answer> {
        let machine = self.machine;
        let mut state = self.state;
        let answer = apply(&self.plan, &mut state, machine, call);
        let event = Event {
            machine,
            call,
            answer,
        };
        match self.history.push(event) {
            Ok(()) => {
                self.state = state;
                Some(answer)
            }
            Err(_) => None,
        }
    }
}
