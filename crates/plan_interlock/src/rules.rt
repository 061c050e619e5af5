//! The rules of a plant.
ghost use Rattle.std.specs.Prelude.{◌≡◌};

use plan_compiled::Compiled;
use plan_rules::State;
use plan_types::{Answer, Call, Event, Plan};
use plan_word::{pack, stamp_of, unpack};
use word_interlock::Rules;

/// The rules of a plant: its plan, compiled.
#[derive(Drop)]
pub struct PlanRules {
    plan: Compiled,
}

impl PlanRules {
    ghost use Rattle.plan_interlock.specs.Book.{plan_of};

    /// The rules by a plan.
    pub fn new(plan: Plan) -> PlanRules
        ensures { plan_of result ≡ plan }
    {
        let plan = Compiled::new(plan);
        PlanRules { plan }
    }

    /// The plan.
    pub fn plan(&self) -> &Plan
        ensures { result.now ≡ plan_of self.now }
    {
        self.plan.plan()
    }
}

impl Rules for PlanRules {
    ghost use Rattle.plan_interlock.specs.Book.{plan_book};
    ghost use Rattle.plan_interlock.specs.BookKept.{plan_is_rule_book};

    type State = State;

    type Actor = u8;

    type Call = Call;

    type Answer = Answer;

    type Event = Event;

    ghost book = { λ rules. plan_book rules.plan.table };

    fn step(&self, word: u64, actor: u8, call: Call) -> (Answer, u64) {
        self.plan.step_state_word(word, actor, call)
    }

    fn is_done(&self, answer: Answer) -> bool {
        matches!(answer, Answer::Done)
    }

    fn stamp_of(&self, word: u64) -> u32 {
        stamp_of(&self.plan.layout(), word)
    }

    fn pack(&self, state: &State) -> u64 {
        pack(self.plan.plan(), &self.plan.layout(), state)
    }

    fn unpack(&self, word: u64) -> State {
        let Some(state) = unpack(self.plan.plan(), &self.plan.layout(), word) else {
            unreachable!()
        };
        state
    }

    ghost lawful = { λ rules. plan_is_rule_book rules.plan.table };
}
