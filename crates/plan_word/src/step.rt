//! Calls on a word: the answer, and the word after it.
ghost use Rattle.std.specs.Prelude.{◌≡◌, ◌≢◌, ◌↔◌, Some, IsNone};
ghost use Rattle.plan_rules.specs.declared.state.State.{State};
ghost use Rattle.plan_rules.specs.Reply.{reply, next};
ghost use Rattle.plan_word.specs.Layout.{counts_of};
ghost use Rattle.plan_word.specs.OfPlan.{IsOfPlan};
ghost use Rattle.plan_word.specs.Packed.{packed};

use crate::answer::answer_word;
use crate::layout::Layout;
use crate::word::{pack, unpack};
use plan_rules::apply;
use plan_types::{Answer, Call, Plan};

/// Makes a call on a word. Returns the interlock's answer and the word of the state after it: the same word unless the
/// answer is Done. `None` if the word is of no state of the plan.
pub fn step_word(
    plan: &Plan,
    layout: &Layout,
    word: u64,
    machine: u8,
    call: Call,
) -> Option<(Answer, u64)>
    requires layout { layout.now ≡ counts_of plan.now }
    ensures some { (state : State) → IsOfPlan plan.now state → packed plan.now state ≡ word
        → result ≡ Some (reply plan.now state machine call, packed plan.now (next plan.now state machine call)) }
    ensures none { IsNone result
        ↔ ((state : State) → IsOfPlan plan.now state → packed plan.now state ≢ word) }
{
    match unpack(plan, layout, word) {
        Some(mut state) => {
            let _ = plan.machines();
            let answer = apply(plan, &mut state, machine, call);
            Some((answer, pack(plan, layout, &state)))
        }
        None => None,
    }
}

/// Makes a call on the word of a state of the plan, as `step_word` does. A refusal, or what an inquiry is shown, is
/// read off the fields that the call looks at; the word is unpacked only for a call that is done.
pub fn step_state_word(
    plan: &Plan,
    layout: &Layout,
    word: u64,
    machine: u8,
    call: Call,
) -> (Answer, u64)
    requires layout { layout.now ≡ counts_of plan.now }
    requires word { (state : State) × IsOfPlan plan.now state × (packed plan.now state ≡ word) }
    ensures { (state : State) → IsOfPlan plan.now state → packed plan.now state ≡ word
        → result ≡ (
          reply plan.now state machine call,
          packed plan.now (next plan.now state machine call),
        ) }
{
    let answer = answer_word(plan, layout, word, machine, call);
    match answer {
        Answer::Done => {
            let Some(stepped) = step_word(plan, layout, word, machine, call) else {
                unreachable!()
            };
            stepped
        }
        _ => (answer, word),
    }
}
