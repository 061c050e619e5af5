//! The answer to a call on a word, without the word's state.
ghost use Rattle.std.specs.Prelude.{◌≡◌};
ghost use Rattle.plan_rules.specs.declared.state.State.{State};
ghost use Rattle.plan_rules.specs.Reply as replies;
ghost use Rattle.plan_word.specs.Layout.{counts_of};
ghost use Rattle.plan_word.specs.OfPlan.{IsOfPlan};
ghost use Rattle.plan_word.specs.Packed.{packed};
ghost use Rattle.plan_word.specs.Reading.{state_told};

use crate::guards::{
    advance_refusal, claim_refusal, give_refusal, release_refusal, resume_refusal, stop_refusal,
    take_refusal, yield_refusal,
};
use crate::layout::Layout;
use crate::pose_guards::pose_refusal;
use crate::word::zone_in_word;
use plan_types::{Answer, Call, Plan, Refusal};

fn refusal(plan: &Plan, layout: &Layout, word: u64, machine: u8, call: Call) -> Option<Refusal>
    requires { layout.now ≡ counts_of plan.now }
    ensures { result ≡ replies.refusal plan.now (state_told plan.now word) machine call }
{
    match call {
        Call::Claim(zone) => claim_refusal(plan, layout, word, machine, zone),
        Call::Give(zone) => give_refusal(plan, layout, word, machine, zone),
        Call::Yield(zone) => yield_refusal(plan, layout, word, machine, zone),
        Call::Take(zone) => take_refusal(plan, layout, word, machine, zone),
        Call::Release(zone) => release_refusal(plan, layout, word, machine, zone),
        Call::SetPose(pose) => pose_refusal(plan, layout, word, machine, pose),
        Call::Inquire(zone) => (!(zone < plan.zone_count())).then_some(Refusal::NotParty),
        Call::Stop => stop_refusal(plan, layout, word, machine),
        Call::Resume => resume_refusal(plan, layout, word, machine),
        Call::Advance(place) => advance_refusal(plan, layout, word, machine, place),
    }
}

/// What a call is answered if nothing refuses it.
fn accepted_answer(plan: &Plan, layout: &Layout, word: u64, call: Call) -> Answer
    requires { layout.now ≡ counts_of plan.now }
    ensures { result ≡ replies.accepted (state_told plan.now word) call }
{
    match call {
        Call::Inquire(zone) => {
            let at = zone_in_word(plan, layout, word, zone);
            Answer::Shown {
                owner: at.owner,
                flag: at.flag,
                posture: at.posture,
            }
        }
        _ => Answer::Done,
    }
}

fn answer_told(plan: &Plan, layout: &Layout, word: u64, machine: u8, call: Call) -> Answer
    requires { layout.now ≡ counts_of plan.now }
    ensures { result ≡ replies.reply plan.now (state_told plan.now word) machine call }
{
    match refusal(plan, layout, word, machine, call) {
        Some(refusal) => Answer::Refused(refusal),
        None => accepted_answer(plan, layout, word, call),
    }
}

/// What the interlock answers to a call on a word, read off the fields that the call looks at: `plan_rules::answer` of
/// the state whose word it is. If the word is no state's, the answer is that of the unsound state that its fields tell.
pub fn answer_word(plan: &Plan, layout: &Layout, word: u64, machine: u8, call: Call) -> Answer
    requires layout { layout.now ≡ counts_of plan.now }
    ensures told { result ≡ replies.reply plan.now (state_told plan.now word) machine call }
    ensures state { (state : State) → IsOfPlan plan.now state → packed plan.now state ≡ word
        → result ≡ replies.reply plan.now state machine call }
{
    answer_told(plan, layout, word, machine, call)
}
