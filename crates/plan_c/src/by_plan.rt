//! What each function answers by a plan.
ghost use Rattle.std.specs.Prelude.{◌≡◌, ◌≤◌, ◌<◌};
ghost use Rattle.plan_rules.specs.declared.state.State.{State as PlanState};
ghost use Rattle.plan_rules.specs.State.{last_stamp, start_state};
ghost use Rattle.plan_rules.specs.Reply as rules;
ghost use Rattle.plan_word.specs.Packed.{packed};
ghost use Rattle.plan_c.specs.Given.{IsWordOf, NoState};
ghost use Rattle.plan_c.specs.Starts.{IsStartText, places_in};
ghost use Rattle.plan_c.specs.Replies as replies;

use crate::places::{is_start, places_of};
use crate::reply::{NO_STATE, Reply, bare_reply, reply_of};
use plan_compiled::Compiled;
use plan_rules::{LAST_STAMP, State};
use plan_types::Call;
use plan_word::{pack, unpack};

/// No word: one that says that the guest of a closed zone has it.
pub(crate) const NO_WORD: u64 = 0x8000_0000_0000_0002;

/// No stamp.
pub(crate) const NO_STAMP: u32 = u32::MAX;

/// The reply to a call on a word.
pub(crate) fn reply_by(plan: &Compiled, word: u64, machine: u8, call: Call) -> Reply
    ensures answered { (state : PlanState) → IsWordOf plan.now.table word state
        → result ≡ replies.reply_of (rules.reply plan.now.table state machine call)
        (packed plan.now.table (rules.next plan.now.table state machine call)) }
    ensures no_state { NoState plan.now.table word
        → result ≡ replies.bare_reply replies.no_state word }
{
    match plan.step_word(word, machine, call) {
        Some((answer, next)) => reply_of(answer, next),
        None => bare_reply(NO_STATE, word),
    }
}

/// The word of a start, if there is one.
pub(crate) fn start_by(plan: &Compiled, digits: &[u8], stamp: u32) -> u64
    ensures start { IsStartText plan.now.table digits.now stamp
        → result ≡ packed plan.now.table (start_state (places_in digits.now) stamp) }
    ensures no_start { ¬ IsStartText plan.now.table digits.now stamp → result ≡ replies.no_word }
{
    if is_start(plan.plan(), digits, stamp) {
        let start = State::start(places_of(digits), stamp);
        pack(plan.plan(), &plan.layout(), &start)
    } else {
        NO_WORD
    }
}

/// The word of a word's state with another stamp, if it has a state and the stamp isn't past the last.
pub(crate) fn restamp_by(plan: &Compiled, word: u64, stamp: u32) -> u64
    ensures restamped { (state : PlanState) → IsWordOf plan.now.table word state → stamp ≤ last_stamp
        → result ≡ packed plan.now.table (record state { stamp = stamp }) }
    ensures past_last { last_stamp < stamp → result ≡ replies.no_word }
    ensures no_state { NoState plan.now.table word → result ≡ replies.no_word }
{
    let layout = plan.layout();
    match unpack(plan.plan(), &layout, word) {
        Some(state) if stamp <= LAST_STAMP => pack(plan.plan(), &layout, &State { stamp, ..state }),
        _ => NO_WORD,
    }
}

/// The stamp of a word's state, if it has one.
pub(crate) fn stamp_by(plan: &Compiled, word: u64) -> u32
    ensures stamp { (state : PlanState) → IsWordOf plan.now.table word state → result ≡ state.stamp }
    ensures no_state { NoState plan.now.table word → result ≡ replies.no_stamp }
{
    let layout = plan.layout();
    match unpack(plan.plan(), &layout, word) {
        Some(state) => state.stamp,
        None => NO_STAMP,
    }
}
