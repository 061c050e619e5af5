//! Calls on a word: the answer, and the word after it.
ghost use Rattle.std.specs.Prelude.{◌≡◌, ◌≢◌, ◌↔◌, Some, IsNone};
ghost use Rattle.cell_types.specs.declared.answer.Answer.TheVariants.{Done, Shown};
ghost use Rattle.cell_types.specs.declared.call.Call.TheVariants as calls;
ghost use Rattle.cell_rules.specs.ModelState.{ModelState, zone_at};
ghost use Rattle.cell_rules.specs.Sound.{IsSound};
ghost use Rattle.cell_rules.specs.Reply.{reply, next};
ghost use Rattle.cell_word.specs.Layout.{packed};

use crate::guards::{check, claim, give, hand_over, release, resume, stop, take};
use crate::patterns::word_after_check;
use crate::pose_guards::{advance, word_after_pose};
use crate::state_words::is_state_word;
use crate::word::zone_in_word;
use cell_types::{Answer, Call, Machine, Zone};

/// The state of a zone.
#[tactic(auto, using(crate::proofs::lemmas::RoundTrip::zone_read))]
fn show_zone(word: u64, zone: Zone) -> Answer
    ensures { (state : ModelState) → IsSound state → packed state ≡ word
        → result ≡ Shown (zone_at state zone).owner (zone_at state zone).flag
        (zone_at state zone).posture }
{
    let at = zone_in_word(word, zone);
    Answer::Shown {
        owner: at.owner,
        flag: at.flag,
        posture: at.posture,
    }
}

/// The word of a sound state after a claim.
#[inline(never)]
fn word_after_claim(word: u64, machine: Machine, zone: Zone) -> u64
    requires { (state : ModelState) × IsSound state × (packed state ≡ word) }
    ensures { (state : ModelState) → IsSound state → packed state ≡ word
        → result ≡ packed (next state machine (calls.Claim zone)) }
{
    word_after_check(word, claim(word, machine, zone))
}

/// The word of a sound state after a give.
#[inline(never)]
fn word_after_give(word: u64, machine: Machine, zone: Zone) -> u64
    requires { (state : ModelState) × IsSound state × (packed state ≡ word) }
    ensures { (state : ModelState) → IsSound state → packed state ≡ word
        → result ≡ packed (next state machine (calls.Give zone)) }
{
    word_after_check(word, give(word, machine, zone))
}

/// The word of a sound state after a yield.
#[inline(never)]
fn word_after_yield(word: u64, machine: Machine, zone: Zone) -> u64
    requires { (state : ModelState) × IsSound state × (packed state ≡ word) }
    ensures { (state : ModelState) → IsSound state → packed state ≡ word
        → result ≡ packed (next state machine (calls.Yield zone)) }
{
    word_after_check(word, hand_over(word, machine, zone))
}

/// The word of a sound state after a take.
#[inline(never)]
fn word_after_take(word: u64, machine: Machine, zone: Zone) -> u64
    requires { (state : ModelState) × IsSound state × (packed state ≡ word) }
    ensures { (state : ModelState) → IsSound state → packed state ≡ word
        → result ≡ packed (next state machine (calls.Take zone)) }
{
    word_after_check(word, take(word, machine, zone))
}

/// The word of a sound state after a release.
#[inline(never)]
fn word_after_release(word: u64, machine: Machine, zone: Zone) -> u64
    requires { (state : ModelState) × IsSound state × (packed state ≡ word) }
    ensures { (state : ModelState) → IsSound state → packed state ≡ word
        → result ≡ packed (next state machine (calls.Release zone)) }
{
    word_after_check(word, release(word, machine, zone))
}

/// The word after a call on the word of a sound state: the same word unless the answer is Done.
///
/// It is a number, so it comes back in a register. With its answer it would come back in memory,
/// which takes as long as the guards.
fn word_after(word: u64, machine: Machine, call: Call) -> u64
    requires { (state : ModelState) × IsSound state × (packed state ≡ word) }
    ensures { (state : ModelState) → IsSound state → packed state ≡ word
        → result ≡ packed (next state machine call) }
{
    match call {
        Call::Claim(zone) => word_after_claim(word, machine, zone),
        Call::Give(zone) => word_after_give(word, machine, zone),
        Call::Yield(zone) => word_after_yield(word, machine, zone),
        Call::Take(zone) => word_after_take(word, machine, zone),
        Call::Release(zone) => word_after_release(word, machine, zone),
        Call::SetPose(pose) => word_after_pose(word, machine, pose),
        Call::Advance => word_after_check(word, advance(word, machine)),
        Call::Inquire(_) => word,
        Call::Stop => word_after_check(word, stop(word, machine)),
        Call::Resume => word_after_check(word, resume(word, machine)),
    }
}

/// The answer to a call on the word of a sound state.
#[inline(never)]
fn answer_at(word: u64, machine: Machine, call: Call) -> Answer
    ensures { (state : ModelState) → IsSound state → packed state ≡ word
        → result ≡ reply state machine call }
{
    if let Call::Inquire(zone) = call {
        return show_zone(word, zone);
    }
    match check(word, machine, call) {
        Err(refusal) => Answer::Refused(refusal),
        Ok(_) => Answer::Done,
    }
}

/// Makes a call on the word of a sound state without unpacking it. Returns the interlock's answer
/// and the word of the state after it: the same word unless the answer is Done.
#[inline(always)]
pub fn step_state_word(word: u64, machine: Machine, call: Call) -> (Answer, u64)
    requires { (state : ModelState) × IsSound state × (packed state ≡ word) }
    ensures { (state : ModelState) → IsSound state → packed state ≡ word
        → result ≡ (reply state machine call, packed (next state machine call)) }
{
    let new = word_after(word, machine, call);
    if new == word {
        (answer_at(word, machine, call), word)
    } else {
        (Answer::Done, new)
    }
}

/// Makes a call on a word. Returns the interlock's answer and the word of the state after it: the
/// same word unless the answer is Done. `None` if the word is no sound state's.
#[inline(always)]
pub fn step_word(word: u64, machine: Machine, call: Call) -> Option<(Answer, u64)>
    ensures some { (state : ModelState) → IsSound state → packed state ≡ word
        → result ≡ Some (reply state machine call, packed (next state machine call)) }
    ensures none { IsNone result ↔ ((state : ModelState) → IsSound state → packed state ≢ word) }
{
    if is_state_word(word) {
        Some(step_state_word(word, machine, call))
    } else {
        None
    }
}
