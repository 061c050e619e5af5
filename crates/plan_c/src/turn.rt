//! A controller's turn on a word.
ghost use Rattle.std.specs.Prelude.{◌≡◌, ◌≢◌, ◌≤◌, List, Option, Some, None, length, slice_get, IsTrue, false};
ghost use Rattle.plan_types.specs.declared.answer.Refusal.{Refusal};
ghost use Rattle.plan_rules.specs.declared.state.State.{State as PlanState};
ghost use Rattle.plan_controller.specs.declared.step.Step.{Step as PlanStep};
ghost use Rattle.plan_controller.specs.Turns as turns;
ghost use Rattle.plan_controller.specs.Turns.{Control, Performs};
ghost use Rattle.plan_c.specs.Given.{IsWordOf, NoState};
ghost use Rattle.plan_c.specs.Lines.{HasStep, NoStep};
ghost use Rattle.plan_c.specs.Replies as replies;
ghost use Rattle.plan_c.specs.Turning as turning;
ghost use Rattle.plan_c.specs.Turning.{Silent, Asks, IsTurn, Rests};

use crate::line::{ProgramLine, step_at};
use crate::reply::{NO_CALL, NO_STATE, NOTHING, answer_number, refusal_number};
use plan_compiled::Compiled;
use plan_controller::outcome::{after_call, after_inquiry};
use plan_controller::step::shows;
use plan_controller::{Outcome, Step};
use plan_types::Call;
use plan_word::unpack;

/// A machine's place in its program, as C stores it.
#[repr(C)]
#[derive(Clone, Copy)]
pub struct Place {
    /// The line, from 0.
    pub line: u8,
    /// The number of the refusal that has stopped the machine for good; 0 while it goes on.
    pub stopped: u8,
}

/// What C gets back from a turn.
#[repr(C)]
#[derive(Clone, Copy)]
pub struct Turned {
    /// The word after the turn: the one before it unless a call was done.
    pub word: u64,
    /// The motors that are on: those of the plan that have a bit here. All others are off.
    pub motors: u64,
    /// The place after the turn.
    pub place: Place,
    /// The number of the call's answer, or one of the other numbers of answers; `NOTHING` where no call was made.
    pub answer: u8,
}

/// What a step has come to.
#[derive(Clone, Copy)]
struct Performed {
    word: u64,
    motors: u64,
    answer: u8,
    outcome: Outcome,
}

/// A turn with all motors off that changes nothing.
pub(crate) fn resting(answer: u8, word: u64, place: Place) -> Turned
    ensures { result ≡ turning.resting answer word place }
{
    Turned {
        word,
        motors: 0,
        place,
        answer,
    }
}

/// What the sensors show, if they could be read.
pub(crate) fn sensors_if(read: bool, sensors: u32) -> Option<u32>
    ensures { result ≡ turning.sensed read sensors }
{
    if read { Some(sensors) } else { None }
}

/// One step, by what the sensors show: a call, or motors.
fn perform(plan: &Compiled, word: u64, machine: u8, step: Step, sensors: u32) -> Performed
    requires state { (state : PlanState) × IsWordOf plan.now.table word state }
    ensures { (state : PlanState) (c : Control)
        → IsWordOf plan.now.table word state → c.machine ≡ machine
        → Performs c (Silent word result.word result.answer)
        (Asks plan.now.table state machine result.word result.answer)
        sensors (Some step) result.motors result.outcome }
{
    match step {
        Step::Do(call, faults) => {
            let (answer, next) = plan.step_state_word(word, machine, call);
            Performed {
                word: next,
                motors: 0,
                answer: answer_number(answer),
                outcome: after_call(Some(answer), faults),
            }
        }
        Step::Await(zone) => {
            let (answer, next) = plan.step_state_word(word, machine, Call::Inquire(zone));
            Performed {
                word: next,
                motors: 0,
                answer: answer_number(answer),
                outcome: after_inquiry(machine, Some(answer)),
            }
        }
        Step::Run { motors, until } => {
            let ends = shows(sensors, until);
            Performed {
                word,
                motors: if ends { 0 } else { motors },
                answer: NOTHING,
                outcome: if ends {
                    Outcome::GoesOn
                } else {
                    Outcome::Stays
                },
            }
        }
    }
}

/// The place that a step leads to, in a program of `count` lines.
fn place_after(place: Place, count: usize, outcome: Outcome) -> Place
    requires { count ≤ 255 }
    ensures { (c : Control) → place ≡ turning.place_of c → length c.steps ≡ count
        → result ≡ turning.place_of (turns.advanced c outcome) }
{
    match outcome {
        Outcome::Stays => place,
        Outcome::GoesOn if usize::from(place.line) + 1 < count => Place {
            line: place.line + 1,
            ..place
        },
        Outcome::GoesOn => Place { line: 0, ..place },
        Outcome::Stops(refusal) => Place {
            stopped: refusal_number(refusal),
            ..place
        },
    }
}

/// Whether a word is that of a state.
fn is_state(plan: &Compiled, word: u64) -> bool
    ensures state { IsTrue result → (state : PlanState) × IsWordOf plan.now.table word state }
    ensures no_state { result ≡ false → NoState plan.now.table word }
{
    match unpack(plan.plan(), &plan.layout(), word) {
        Some(_) => true,
        None => false,
    }
}

/// A turn at a step, in a program of `count` lines, on the word of a state.
fn turn_at(
    plan: &Compiled,
    word: u64,
    machine: u8,
    step: Step,
    count: usize,
    place: Place,
    sensors: Option<u32>,
) -> Turned
    requires state { (state : PlanState) × IsWordOf plan.now.table word state }
    requires at_most { count ≤ 255 }
    ensures turn { (state : PlanState) (steps : List PlanStep) (stopped : Option Refusal)
        → IsWordOf plan.now.table word state → length steps ≡ count
        → slice_get steps place.line ≡ Some step → place.stopped ≡ turning.stop_number stopped
        → IsTurn plan.now.table state word (turns.control machine steps place.line stopped)
        sensors result }
    ensures stopped { place.stopped ≢ 0 → Rests word place result }
    ensures unread { sensors ≡ None → Rests word place result }
{
    let Some(read) = sensors else {
        return resting(NOTHING, word, place);
    };
    if place.stopped != 0 {
        return resting(NOTHING, word, place);
    }
    let performed = perform(plan, word, machine, step, read);
    Turned {
        word: performed.word,
        motors: performed.motors,
        place: place_after(place, count, performed.outcome),
        answer: performed.answer,
    }
}

/// A turn by a plan.
pub(crate) fn turn_by(
    plan: &Compiled,
    word: u64,
    machine: u8,
    program: &[ProgramLine],
    place: Place,
    sensors: Option<u32>,
) -> Turned
    ensures turn { (state : PlanState) (steps : List PlanStep) (stopped : Option Refusal)
        → IsWordOf plan.now.table word state → HasStep program.now steps place.line
        → place.stopped ≡ turning.stop_number stopped
        → IsTurn plan.now.table state word (turns.control machine steps place.line stopped)
        sensors result }
    ensures stopped { place.stopped ≢ 0 → Rests word place result }
    ensures unread { sensors ≡ None → Rests word place result }
    ensures no_state { NoState plan.now.table word
        → result ≡ turning.resting replies.no_state word place }
    ensures no_step { (state : PlanState) → IsWordOf plan.now.table word state
        → NoStep program.now place.line → result ≡ turning.resting replies.no_call word place }
{
    if !is_state(plan, word) {
        return resting(NO_STATE, word, place);
    }
    let Some(step) = step_at(program, place.line) else {
        return resting(NO_CALL, word, place);
    };
    turn_at(plan, word, machine, step, program.len(), place, sensors)
}
