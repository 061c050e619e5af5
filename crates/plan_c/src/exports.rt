//! The functions that C calls. A plan is opened once, and all others answer by it. None takes memory.
ghost use Rattle.std.specs.Prelude.{◌≡◌, ◌≢◌, ◌↔◌, ◌≤◌, ◌<◌, List, Option, IsTrue, false};
ghost use Rattle.plan_types.specs.Table.{PlanTable};
ghost use Rattle.plan_types.specs.Plan.{IsPlan};
ghost use Rattle.plan_types.specs.Bytes.{IsPlanOf, NoPlan};
ghost use Rattle.plan_types.specs.declared.call.Call.{Call};
ghost use Rattle.plan_types.specs.declared.answer.Event.{Event};
ghost use Rattle.plan_types.specs.declared.answer.Refusal.{Refusal};
ghost use Rattle.plan_rules.specs.declared.state.State.{State as PlanState};
ghost use Rattle.plan_rules.specs.State.{last_stamp, start_state};
ghost use Rattle.plan_rules.specs.Reply as rules;
ghost use Rattle.plan_rules.specs.History.{after};
ghost use Rattle.plan_word.specs.Packed.{packed};
ghost use Rattle.plan_motors.specs.declared.motor.Motor.{Motor};
ghost use Rattle.plan_motors.specs.Motor.{Permits};
ghost use Rattle.plan_motors.specs.Mask.{IsMaskOf, allows};
ghost use Rattle.plan_motors.specs.OfPlan.{IsMotorOf};
ghost use Rattle.plan_motors.specs.Laws.{KeepsPermission};
ghost use Rattle.plan_controller.specs.declared.step.Step.{Step};
ghost use Rattle.plan_controller.specs.Turns.{control};
ghost use Rattle.plan_c.specs.Given.{IsOpened, IsNotOpened, IsWordOf, NoState, motor_mask};
ghost use Rattle.plan_c.specs.Numbers.{IsCall, NoCall};
ghost use Rattle.plan_c.specs.Starts.{IsStartText, places_in};
ghost use Rattle.plan_c.specs.Replies as replies;
ghost use Rattle.plan_c.specs.Lines.{HasStep, NoStep};
ghost use Rattle.plan_c.specs.Turning as turning;
ghost use Rattle.plan_c.specs.Turning.{IsTurn, Rests};
ghost use Rattle.plan_c.specs.Resuming.{MayGoOn};

use crate::by_plan::{NO_STAMP, NO_WORD, reply_by, restamp_by, stamp_by, start_by};
use crate::calls::call_with;
use crate::line::ProgramLine;
use crate::opened::Opened;
use crate::reply::{NO_CALL, NO_PLAN, Reply, bare_reply};
use crate::resume::is_in_step_by;
use crate::turn::{Place, Turned, resting, sensors_if, turn_by};
use plan_motors::MotorMask;
use plan_rules::laws::lawful_histories;
use plan_types::{Plan, read_plan};
use plan_word::laws::words_are_laid_out;

/// Opens a plan, by its bytes. Each of the functions below takes what this gives.
#[unsafe(no_mangle)]
pub extern "C" fn bagunjoki_plan_open(bytes: &[u8]) -> Opened
    ensures plan { (t : PlanTable) → IsPlanOf bytes.now t → IsOpened t result }
    ensures no_plan { NoPlan bytes.now → IsNotOpened result }
{
    match read_plan(bytes) {
        Some(plan) => Opened::of(true, plan),
        None => Opened::of(false, Plan::empty()),
    }
}

/// Makes a call on a word, by a plan. If the plan was opened, the numbers name a call, and the word is
/// a state's, the reply is the interlock's, with the word of the state after it. Otherwise it has the
/// word that was given.
#[unsafe(no_mangle)]
pub extern "C" fn bagunjoki_plan_step(
    plan: &Opened,
    word: u64,
    machine: u8,
    verb: u8,
    object: u8,
) -> Reply
    ensures answered { (t : PlanTable) (state : PlanState) (call : Call)
        → IsOpened t plan.now → IsWordOf t word state → IsCall verb object call
        → result ≡ replies.reply_of (rules.reply t state machine call)
        (packed t (rules.next t state machine call)) }
    ensures no_call { NoCall verb object → result ≡ replies.bare_reply replies.no_call word }
    ensures no_plan { (call : Call) → IsCall verb object call → IsNotOpened plan.now
        → result ≡ replies.bare_reply replies.no_plan word }
    ensures no_state { (t : PlanTable) (call : Call)
        → IsOpened t plan.now → NoState t word → IsCall verb object call
        → result ≡ replies.bare_reply replies.no_state word }
{
    match call_with(verb, object) {
        None => bare_reply(NO_CALL, word),
        Some(_) if !plan.is_plan => bare_reply(NO_PLAN, word),
        Some(call) => reply_by(&plan.compiled, word, machine, call),
    }
}

/// The word of a start: a digit 0 or 1 for each place of the plan, and a stamp. It is `NO_WORD`,
/// which no state has, if no plan was opened, or there is no such start.
#[unsafe(no_mangle)]
pub extern "C" fn bagunjoki_plan_start(plan: &Opened, digits: &[u8], stamp: u32) -> u64
    ensures start { (t : PlanTable) → IsOpened t plan.now → IsStartText t digits.now stamp
        → result ≡ packed t (start_state (places_in digits.now) stamp) }
    ensures no_start { (t : PlanTable) → IsOpened t plan.now → ¬ IsStartText t digits.now stamp
        → result ≡ replies.no_word }
    ensures no_plan { IsNotOpened plan.now → result ≡ replies.no_word }
{
    if plan.is_plan {
        start_by(&plan.compiled, digits, stamp)
    } else {
        NO_WORD
    }
}

/// The word of the same state with another stamp, for an exchange before the stamps end. It is
/// `NO_WORD` if no plan was opened, the word is no state's, or the stamp is past the last.
#[unsafe(no_mangle)]
pub extern "C" fn bagunjoki_plan_restamp(plan: &Opened, word: u64, stamp: u32) -> u64
    ensures restamped { (t : PlanTable) (state : PlanState)
        → IsOpened t plan.now → IsWordOf t word state → stamp ≤ last_stamp
        → result ≡ packed t (record state { stamp = stamp }) }
    ensures past_last { last_stamp < stamp → result ≡ replies.no_word }
    ensures no_state { (t : PlanTable) → IsOpened t plan.now → NoState t word
        → result ≡ replies.no_word }
    ensures no_plan { IsNotOpened plan.now → result ≡ replies.no_word }
{
    if plan.is_plan {
        restamp_by(&plan.compiled, word, stamp)
    } else {
        NO_WORD
    }
}

/// The stamp of a state's word. All bits are set if no plan was opened, or the word is no state's.
#[unsafe(no_mangle)]
pub extern "C" fn bagunjoki_plan_stamp(plan: &Opened, word: u64) -> u32
    ensures stamp { (t : PlanTable) (state : PlanState)
        → IsOpened t plan.now → IsWordOf t word state → result ≡ state.stamp }
    ensures no_state { (t : PlanTable) → IsOpened t plan.now → NoState t word
        → result ≡ replies.no_stamp }
    ensures no_plan { IsNotOpened plan.now → result ≡ replies.no_stamp }
{
    if plan.is_plan {
        stamp_by(&plan.compiled, word)
    } else {
        NO_STAMP
    }
}

/// Whether a motor may run, by the bits of a word that it looks at (`mask`) and what they have to be (`pattern`). It
/// needs no plan.
///
/// If the word is a state's, and mask and pattern are those of a motor of the plan, the state permits the motor exactly
/// if it may run (`permitted`); and it stays permitted, whatever calls others make, until a call of its own machine
/// loses the permission (`lasts`).
#[unsafe(no_mangle)]
pub extern "C" fn bagunjoki_plan_may_run(word: u64, mask: u64, pattern: u64) -> bool
    ensures allowed { result ≡ allows (motor_mask mask pattern) word }
    ensures permitted { (t : PlanTable) (state : PlanState) (motor : Motor)
        → IsWordOf t word state → IsMaskOf t motor (motor_mask mask pattern)
        → (IsTrue result ↔ Permits t state motor) }
    ensures lasts { (t : PlanTable) (state : PlanState) (motor : Motor) (since : List Event)
        → IsPlan t → IsMotorOf t motor → IsWordOf t word state
        → IsMaskOf t motor (motor_mask mask pattern) → IsTrue result
        → KeepsPermission t state since motor → Permits t (after t state since) motor }
{
    lawful_histories();
    words_are_laid_out();
    MotorMask { mask, pattern }.allows(word)
}

/// One turn of a machine that goes through its program, as `PlanController` of `plan_controller` does: by the word, by
/// the place that the last turn gave, and by what the sensors show now (a bit for each) if they could be read. It makes
/// one step: a call, with all motors off, or a run of motors. It changes no shared word: only where the answer is Done
/// is the word another one, and then the turn has been taken once that word has taken the place of the one given.
///
/// Where it rests, all motors are off, and word and place are those that were given. So it does after a refusal has
/// stopped the machine, with sensors unread, without a plan or a state, and at a line that is no step's.
#[unsafe(no_mangle)]
pub extern "C" fn bagunjoki_plan_turn(
    plan: &Opened,
    word: u64,
    machine: u8,
    program: &[ProgramLine],
    place: Place,
    read: bool,
    sensors: u32,
) -> Turned
    ensures turn { (t : PlanTable) (state : PlanState) (steps : List Step)
        (stopped : Option Refusal)
        → IsOpened t plan.now → IsWordOf t word state → HasStep program.now steps place.line
        → place.stopped ≡ turning.stop_number stopped
        → IsTurn t state word (control machine steps place.line stopped)
        (turning.sensed read sensors) result }
    ensures stopped { place.stopped ≢ 0 → Rests word place result }
    ensures unread { read ≡ false → Rests word place result }
    ensures no_step { (t : PlanTable) (state : PlanState)
        → IsOpened t plan.now → IsWordOf t word state → NoStep program.now place.line
        → result ≡ turning.resting replies.no_call word place }
    ensures no_state { (t : PlanTable) → IsOpened t plan.now → NoState t word
        → result ≡ turning.resting replies.no_state word place }
    ensures no_plan { IsNotOpened plan.now → result ≡ turning.resting replies.no_plan word place }
{
    if plan.is_plan {
        let sensors = sensors_if(read, sensors);
        turn_by(&plan.compiled, word, machine, program, place, sensors)
    } else {
        resting(NO_PLAN, word, place)
    }
}

/// Whether a machine may go on at a place in its program, as after a power cut, by the word that was stored with it:
/// the lines are a program's, the word is a state's whose zones are open as poses give, the place is at a line at which
/// the machine is in step with the state, and a stop in it is a refusal's. If the program runs only what it may, each
/// motor that is on in the turns that go on there is permitted: laws `resumes_go_on` and `turns_go_on`.
#[unsafe(no_mangle)]
pub extern "C" fn bagunjoki_plan_is_in_step(
    plan: &Opened,
    word: u64,
    machine: u8,
    program: &[ProgramLine],
    place: Place,
) -> bool
    ensures in_step { (t : PlanTable) (state : PlanState)
        → IsOpened t plan.now → IsWordOf t word state
        → (IsTrue result ↔ MayGoOn t state machine program.now place) }
    ensures no_state { (t : PlanTable) → IsOpened t plan.now → NoState t word → result ≡ false }
    ensures no_plan { IsNotOpened plan.now → result ≡ false }
{
    plan.is_plan && is_in_step_by(&plan.compiled, word, machine, program, place)
}
