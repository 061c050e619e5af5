//! Laws of motors, each the contract of a function that does nothing. A history is the list of the events since the
//! opening, oldest first. `plan.machines()` reads the plan, so the prover knows that it is one.
ghost use Rattle.std.specs.Prelude.{◌≡◌, ◌≢◌, ◌↔◌, [], ◌∷◌, ◌++◌, IsTrue};
ghost use Rattle.plan_types.specs.declared.answer.Answer.TheVariants.{Done};
ghost use Rattle.plan_rules.specs.Sound.{IsSound, IsStart};
ghost use Rattle.plan_rules.specs.Reply.{reply, next};
ghost use Rattle.plan_rules.specs.History.{IsLegal, after, own_events};
ghost use Rattle.plan_word.specs.OfPlan.{IsOfPlan};
ghost use Rattle.plan_word.specs.Packed.{packed};
ghost use Rattle.plan_motors.specs.Motor.{Permits};
ghost use Rattle.plan_motors.specs.Mask.{allows, IsMaskOf};
ghost use Rattle.plan_motors.specs.Decided.{NeverBoth};
ghost use Rattle.plan_motors.specs.OfPlan.{IsMotorOf};
ghost use Rattle.plan_motors.specs.Poses.{NeverFrom, HasPosturesOf};
ghost use Rattle.plan_motors.specs.PlainMotors.{PlainMotorsStay};
ghost use Rattle.plan_motors.specs.Laws.{LosesPermission, KeepsPermission, MayStillRun, MayRun};

use crate::mask::MotorMask;
use crate::motor::Motor;
use plan_rules::State;
use plan_rules::laws::{lawful_histories, plain_plans_stay};
use plan_types::{Call, Event, Plan};
use plan_word::laws::words_are_laid_out;

/// What a machine may run in a sound state, no other machine's call takes away, if the motor fits the plan.
pub fn others_keep_permissions(plan: &Plan, motor: &Motor, state: &State, machine: u8, call: Call)
    requires motor { IsMotorOf plan.now motor.now }
    requires sound { IsSound plan.now state.now }
    requires permitted { Permits plan.now state.now motor.now }
    requires other { machine ≢ motor.now.machine }
    ensures { Permits plan.now (next plan.now state.now machine call) motor.now }
{
    let _ = plan.machines();
    lawful_histories();
}

/// Nor do any number of them: while others make the events, a motor that is permitted stays permitted.
pub fn permissions_last(
    plan: &Plan,
    motor: &Motor,
    opening: &State,
    before: &[Event],
    more: &[Event],
)
    requires motor { IsMotorOf plan.now motor.now }
    requires sound { IsSound plan.now opening.now }
    requires legal { IsLegal plan.now opening.now (before.now ++ more.now) }
    requires permitted { Permits plan.now (after plan.now opening.now before.now) motor.now }
    requires others { own_events more.now motor.now.machine ≡ [] }
    ensures { Permits plan.now (after plan.now opening.now (before.now ++ more.now)) motor.now }
{
    let _ = plan.machines();
    lawful_histories();
}

/// Nor does a call that is refused or inquires, of any machine.
pub fn only_done_calls_lose(plan: &Plan, motor: &Motor, state: &State, machine: u8, call: Call)
    requires { reply plan.now state.now machine call ≢ Done }
    ensures { ¬ LosesPermission plan.now state.now machine call motor.now }
{}

/// One event more leaves a machine what it may run, exactly if the event isn't a call of its own that loses the
/// permission.
pub fn runs_end_by_losses(
    plan: &Plan,
    motor: &Motor,
    opening: &State,
    read: &[Event],
    since: &[Event],
    event: Event,
)
    ensures { MayStillRun plan.now opening.now read.now (since.now ++ event ∷ []) motor.now
        ↔ (MayStillRun plan.now opening.now read.now since.now motor.now
        × ¬ LosesPermission plan.now (after plan.now opening.now (read.now ++ since.now)) event.machine event.call
        motor.now) }
{}

/// So however many events of others leave it.
pub fn others_end_no_run(
    plan: &Plan,
    motor: &Motor,
    opening: &State,
    read: &[Event],
    since: &[Event],
    more: &[Event],
)
    requires runs { MayStillRun plan.now opening.now read.now since.now motor.now }
    requires others { own_events more.now motor.now.machine ≡ [] }
    ensures { MayStillRun plan.now opening.now read.now (since.now ++ more.now) motor.now }
{}

/// A machine may run exactly what is permitted now: what it has read, however long ago, is still so, unless a call of
/// its own has lost it.
pub fn may_run_is_permitted(plan: &Plan, motor: &Motor, opening: &State, history: &[Event])
    requires motor { IsMotorOf plan.now motor.now }
    requires sound { IsSound plan.now opening.now }
    ensures { MayRun plan.now opening.now history.now motor.now
        ↔ Permits plan.now (after plan.now opening.now history.now) motor.now }
{
    let _ = plan.machines();
    lawful_histories();
}

/// A machine that has loaded a word which a motor's mask allows may run the motor from then on, whatever others do,
/// until a call of its own loses the permission: each state till then permits it.
pub fn loads_permit(plan: &Plan, motor: &Motor, mask: &MotorMask, loaded: &State, since: &[Event])
    requires motor { IsMotorOf plan.now motor.now }
    requires mask { IsMaskOf plan.now motor.now mask.now }
    requires loaded { IsOfPlan plan.now loaded.now }
    requires allowed { IsTrue (allows mask.now (packed plan.now loaded.now)) }
    requires kept { KeepsPermission plan.now loaded.now since.now motor.now }
    ensures { Permits plan.now (after plan.now loaded.now since.now) motor.now }
{
    let _ = plan.machines();
    lawful_histories();
    words_are_laid_out();
}

/// After no legal history from a sound opening are two motors permitted that exclude each other.
pub fn hazards_are_never_permitted(
    plan: &Plan,
    first: &Motor,
    second: &Motor,
    opening: &State,
    history: &[Event],
)
    requires excluded { NeverBoth plan.now first.now second.now }
    requires sound { IsSound plan.now opening.now }
    requires legal { IsLegal plan.now opening.now history.now }
    requires permitted { Permits plan.now (after plan.now opening.now history.now) first.now }
    ensures { ¬ Permits plan.now (after plan.now opening.now history.now) second.now }
{
    let _ = plan.machines();
}

/// Two machines whose motors exclude each other never both go by permissions that they have read, however long ago
/// each has, while no call of its own has lost its permission.
pub fn hazards_never_run(
    plan: &Plan,
    first: &Motor,
    second: &Motor,
    opening: &State,
    history: &[Event],
)
    requires first { IsMotorOf plan.now first.now }
    requires second { IsMotorOf plan.now second.now }
    requires excluded { NeverBoth plan.now first.now second.now }
    requires sound { IsSound plan.now opening.now }
    requires legal { IsLegal plan.now opening.now history.now }
    requires runs { MayRun plan.now opening.now history.now first.now }
    ensures { ¬ MayRun plan.now opening.now history.now second.now }
{
    let _ = plan.machines();
    lawful_histories();
}

/// The same from an opening from which the two are never permitted both, also where only the poses of the plan keep
/// them apart.
pub fn hazards_never_run_from(
    plan: &Plan,
    first: &Motor,
    second: &Motor,
    opening: &State,
    history: &[Event],
)
    requires first { IsMotorOf plan.now first.now }
    requires second { IsMotorOf plan.now second.now }
    requires never { NeverFrom plan.now opening.now first.now second.now }
    requires sound { IsSound plan.now opening.now }
    requires legal { IsLegal plan.now opening.now history.now }
    requires runs { MayRun plan.now opening.now history.now first.now }
    ensures { ¬ MayRun plan.now opening.now history.now second.now }
{
    let _ = plan.machines();
    lawful_histories();
}

/// All starts have the same postures, so what poses keep apart from one start they keep apart from each.
pub fn starts_are_alike(plan: &Plan, one: &State, other: &State)
    requires one { IsStart one.now }
    requires other { IsStart other.now }
    ensures { HasPosturesOf plan.now one.now other.now }
{}

/// Where no zone joins the one before it, motors need each zone by itself: what keeps two of them apart, and which bits
/// of a zone one looks at.
pub fn plain_motors_stay()
    ensures { PlainMotorsStay }
{
    plain_plans_stay();
}
