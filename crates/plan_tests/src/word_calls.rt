//! Calls of two machines at a press on one atomic word, and which of its motors may run.
ghost use Rattle.std.specs.Prelude.{◌≡◌, IfSome};

use plan_interlock::{PlanInterlock, PlanPass, examples as interlocks, permitted_motors};
use plan_motors::{MotorMask, examples as motors};
use plan_types::{Answer, Call, Plan, Refusal, examples as plants};
use std::alloc::Global;
use word_interlock::Reply;

/// Whether a call has this answer, with this stamp. Of the clauses of `ask` it keeps what the calls after it need.
fn is_settled(
    interlock: &PlanInterlock,
    pass: &mut PlanPass,
    call: Call,
    answer: Answer,
    stamp: u32,
) -> bool
    requires { pass.old.table ≡ interlock.now.table }
    ensures { pass.new.table ≡ pass.old.table }
{
    interlock.ask(pass, call) == Reply::Settled(answer, stamp)
}

/// Whether a call is done, with this stamp.
fn is_done(interlock: &PlanInterlock, pass: &mut PlanPass, call: Call, stamp: u32) -> bool
    requires { pass.old.table ≡ interlock.now.table }
    ensures { pass.new.table ≡ pass.old.table }
{
    is_settled(interlock, pass, call, Answer::Done, stamp)
}

/// The masks of the press's ram and of the loader's arm. `None` if memory runs out.
fn masks(alloc: Global) -> Option<[MotorMask; 2]> {
    let plan = Plan::new(plants::press(alloc).ok()?).ok()?;
    Some([
        MotorMask::of(&plan, &motors::ram()),
        MotorMask::of(&plan, &motors::arm()),
    ])
}

/// Whether these motors alone may run.
fn may_run(
    interlock: &PlanInterlock,
    pass: &mut PlanPass,
    masks: &[MotorMask; 2],
    motors: u64,
) -> bool
    requires { pass.old.table ≡ interlock.now.table }
    ensures { pass.new.table ≡ pass.old.table }
{
    permitted_motors(interlock, pass, masks) == motors
}

/// Whether the press claims its zone, which the loader then can't, and moves, so that the ram may run.
fn is_moving(
    interlock: &PlanInterlock,
    loader: &mut PlanPass,
    press: &mut PlanPass,
    masks: &[MotorMask; 2],
) -> bool
    requires loader { loader.old.table ≡ interlock.now.table }
    requires press { press.old.table ≡ interlock.now.table }
    ensures loader { loader.new.table ≡ interlock.now.table }
    ensures press { press.new.table ≡ interlock.now.table }
{
    let held = Answer::Refused(Refusal::Held(1));
    let is_claimed = is_done(interlock, press, Call::Claim(0), 1);
    let is_held = is_settled(interlock, loader, Call::Claim(0), held, 1);
    let may_none = may_run(interlock, press, masks, 0);
    let is_moving = is_done(interlock, press, Call::SetPose(3), 2);
    let may_ram = may_run(interlock, loader, masks, 0b01);
    is_claimed && is_held && may_none && is_moving && may_ram
}

/// Whether it opens and hands over its zone, so that the arm may run, and the loader gives it its plate.
fn is_loaded(
    interlock: &PlanInterlock,
    loader: &mut PlanPass,
    press: &mut PlanPass,
    masks: &[MotorMask; 2],
) -> bool
    requires loader { loader.old.table ≡ interlock.now.table }
    requires press { press.old.table ≡ interlock.now.table }
    ensures loader { loader.new.table ≡ interlock.now.table }
    ensures press { press.new.table ≡ interlock.now.table }
{
    let is_open = is_done(interlock, press, Call::SetPose(0), 3);
    let is_yielded = is_done(interlock, press, Call::Yield(0), 4);
    let may_arm = may_run(interlock, loader, masks, 0b10);
    let is_given = is_done(interlock, loader, Call::Give(0), 5);
    let is_taken = is_done(interlock, press, Call::Take(0), 6);
    is_open && is_yielded && may_arm && is_given && is_taken
}

/// Whether a survey shows where the plate is.
fn is_in_press(interlock: &PlanInterlock, pass: &mut PlanPass) -> bool
    requires { pass.old.table ≡ interlock.now.table }
    ensures { pass.new.table ≡ pass.old.table }
{
    let state = interlock.survey(pass);
    !state.is_full(0) && state.is_full(1)
}

/// Whether the loader, which the press has told what it has seen, finds the zone the press's; and it is released.
fn is_told(interlock: &PlanInterlock, loader: &mut PlanPass, press: &mut PlanPass) -> bool
    requires loader { loader.old.table ≡ interlock.now.table }
    requires press { press.old.table ≡ interlock.now.table }
    ensures loader { loader.new.table ≡ interlock.now.table }
    ensures press { press.new.table ≡ interlock.now.table }
{
    let receipt = interlock.receipt(press);
    let after = interlock.ask_after(loader, Call::Give(0), receipt);
    let released = interlock.settle(press, Call::Release(0));
    after == Reply::Settled(Answer::Refused(Refusal::NotOwner(Some(1))), 6)
        && released == (Answer::Done, 7)
}

/// Whether both, once they have met, are the passes that they were.
fn are_met(interlock: &PlanInterlock, loader: PlanPass, press: PlanPass) -> bool
    requires loader { loader.table ≡ interlock.now.table }
    requires press { press.table ≡ interlock.now.table }
{
    let (loader, press) = interlock.meet(loader, press);
    loader.actor() == 0 && press.actor() == 1
}

/// The interlock of the example and its passes. Of its clauses it keeps what calls need.
fn at_press(alloc: Global) -> Option<(PlanInterlock, PlanPass, PlanPass)>
    ensures loader { IfSome result (λ made. made.1.table ≡ made.0.table) }
    ensures press { IfSome result (λ made. made.2.table ≡ made.0.table) }
{
    interlocks::press(alloc)
}

#[test]
fn a_press_is_loaded_on_a_word(rt: HostRuntime) {
    let Some((interlock, mut loader, mut press)) = at_press(rt.alloc()) else {
        panic!(rt; "no memory");
    };
    let masks = masks(rt.alloc()).expect(&rt, "memory");
    assert!(rt; is_moving(&interlock, &mut loader, &mut press, &masks));
    assert!(rt; is_loaded(&interlock, &mut loader, &mut press, &masks));
    assert!(rt; is_in_press(&interlock, &mut loader));
    assert!(rt; is_told(&interlock, &mut loader, &mut press));
    assert!(rt; are_met(&interlock, loader, press));
}
