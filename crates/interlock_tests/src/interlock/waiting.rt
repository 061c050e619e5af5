//! Each call of the interlock, by callers who may not wait. No handle is among their parameters and bounds: if a call
//! were given leave to wait, as for a lock, they wouldn't compile.
ghost use Rattle.cell_interlock.specs.Ends.{ArePassesOf, IsPassOf};
ghost use Rattle.cell_types.specs.declared.machine.Machine.TheVariants.{Press, Robot};

use super::callers::{StepOutcome, own_in, pass_in};
use super::closing::{Owned, PRESS_3, state_of};
use super::{open_interlock, stations_of};
use cell_interlock::{Interlock, Pass, Passes};
use cell_types::{Answer, Call, Machine, Posture, Refusal, Reply, Zone};

const PRESS_HAS_IT: Answer = Answer::Refused(Refusal::Held(Machine::Press));

const FEED_HAS_IT: Answer = Answer::Shown {
    owner: Some(Machine::Feed),
    flag: false,
    posture: Posture::Closed,
};

const REPLIES: [Reply; 4] = [
    Reply::Settled(Answer::Done, 1),
    Reply::Settled(PRESS_HAS_IT, 1),
    Reply::Settled(Answer::Done, 3),
    Reply::Settled(FEED_HAS_IT, 3),
];

const THREE_ZONES: &[Owned] = &[
    (Zone::Z1, Machine::Table),
    (Zone::Z3, Machine::Press),
    (Zone::Z6, Machine::Feed),
];

/// Whether whole calls are answered as in one thread, and then the interlock closes, while a receipt
/// is alive that nobody accepts, and after one was dropped.
fn are_answered(interlock: Interlock, mut passes: Passes) -> bool
    requires { ArePassesOf interlock passes }
{
    let claim = Call::Claim(Zone::Z3);
    let asked = interlock.ask(&mut passes.press, claim);
    let mut receipt = interlock.receipt(&mut passes.press);
    let copy = interlock.copy_receipt(&mut receipt);
    let after = interlock.ask_after(&mut passes.robot, claim, receipt);
    interlock.accept(&mut passes.crane, copy);
    let surveyed = interlock.survey(&mut passes.crane);
    let settled = interlock.settle(&mut passes.table, Call::Claim(Zone::Z1));
    let (claims, inquires) = (Call::Claim(Zone::Z6), Call::Inquire(Zone::Z6));
    let told = interlock.tell(&mut passes.feed, claims, &mut passes.watch, inquires);
    drop(interlock.receipt(&mut passes.deposit));
    let left_over = interlock.receipt(&mut passes.table);
    let ended = interlock.close(passes);
    drop(left_over);
    [asked, after, told.0, told.1] == REPLIES
        && settled == (Answer::Done, 2)
        && state_of(1, PRESS_3, false) == Some(surveyed)
        && state_of(3, THREE_ZONES, false) == Some(ended.state)
}

/// Whether the robot, which hears of the press's claim, is refused at a look, and then they meet. The
/// other steps of a call are taken in `callers.rt`.
fn are_met(interlock: &Interlock, mut press: Pass, robot: Pass) -> bool
    requires { IsPassOf interlock.now Press press × IsPassOf interlock.now Robot robot }
{
    let claim = Call::Claim(Zone::Z3);
    let asked = interlock.ask(&mut press, claim);
    let receipt = interlock.receipt(&mut press);
    let (own, looked) = own_in(
        interlock,
        Machine::Robot,
        interlock.look_after(robot, claim, receipt),
    );
    let robot = pass_in(interlock, Machine::Robot, Some(own));
    let (mut press, _robot) = interlock.meet(press, robot);
    asked == Reply::Settled(Answer::Done, 1)
        && looked == StepOutcome::Settled(PRESS_HAS_IT, 1)
        && state_of(1, PRESS_3, false) == Some(interlock.survey(&mut press))
}

#[test]
fn callers_do_not_wait(rt: HostRuntime) {
    let (interlock, passes) = open_interlock(&rt, rt.alloc(), 1);
    assert!(rt; are_answered(interlock, passes));
}

#[test]
fn callers_who_meet_do_not_wait(rt: HostRuntime) {
    let (interlock, passes) = open_interlock(&rt, rt.alloc(), 1);
    let (_feed, _table, robot, press) = stations_of(&interlock, passes);
    assert!(rt; are_met(&interlock, press, robot));
}
