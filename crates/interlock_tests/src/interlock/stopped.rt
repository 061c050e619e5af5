//! Interlocks that open in a stopped state, as those that go on after a power cut may.
ghost use Rattle.cell_interlock.specs.Ends.{ArePassesOf};

use super::closing::{Owned, PRESS_3, state_of};
use cell_interlock::{Interlock, MakeFault, Passes};
use cell_rules::State;
use cell_types::{Answer, Call, Machine, Refusal, Reply, Zone};
use std::alloc::Global;

const PRESS_AND_TABLE: &[Owned] = &[(Zone::Z1, Machine::Table), (Zone::Z3, Machine::Press)];

const STOPPED: Answer = Answer::Refused(Refusal::Stopped);

const REPLIES: [Reply; 4] = [
    Reply::Settled(STOPPED, 7),
    Reply::Settled(STOPPED, 7),
    Reply::Settled(Answer::Done, 8),
    Reply::Settled(Answer::Done, 9),
];

/// Whether a stopped interlock of the stamp 7, in which the press has its interior, refuses a claim as
/// stopped until the watch resumes it, and then lets it be.
fn goes_on(interlock: Interlock, mut passes: Passes) -> bool
    requires { ArePassesOf interlock passes }
{
    let claim = Call::Claim(Zone::Z1);
    let replies = [
        interlock.ask(&mut passes.table, claim),
        interlock.ask(&mut passes.watch, Call::Stop),
        interlock.ask(&mut passes.watch, Call::Resume),
        interlock.ask(&mut passes.table, claim),
    ];
    let left = interlock.close(passes).state;
    replies == REPLIES && state_of(9, PRESS_AND_TABLE, false) == Some(left)
}

/// Whether an interlock opens with a state, if there is memory, and goes on.
fn opens(alloc: Global, opening: State, tries: u8) -> Result<bool, MakeFault> {
    let (interlock, passes) = Interlock::new(alloc, opening, tries)?;
    Ok(goes_on(interlock, passes))
}

// A number of exchanges that a call may lose, and what comes of it.
const TRIES: &[(u8, Result<bool, MakeFault>)] = &[
    (0, Err(MakeFault::Tries)),
    (1, Ok(true)),
    (2, Ok(true)),
    (8, Ok(true)),
    (63, Ok(true)),
    (64, Ok(true)),
    (65, Err(MakeFault::Tries)),
    (255, Err(MakeFault::Tries)),
];

#[test]
fn stopped_interlocks_open_and_go_on(rt: HostRuntime) {
    let opening = state_of(7, PRESS_3, true).expect(&rt, "a stopped state");
    for (tries, wanted) in TRIES {
        assert!(rt; opens(rt.alloc(), opening, *tries) == *wanted, "{tries}");
    }
}
