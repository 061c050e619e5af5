//! Plays steps on a new interlock. Each outcome has to be the wanted one.
ghost use Rattle.interlock_tests.specs.Held.{AreHeld};

use super::callers::{Callers, Step, StepOutcome, callers_by, make_step, passes_in};
use super::opened_at;
use cell_interlock::Interlock;
use cell_rules::State;
use cell_types::Machine;
use std::alloc::Global;
use std::process::Abort;

/// A step that a machine has taken, and its outcome.
pub type Taken = (Machine, Step, StepOutcome);

/// Whether callers take these steps with these outcomes.
fn take_steps(interlock: &Interlock, callers: &mut Callers, steps: &[Taken]) -> bool
    requires { AreHeld interlock.now callers.old }
    ensures { AreHeld interlock.now callers.new }
{
    let mut are_taken = true;
    for (machine, next, wanted) in steps {
        let outcome = make_step(interlock, callers, *machine, *next);
        are_taken = are_taken && outcome == *wanted;
    }
    are_taken
}

/// The state that an interlock leaves if these steps are taken in this order, and then it is
/// closed, and whether they have these outcomes. It is a new one with this first stamp and no plates.
pub fn state_left(
    rt: &impl Abort,
    alloc: Global,
    first: u32,
    tries: u8,
    steps: &[Taken],
) -> (State, bool) {
    let (interlock, passes) = opened_at(rt, alloc, first, tries);
    let mut callers = callers_by(&interlock, passes);
    let are_taken = take_steps(&interlock, &mut callers, steps);
    let passes = passes_in(&interlock, callers);
    (interlock.close(passes).state, are_taken)
}
