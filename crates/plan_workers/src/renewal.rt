//! Interlocks of a plan, each of which goes on where another has ended.
ghost use Rattle.std.specs.Prelude.{◌≡◌, ◌≤◌, IfOk, IfErr, IfSome};
ghost use Rattle.word_interlock.specs.Bunches.{IsEnd, fresh_passes};
ghost use Rattle.plan_interlock.specs.Book.{plan_book, plan_of};
ghost use Rattle.plan_workers.specs.Renewing.{IsRenewed, restamped};

use plan_interlock::{PlanInterlock, PlanRules};
use plan_rules::State;
use plan_types::Plan;
use std::alloc::Global;
use word_interlock::{Interlock, Passes};

/// An interlock of a plan that opens with a state, with stamp 0, and its passes: those of the machines in their order,
/// and the watch's. A call may lose `tries` exchanges. `None` if memory ran out.
pub fn open_from(
    alloc: Global,
    plan: &Plan,
    state: &State,
    tries: u8,
) -> Option<(PlanInterlock, Passes<PlanRules>)>
    requires tries { (1 ≤ tries) × (tries ≤ 64) }
    requires sound { (plan_book plan.now).is_sound state.now }
    ensures plan { IfSome result (λ made. plan_of made.0.rules ≡ plan.now) }
    ensures opening { IfSome result (λ made. made.0.opening ≡ restamped state.now) }
    ensures limit { IfSome result (λ made. made.0.tries ≡ tries) }
    ensures passes { IfSome result
        (λ made. made.1 ≡ fresh_passes made.0 (plan_book plan.now).actors) }
{
    let Ok(plan) = plan.clone() else {
        return None;
    };
    let rules = PlanRules::new(plan);
    let opening = State { stamp: 0, ..*state };
    let Ok(made) = Interlock::new(alloc, rules, opening, tries) else {
        return None;
    };
    Some(made)
}

/// Ends an interlock of a plan, whose passes have come back, and opens the next one, with new passes: with the same
/// zones, places and stop, and stamp 0. A call may lose `tries` exchanges.
///
/// Errors: if memory ran out, the state that the interlock has left; `open_from` may open from it later.
pub fn renew(
    alloc: Global,
    plan: &Plan,
    interlock: PlanInterlock,
    passes: Passes<PlanRules>,
    tries: u8,
) -> Result<(PlanInterlock, Passes<PlanRules>), State>
    requires plan { plan_of interlock.rules ≡ plan.now }
    requires same_interlock { passes.table ≡ interlock.table }
    requires sound { (plan_book plan.now).is_sound interlock.opening }
    requires tries { (1 ≤ tries) × (tries ≤ 64) }
    ensures renewed { IfOk result (λ made.
        IsRenewed plan.now interlock.opening passes.actors made.0 made.1) }
    ensures limit { IfOk result (λ made. made.0.tries ≡ tries) }
    ensures left { IfErr result (IsEnd (plan_book plan.now) interlock.opening passes.actors) }
{
    let end = interlock.close(passes);
    match open_from(alloc, plan, &end, tries) {
        Some(made) => Ok(made),
        None => Err(end),
    }
}
