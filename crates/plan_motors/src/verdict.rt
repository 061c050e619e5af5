//! What is said of a hazard.
ghost use Rattle.std.specs.Prelude.{◌≡◌, ◌<◌, ℕ, false, IsTrue};
ghost use Rattle.plan_rules.specs.State.{posture_at};
ghost use Rattle.plan_motors.specs.Poses.{NeverFromPostures, LeadToDanger};
ghost use Rattle.plan_motors.specs.Verdict.{IsShownBy, is_never};

use crate::exclusion::{Cause, Exclusion, exclude};
use crate::motor::Motor;
use crate::poses::apart_by_poses;
use plan_rules::State;
use plan_types::Plan;

/// What is said of two motors that are never to be permitted both.
#[derive(Clone, Copy, Debug, PartialEq, Eq)]
pub enum Verdict {
    /// No sound state permits both.
    Excluded(Cause),
    /// By the poses of this machine, no state after a legal history from a sound opening with these postures permits
    /// both.
    ByPoses(u8),
    /// This sound state permits both, and the poses of each machine lead from the opening's postures to such as both
    /// need.
    Possible(State),
}

fn verdict_by_poses(
    plan: &Plan,
    first: &Motor,
    second: &Motor,
    opening: &State,
    state: State,
) -> Verdict
    requires { IsShownBy plan.now first.now second.now opening.now (Verdict.Possible state) }
    ensures shown { IsShownBy plan.now first.now second.now opening.now result }
    ensures never { IsTrue (is_never result) → NeverFromPostures plan.now opening.now first.now second.now }
    ensures led { is_never result ≡ false → (m : ℕ) → m < plan.now.machines
        → LeadToDanger plan.now first.now second.now m (λ z. posture_at opening.now z) }
{
    match apart_by_poses(plan, first, second, opening) {
        Some(host) => Verdict::ByPoses(host),
        None => Verdict::Possible(state),
    }
}

/// Whether two motors are kept apart: in every sound state, or else by the poses of the plan, from an opening on. Every
/// start has the same postures, so what is said of one start holds of each.
pub fn judge(plan: &Plan, first: &Motor, second: &Motor, opening: &State) -> Verdict
    ensures shown { IsShownBy plan.now first.now second.now opening.now result }
    ensures never { IsTrue (is_never result) → NeverFromPostures plan.now opening.now first.now second.now }
    ensures led { is_never result ≡ false → (m : ℕ) → m < plan.now.machines
        → LeadToDanger plan.now first.now second.now m (λ z. posture_at opening.now z) }
{
    let _ = plan.machines();
    match exclude(plan, first, second) {
        Exclusion::Excluded(cause) => Verdict::Excluded(cause),
        Exclusion::Possible(state) => verdict_by_poses(plan, first, second, opening, state),
    }
}
