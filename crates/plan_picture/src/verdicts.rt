//! What keeps the motors of each hazard apart.
ghost use Rattle.std.specs.Prelude.{◌≡◌, ◌++◌, IfOk, OnOk, string_bytes};
ghost use Rattle.std.specs.List.{AllZip};
ghost use Rattle.plan_motors.specs.OfPlan as of_plan;
ghost use Rattle.plan_picture.specs.Pictures as spec;

use plan_document::ProgrammedPlan;
use plan_header::motor_at;
use plan_motors::{Cause, Hazard, Verdict, judge};
use plan_rules::State;
use plan_text::NamedPlan;
use plan_types::MAX_PLACES;
use std::alloc::{AllocError, Global};

/// What keeps the motors of each hazard apart.
pub(crate) fn verdicts_of(alloc: Global, plan: &ProgrammedPlan) -> Result<Vec<Verdict>, AllocError>
    ensures { IfOk result (λ verdicts. AllZip
        (spec.IsVerdictOf plan.now.named.plan plan.now.motors.motors.items)
        plan.now.motors.hazards.items verdicts.items) }
{
    let mut verdicts = Vec::new(alloc);
    for i in 0..plan.motors.hazards.len() {
        verdicts.push(verdict_at(plan, i))?;
    }
    Ok(verdicts)
}

/// What keeps the motors of the hazard with a number apart; of the first motor alone if there is no such hazard.
fn verdict_at(plan: &ProgrammedPlan, hazard: usize) -> Verdict
    ensures { spec.IsVerdictOf plan.now.named.plan plan.now.motors.motors.items
        (of_plan.hazard_at plan.now.motors.hazards.items hazard) result }
{
    match plan.motors.hazards.get(hazard) {
        Some(hazard) => verdict_of(plan, *hazard),
        None => verdict_of(
            plan,
            Hazard {
                first: 0,
                second: 0,
            },
        ),
    }
}

/// What keeps the motors of a hazard apart, from each start on, or a state that permits both.
pub fn verdict_of(plan: &ProgrammedPlan, hazard: Hazard) -> Verdict
    ensures { spec.IsVerdictOf plan.now.named.plan plan.now.motors.motors.items hazard result }
{
    let first = motor_at(&plan.motors.motors, hazard.first);
    let second = motor_at(&plan.motors.motors, hazard.second);
    judge(
        plan.named.plan(),
        &first,
        &second,
        &State::start([false; MAX_PLACES], 0),
    )
}

/// Adds what keeps two motors apart, in words, as `kept apart by interior`; or `NOT kept apart`. Out of memory, a part
/// of it may have been added.
pub fn push_verdict(
    text: &mut String,
    named: &NamedPlan,
    verdict: Verdict,
) -> Result<(), AllocError>
    ensures { OnOk result (string_bytes text.new
        ≡ string_bytes text.old ++ spec.verdict_words named.now verdict) }
{
    match verdict {
        Verdict::Excluded(Cause::Zone(zone)) => {
            push_two(text, "kept apart by ", named.spaces().name(zone))
        }
        Verdict::Excluded(Cause::Place(place)) => {
            push_two(text, "kept apart by place ", named.places().name(place))
        }
        Verdict::ByPoses(machine) => push_two(
            text,
            "kept apart by the poses of ",
            named.machines().name(machine),
        ),
        Verdict::Possible(_) => text.push_str("NOT kept apart"),
    }
}

fn push_two(text: &mut String, first: &str, second: &str) -> Result<(), AllocError>
    ensures { OnOk result (string_bytes text.new
        ≡ string_bytes text.old ++ (first.now ++ second.now)) }
{
    text.push_str(first)?;
    text.push_str(second)
}
