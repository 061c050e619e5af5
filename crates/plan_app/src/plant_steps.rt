//! The program of a machine on all words of a plant, of the programs that it has on each.
ghost use Rattle.std.specs.Prelude.{◌≡◌, ◌↔◌, ◌+◌, ◌<◌, Some, None, IfOk, IfSome, IsSome, IsNone, IsTrue};
ghost use Rattle.std.specs.Prelude.{length, slice_get};
ghost use Rattle.plan_types.specs.declared.call.Call.TheVariants.{Inquire};
ghost use Rattle.plan_controller.specs.declared.step.Step.TheVariants as step;
ghost use Rattle.plan_explorer.specs.PlantPrograms.{routed_of};
ghost use Rattle.plan_workers.specs.PlantSteps.{steps_on};
ghost use Rattle.plan_workers.specs.declared.routed_step.RoutedStep.TheVariants as routed_step;
ghost use Rattle.plan_app.specs.PlantStarts.{HasWords};
ghost use Rattle.plan_app.specs.WholePrograms as spec;
ghost use Rattle.plan_app.specs.WholePrograms.{AreFirst, IsNext, IsProgramOf};

use crate::run::steps_of;
use plan_controller::{Faults, Step};
use plan_document::{ProgrammedPlan, ProgrammedPlant};
use plan_explorer::RoutedCall;
use plan_types::Call;
use plan_workers::RoutedStep;
use std::alloc::{AllocError, Global};

// ---- what a word has, and what comes next

/// The program of a machine on a word.
pub(crate) fn program_on(plans: &[ProgrammedPlan], machine: u8, word: usize) -> &[Step]
    ensures { result.now ≡ spec.program_on plans.now machine word }
{
    match plans.get(word) {
        Some(plan) => steps_of(plan, machine),
        None => &[],
    }
}

/// How many of these steps stand on a word.
fn count_on(steps: &[RoutedStep], word: usize) -> usize
    ensures { result ≡ length (steps_on word steps.now) }
{
    steps.iter().filter_map(|step| step.on(word)).count()
}

/// The call that a step asks, with its word.
fn call_of(step: RoutedStep) -> Option<RoutedCall>
    ensures { result ≡ spec.call_of step }
{
    match step {
        RoutedStep::Do { word, call, .. } => Some(RoutedCall { word, call }),
        RoutedStep::Await { word, zone } => Some(RoutedCall {
            word,
            call: Call::Inquire(zone),
        }),
        RoutedStep::Run { .. } => None,
    }
}

/// How many of these steps ask a call.
fn count_calls(steps: &[RoutedStep]) -> usize
    ensures { result ≡ length (spec.calls_of steps.now) }
{
    steps.iter().filter_map(|step| call_of(*step)).count()
}

/// The next step of a machine on a word, after these.
fn next_on(plans: &[ProgrammedPlan], machine: u8, word: usize, done: &[RoutedStep]) -> Option<Step>
    ensures { result ≡ slice_get (spec.program_on plans.now machine word)
        (length (steps_on word done.now)) }
{
    program_on(plans, machine, word)
        .get(count_on(done, word))
        .copied()
}

/// How many calls the program of a machine asks.
fn call_count(plant: &ProgrammedPlant, machine: u8) -> u8
    ensures { result ≡ length (routed_of plant.now.programs.programs machine) }
{
    plant.programs.calls().step_count(machine)
}

/// The next call of a machine, after these steps.
fn next_call(plant: &ProgrammedPlant, machine: u8, done: &[RoutedStep]) -> Option<RoutedCall>
    ensures { result ≡ slice_get (routed_of plant.now.programs.programs machine)
        (length (spec.calls_of done.now)) }
{
    let count = count_calls(done);
    if count < usize::from(call_count(plant, machine)) {
        plant.programs.call(machine, count as u8)
    } else {
        None
    }
}

// ---- the next step on all words

/// Whether two calls are one.
fn is_same_call(one: Call, other: Call) -> bool
    ensures { IsTrue result ↔ one ≡ other }
{
    match (one, other) {
        (Call::Claim(one), Call::Claim(other)) => one == other,
        (Call::Give(one), Call::Give(other)) => one == other,
        (Call::Yield(one), Call::Yield(other)) => one == other,
        (Call::Take(one), Call::Take(other)) => one == other,
        (Call::Release(one), Call::Release(other)) => one == other,
        (Call::Inquire(one), Call::Inquire(other)) => one == other,
        (Call::SetPose(one), Call::SetPose(other)) => one == other,
        (Call::Advance(one), Call::Advance(other)) => one == other,
        (Call::Stop, Call::Stop) | (Call::Resume, Call::Resume) => true,
        _ => false,
    }
}

/// Whether a call of a program is this one, on this word.
fn is_call(routed: Option<RoutedCall>, word: usize, call: Call) -> bool
    ensures { IsTrue result ↔ routed ≡ Some (spec.routed word call) }
{
    match routed {
        Some(routed) => routed.word == word && is_same_call(routed.call, call),
        None => false,
    }
}

/// Whether a step runs these motors until this sensor shows.
fn is_run(found: Option<Step>, motors: u64, until: u8) -> bool
    ensures { IsTrue result ↔ found ≡ Some (step.Run motors until) }
{
    match found {
        Some(
            Step::Run {
                motors: own,
                until: sensor,
            },
        ) => own == motors && sensor == until,
        _ => false,
    }
}

/// Whether on each word the next step runs these motors until this sensor shows.
fn are_runs(
    plans: &[ProgrammedPlan],
    machine: u8,
    done: &[RoutedStep],
    motors: u64,
    until: u8,
) -> bool
    ensures { IsTrue result ↔ spec.AreAllAt plans.now machine done.now (Some (step.Run motors until)) }
{
    for word in 0..plans.len() {
        if !is_run(next_on(plans, machine, word, done), motors, until) {
            return false;
        }
    }
    true
}

/// The word of the next call; word 0 where no call is left.
fn word_of(routed: Option<RoutedCall>) -> usize
    ensures { result ≡ spec.word_by routed }
{
    match routed {
        Some(routed) => routed.word,
        None => 0,
    }
}

/// The next step of a machine on all words, after these: that of the word of its next call, or where no call is left,
/// of word 0. A run is the next step of each word. `None` where no step comes next.
fn next_step(plant: &ProgrammedPlant, machine: u8, done: &[RoutedStep]) -> Option<RoutedStep>
    requires words { HasWords plant.now }
    requires some { 0 < length plant.now.plans.items }
    ensures next { IfSome result (IsNext plant.now.plans.items
        (routed_of plant.now.programs.programs machine) machine done.now) }
    ensures none { IsNone result → spec.HasNoNext plant.now.plans.items
        (routed_of plant.now.programs.programs machine) machine done.now }
{
    let routed = next_call(plant, machine, done);
    let word = word_of(routed);
    let _ = plant.programs.words();
    match next_on(&plant.plans, machine, word, done) {
        Some(Step::Do(call, faults)) => asked_step(routed, word, call, faults),
        Some(Step::Await(zone)) => awaited_step(routed, word, zone),
        Some(Step::Run { motors, until }) => run_step(plant, machine, done, motors, until),
        None => None,
    }
}

/// A call on a word, if it is the next one.
fn asked_step(
    routed: Option<RoutedCall>,
    word: usize,
    call: Call,
    faults: Faults,
) -> Option<RoutedStep>
    ensures step { IfSome result (λ next. next ≡ routed_step.Do word call faults) }
    ensures asks { IsSome result ↔ routed ≡ Some (spec.routed word call) }
{
    if is_call(routed, word, call) {
        Some(RoutedStep::Do { word, call, faults })
    } else {
        None
    }
}

/// A wait for a zone of a word, if its inquiry is the next call.
fn awaited_step(routed: Option<RoutedCall>, word: usize, zone: u8) -> Option<RoutedStep>
    ensures step { IfSome result (λ next. next ≡ routed_step.Await word zone) }
    ensures asks { IsSome result ↔ routed ≡ Some (spec.routed word (Inquire zone)) }
{
    if is_call(routed, word, Call::Inquire(zone)) {
        Some(RoutedStep::Await { word, zone })
    } else {
        None
    }
}

/// A run, if it is the next step of each word.
fn run_step(
    plant: &ProgrammedPlant,
    machine: u8,
    done: &[RoutedStep],
    motors: u64,
    until: u8,
) -> Option<RoutedStep>
    ensures step { IfSome result (λ next. next ≡ routed_step.Run motors until) }
    ensures runs { IsSome result
        ↔ spec.AreAllAt plant.now.plans.items machine done.now (Some (step.Run motors until)) }
{
    if are_runs(&plant.plans, machine, done, motors, until) {
        Some(RoutedStep::Run { motors, until })
    } else {
        None
    }
}

// ---- all steps

/// Whether no step of a word is left after these.
fn are_ended(plans: &[ProgrammedPlan], machine: u8, done: &[RoutedStep]) -> bool
    ensures { IsTrue result ↔ spec.AreAllAt plans.now machine done.now None }
{
    for word in 0..plans.len() {
        if next_on(plans, machine, word, done).is_some() {
            return false;
        }
    }
    true
}

/// The steps of a machine, if no step and no call is left after them.
fn if_ended(plant: &ProgrammedPlant, machine: u8, done: Vec<RoutedStep>) -> Option<Vec<RoutedStep>>
    requires { AreFirst plant.now.plans.items (routed_of plant.now.programs.programs machine)
        machine done.items }
    ensures program { IfSome result (λ steps. IsProgramOf plant.now machine steps.items) }
    ensures none { IsNone result → ¬ IsProgramOf plant.now machine done.items }
{
    if next_call(plant, machine, &done).is_none() && are_ended(&plant.plans, machine, &done) {
        Some(done)
    } else {
        None
    }
}

/// More steps than a program may have: each asks a call, or is one of word 0.
fn step_limit(plant: &ProgrammedPlant, machine: u8) -> usize
    ensures { length (routed_of plant.now.programs.programs machine)
        + length (spec.program_on plant.now.plans.items machine 0) < result }
{
    usize::from(call_count(plant, machine)) + 1 + program_on(&plant.plans, machine, 0).len()
}

/// The program of a machine on all words. `None` if what it has on the words isn't one program: that doesn't come of a
/// plant that was read, whose words have the lines of one program.
pub(crate) fn plant_program(
    alloc: Global,
    plant: &ProgrammedPlant,
    machine: u8,
) -> Result<Option<Vec<RoutedStep>>, AllocError>
    requires words { HasWords plant.now }
    requires some { 0 < length plant.now.plans.items }
    ensures program { IfOk result (λ found. IfSome found
        (λ steps. IsProgramOf plant.now machine steps.items)) }
    ensures none { IfOk result (λ found. IsNone found → spec.HasNoProgram plant.now machine) }
{
    let mut done = Vec::new(alloc);
    for count in 0..step_limit(plant, machine) {
        match next_step(plant, machine, &done) {
            Some(next) => done.push(next)?,
            None => return Ok(if_ended(plant, machine, done)),
        }
    }
    Ok(None)
}
