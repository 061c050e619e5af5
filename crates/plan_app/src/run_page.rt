//! What `plan run --page` prints: the page of a run.
ghost use Rattle.std.specs.Prelude.{◌≡◌, ◌++◌, IfOk, IfErr, OnOk, None, flat_map};
ghost use Rattle.std.specs.Prelude.{string_bytes};
ghost use Rattle.std.specs.List.{range_with_len};
ghost use Rattle.plan_text.specs.HistoryLaws.{IsStartOf};
ghost use Rattle.plan_app.specs.RunPages as spec;
ghost use Rattle.plan_app.specs.Runs.{IsRunOf, IsUntold};

use crate::page::page_text;
use crate::run::{MAX_CALLS, RunFault, Told, run_machines};
use crate::run_text::{PlanRun, are_fine, are_own};
use crate::words::push_counted;
use plan_document::ProgrammedPlan;
use plan_rules::State;
use plan_text::NamedPlan;
use plan_types::{Answer, Refusal};
use plan_word::laws::starts_are_of_plan;
use std::alloc::{AllocError, Global};
use std::sync::Wait;
use std::thread::Threads;
use std::time::Clock;

/// What is said before the refusal that has stopped a machine.
const STOPPED: &str = " was stopped by ";

/// Runs the machines of a plan from a start, and makes the page of the run.
pub fn run_and_show<T: Threads + Wait + Clock + Sync>(
    rt: &T,
    alloc: Global,
    plan: &ProgrammedPlan,
    start: &State,
    turns: u32,
) -> Result<Told, RunFault>
    requires start { IsStartOf plan.now.named start.now }
    ensures shown { IfOk result (spec.IsShown plan.now turns start.now) }
    ensures fault { IfErr result (IsUntold plan.now turns start.now) }
{
    let run = run_machines(rt, alloc, plan, start, turns)?;
    show_run(alloc, plan, start, turns, &run)
}

/// Makes the page of a run, unless it has more calls than a script may have.
fn show_run(
    alloc: Global,
    plan: &ProgrammedPlan,
    start: &State,
    turns: u32,
    run: &PlanRun,
) -> Result<Told, RunFault>
    requires start { IsStartOf plan.now.named start.now }
    requires run { IsRunOf plan.now turns start.now run.now.history.items run.now.stops.items }
    ensures shown { IfOk result (spec.IsShown plan.now turns start.now) }
    ensures fault { IfErr result (IsUntold plan.now turns start.now) }
{
    if !are_own(&plan.named, &run.history) {
        return Err(RunFault::Audit);
    }
    if run.history.len() > MAX_CALLS {
        return Err(RunFault::Long);
    }
    let note = run_note(alloc, &plan.named, turns, &run.stops)?;
    starts_are_of_plan(plan.named.plan(), start);
    let text = page_text(alloc, plan, start, note.as_str(), run.history.as_slice())?;
    if are_fine(&run.stops) {
        Ok(Told::Fine(text))
    } else {
        Ok(Told::Stopped(text))
    }
}

/// How many turns machines took, and what has stopped them.
fn run_note(
    alloc: Global,
    named: &NamedPlan,
    turns: u32,
    stops: &[Option<Refusal>],
) -> Result<String, AllocError>
    ensures { IfOk result (λ note. string_bytes note ≡ spec.run_note named.now turns stops.now) }
{
    let mut note = String::new(alloc);
    push_turns(&mut note, named, turns)?;
    push_stops(&mut note, named, stops)?;
    Ok(note)
}

fn push_turns(note: &mut String, named: &NamedPlan, turns: u32) -> Result<(), AllocError>
    ensures { OnOk result
        (string_bytes note.new ≡ string_bytes note.old ++ spec.turns_note named.now turns) }
{
    push_counted(note, usize::from(named.plan().machines()), "machine")?;
    note.push_str(" took ")?;
    push_counted(note, turns as usize, "turn")?;
    note.push_str(" each, in threads of their own")
}

fn push_stops(
    note: &mut String,
    named: &NamedPlan,
    stops: &[Option<Refusal>],
) -> Result<(), AllocError>
    ensures { OnOk result (string_bytes note.new ≡ string_bytes note.old
        ++ flat_map (spec.stop_note_of named.now stops.now)
        (range_with_len 0 named.now.plan.machines)) }
{
    'machines: for machine in 0..named.plan().machines() {
        push_stop_of(note, named, stops, machine)?;
    }
    Ok(())
}

fn push_stop_of(
    note: &mut String,
    named: &NamedPlan,
    stops: &[Option<Refusal>],
    machine: u8,
) -> Result<(), AllocError>
    ensures { OnOk result (string_bytes note.new
        ≡ string_bytes note.old ++ spec.stop_note_of named.now stops.now machine) }
{
    match stops.get(usize::from(machine)) {
        Some(stop) => push_stop(note, named, *stop, machine),
        None => Ok(()),
    }
}

/// Adds what has stopped a machine, if something has.
fn push_stop(
    note: &mut String,
    named: &NamedPlan,
    stop: Option<Refusal>,
    machine: u8,
) -> Result<(), AllocError>
    ensures { OnOk result
        (string_bytes note.new ≡ string_bytes note.old ++ spec.stop_note named.now stop machine) }
{
    match stop {
        Some(refusal) => push_refused(note, named, refusal, machine),
        None => Ok(()),
    }
}

/// Adds by which refusal a machine was stopped.
fn push_refused(
    note: &mut String,
    named: &NamedPlan,
    refusal: Refusal,
    machine: u8,
) -> Result<(), AllocError>
    ensures { OnOk result (string_bytes note.new
        ≡ string_bytes note.old ++ spec.refused_note named.now refusal machine) }
{
    push_stopped(note, named, machine)?;
    named.push_answer(note, Answer::Refused(refusal))
}

/// Adds that a machine was stopped.
fn push_stopped(note: &mut String, named: &NamedPlan, machine: u8) -> Result<(), AllocError>
    ensures { OnOk result
        (string_bytes note.new ≡ string_bytes note.old ++ spec.stopped_words named.now machine) }
{
    note.push_str("; ")?;
    note.push_str(named.machines().name(machine))?;
    note.push_str(STOPPED)
}
