//! What `plan run` prints of a run: comments of TOML, and the script of its history.
ghost use Rattle.std.specs.Prelude.{◌≡◌, ◌++◌, IfOk, OnOk, None, count_by, flat_map, get_or};
ghost use Rattle.std.specs.Prelude.{string_bytes};
ghost use Rattle.std.specs.List.{range_with_len};
ghost use Rattle.plan_app.specs.RunTexts as spec;

use crate::on_words::push_number;
use crate::words::push_counted;
use plan_rules::State;
use plan_text::{NamedPlan, script_of};
use plan_types::{Answer, Call, Event, Refusal, WATCH};
use std::alloc::{AllocError, Global};

/// What is said before the refusal that has stopped a machine.
const STOPPED: &str = ": stopped by ";

/// What is said before the number of calls.
const JOURNALS: &str = "journals: one legal history of ";

/// What machines have done.
#[derive(Drop)]
pub struct PlanRun {
    /// The calls of all machines, as one legal history.
    pub history: Vec<Event>,
    /// What has stopped each machine, if something has.
    pub stops: Vec<Option<Refusal>>,
}

/// Whether a machine has this number, or the watch.
fn is_caller(named: &NamedPlan, machine: u8) -> bool
    ensures { result ≡ spec.is_caller named.now machine }
{
    machine == WATCH || usize::from(machine) < named.machines().len()
}

/// Whether a call is about a zone, a pose or a place that has a name, and the pose the machine's own.
fn is_own_call(named: &NamedPlan, machine: u8, call: Call) -> bool
    ensures { result ≡ spec.is_own_call named.now machine call }
{
    match call {
        Call::Claim(zone)
        | Call::Give(zone)
        | Call::Yield(zone)
        | Call::Take(zone)
        | Call::Release(zone)
        | Call::Inquire(zone) => usize::from(zone) < named.zones().len(),
        Call::SetPose(pose) => {
            usize::from(pose) < named.poses().len() && named.plan().pose(pose).machine == machine
        }
        Call::Stop | Call::Resume => true,
        Call::Advance(place) => usize::from(place) < named.places().len(),
    }
}

fn is_own_event(named: &NamedPlan, event: &Event) -> bool
    ensures { result ≡ spec.is_own_event named.now event.now }
{
    is_caller(named, event.machine) && is_own_call(named, event.machine, event.call)
}

/// Whether each call of a history is its machine's own.
pub(crate) fn are_own(named: &NamedPlan, history: &[Event]) -> bool
    ensures { result ≡ spec.are_own named.now history.now }
{
    history.iter().all(|event| is_own_event(named, event))
}

/// Whether nothing has stopped a machine.
pub(crate) fn are_fine(stops: &[Option<Refusal>]) -> bool
    ensures { result ≡ spec.are_fine stops.now }
{
    stops.iter().all(|stop| stop.is_none())
}

/// How many calls of a machine were done.
fn done_calls(history: &[Event], machine: u8) -> usize
    ensures { result ≡ count_by (spec.is_done_by machine) history.now }
{
    history
        .iter()
        .filter(|event| event.machine == machine && matches!(event.answer, Answer::Done))
        .count()
}

/// How many calls of a machine were refused.
fn refused_calls(history: &[Event], machine: u8) -> usize
    ensures { result ≡ count_by (spec.is_refused_to machine) history.now }
{
    history
        .iter()
        .filter(|event| event.machine == machine && matches!(event.answer, Answer::Refused(_)))
        .count()
}

/// Adds how many turns the machines took.
pub(crate) fn push_head(text: &mut String, turns: u32, machines: usize) -> Result<(), AllocError>
    ensures { OnOk result
        (string_bytes text.new ≡ string_bytes text.old ++ spec.head_line turns machines) }
{
    text.push_str("# ")?;
    push_counted(text, machines, "machine")?;
    text.push_str(" took ")?;
    push_counted(text, turns as usize, "turn")?;
    text.push_str(" each, in threads of their own, at one pace\n")
}

/// Adds how many calls of a machine were done and refused.
pub(crate) fn push_calls(
    text: &mut String,
    named: &NamedPlan,
    history: &[Event],
    machine: u8,
) -> Result<(), AllocError>
    ensures { OnOk result (string_bytes text.new
        ≡ string_bytes text.old ++ spec.machine_line named.now history.now machine) }
{
    let refused = refused_calls(history, machine);
    text.push_str("# ")?;
    text.push_str(named.machines().name(machine))?;
    text.push_str(": ")?;
    push_counted(text, done_calls(history, machine), "call")?;
    writeln!(text, " done, {refused} refused")
}

/// Adds what has stopped a machine, if something has.
pub(crate) fn push_stop(
    text: &mut String,
    named: &NamedPlan,
    stop: Option<Refusal>,
    machine: u8,
) -> Result<(), AllocError>
    ensures { OnOk result (string_bytes text.new
        ≡ string_bytes text.old ++ spec.stop_line named.now stop machine) }
{
    match stop {
        Some(refusal) => push_stopped(text, named, refusal, machine),
        None => Ok(()),
    }
}

/// Adds that a machine was stopped.
fn push_stopping(text: &mut String, named: &NamedPlan, machine: u8) -> Result<(), AllocError>
    ensures { OnOk result (string_bytes text.new
        ≡ string_bytes text.old ++ spec.stopping_words named.now machine) }
{
    text.push_str("# ")?;
    text.push_str(named.machines().name(machine))?;
    text.push_str(STOPPED)
}

/// Adds by which refusal a machine was stopped.
fn push_stopped(
    text: &mut String,
    named: &NamedPlan,
    refusal: Refusal,
    machine: u8,
) -> Result<(), AllocError>
    ensures { OnOk result (string_bytes text.new
        ≡ string_bytes text.old ++ spec.stopped_line named.now refusal machine) }
{
    push_stopping(text, named, machine)?;
    named.push_answer(text, Answer::Refused(refusal))?;
    text.push_str("\n")
}

/// What has stopped a machine, if something has.
fn stop_of(stops: &[Option<Refusal>], machine: u8) -> Option<Refusal>
    ensures { result ≡ get_or stops.now machine None }
{
    stops.get(usize::from(machine)).copied().flatten()
}

/// Adds the lines of a machine.
fn push_machine(
    text: &mut String,
    named: &NamedPlan,
    run: &PlanRun,
    machine: u8,
) -> Result<(), AllocError>
    ensures { OnOk result (string_bytes text.new ≡ string_bytes text.old
        ++ spec.machine_lines named.now run.now.history.items run.now.stops.items machine) }
{
    push_calls(text, named, &run.history, machine)?;
    push_stop(text, named, stop_of(&run.stops, machine), machine)
}

/// Adds the lines of all machines.
fn push_machines(text: &mut String, named: &NamedPlan, run: &PlanRun) -> Result<(), AllocError>
    ensures { OnOk result (string_bytes text.new ≡ string_bytes text.old
        ++ flat_map (spec.machine_lines named.now run.now.history.items run.now.stops.items)
        (range_with_len 0 named.now.plan.machines)) }
{
    'machines: for machine in 0..named.plan().machines() {
        push_machine(text, named, run, machine)?;
    }
    Ok(())
}

/// Adds of which word a history is, if it is of one.
fn push_word(text: &mut String, word: Option<usize>) -> Result<(), AllocError>
    ensures { OnOk result
        (string_bytes text.new ≡ string_bytes text.old ++ spec.word_words word) }
{
    match word {
        Some(word) => push_number(text, word),
        None => Ok(()),
    }
}

/// Adds how many calls a history has, and of which word it is, if it is of one.
pub(crate) fn push_history(
    text: &mut String,
    word: Option<usize>,
    calls: usize,
) -> Result<(), AllocError>
    ensures { OnOk result
        (string_bytes text.new ≡ string_bytes text.old ++ spec.history_line word calls) }
{
    text.push_str("# ")?;
    push_word(text, word)?;
    text.push_str(JOURNALS)?;
    push_counted(text, calls, "call")?;
    text.push_str("\n")
}

/// Adds what machines did, as comments of TOML.
fn push_comments(
    text: &mut String,
    named: &NamedPlan,
    turns: u32,
    run: &PlanRun,
) -> Result<(), AllocError>
    ensures { OnOk result (string_bytes text.new ≡ string_bytes text.old
        ++ spec.comments_of named.now turns run.now.history.items run.now.stops.items) }
{
    push_head(text, turns, usize::from(named.plan().machines()))?;
    push_machines(text, named, run)?;
    push_history(text, None, run.history.len())
}

/// What machines did, and the script of their history.
pub(crate) fn text_of(
    alloc: Global,
    named: &NamedPlan,
    start: &State,
    turns: u32,
    run: &PlanRun,
) -> Result<String, AllocError>
    ensures { IfOk result (λ text. string_bytes text
        ≡ spec.run_text named.now turns start.now run.now.history.items run.now.stops.items) }
{
    let mut text = String::new(alloc);
    push_comments(&mut text, named, turns, run)?;
    let script = script_of(alloc, named, start, &run.history)?;
    text.push_str(script.as_str())?;
    Ok(text)
}
