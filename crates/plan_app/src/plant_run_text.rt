//! What `plan run --words` prints of a run: comments of TOML, and of each word the script of its history.
ghost use Rattle.std.specs.Prelude.{◌≡◌, ◌++◌, IfOk, OnOk, flat_map, get_or, length, slice_get};
ghost use Rattle.std.specs.Prelude.{map, string_bytes};
ghost use Rattle.std.specs.List.{range_with_len};
ghost use Rattle.plan_explorer.specs.Plants.{state_on};
ghost use Rattle.plan_app.specs.PlantRunTexts as spec;

use crate::run_text::{are_own, push_calls, push_head, push_history, push_stop};
use plan_document::ProgrammedPlan;
use plan_rules::State;
use plan_text::{NamedPlan, script_of};
use plan_types::{Event, MAX_PLACES, Refusal};
use std::alloc::{AllocError, Global};

/// What has stopped a machine.
#[derive(Clone, Copy, PartialEq, Eq, Debug)]
pub struct PlantStop {
    /// The word on which it was refused.
    pub word: usize,
    /// By which refusal.
    pub refusal: Refusal,
}

/// What machines have done.
#[derive(Drop)]
pub struct PlantRun {
    /// The calls of all machines on each word, as one legal history.
    pub histories: Vec<Vec<Event>>,
    /// What has stopped each machine, if something has.
    pub stops: Vec<Option<PlantStop>>,
}

/// Whether nothing has stopped a machine.
pub(crate) fn are_fine(stops: &[Option<PlantStop>]) -> bool
    ensures { result ≡ spec.are_fine stops.now }
{
    stops.iter().all(|stop| stop.is_none())
}

/// Whether each call of each word's history is its machine's own.
pub(crate) fn are_own_on_each(plans: &[ProgrammedPlan], histories: &[Vec<Event>]) -> bool
    ensures { result ≡ spec.are_own_on_each plans.now (map (λ h. h.items) histories.now) }
{
    (0..plans.len()).all(|word| are_own_on(plans, histories, word))
}

/// Whether each call of a word's history is its machine's own.
fn are_own_on(plans: &[ProgrammedPlan], histories: &[Vec<Event>], word: usize) -> bool
    ensures { result ≡ spec.are_own_on plans.now (map (λ h. h.items) histories.now) word }
{
    match plans.get(word) {
        Some(plan) => are_own(&plan.named, history_on(histories, word)),
        None => true,
    }
}

/// The history of a word.
pub(crate) fn history_on(histories: &[Vec<Event>], word: usize) -> &[Event]
    ensures { result.now ≡ spec.history_on (map (λ h. h.items) histories.now) word }
{
    match histories.get(word) {
        Some(history) => history.as_slice(),
        None => &[],
    }
}

/// The start of a word.
pub(crate) fn start_on(starts: &[State], word: usize) -> State
    ensures { result ≡ state_on starts.now word }
{
    match starts.get(word) {
        Some(start) => *start,
        None => State::start([false; MAX_PLACES], 0),
    }
}

/// The events of all words.
fn all_of(alloc: Global, histories: &[Vec<Event>]) -> Result<Vec<Event>, AllocError>
    ensures { IfOk result
        (λ events. events.items ≡ spec.all_of (map (λ h. h.items) histories.now)) }
{
    let mut events = Vec::new(alloc);
    'words: for word in 0..histories.len() {
        events.extend_from_slice(histories[word].as_slice())?;
    }
    Ok(events)
}

// ---- machines, on all words

/// Adds what has stopped a machine, by the names of the word on which it did.
fn push_stop_on(
    text: &mut String,
    plans: &[ProgrammedPlan],
    stop: Option<PlantStop>,
    machine: u8,
) -> Result<(), AllocError>
    ensures { OnOk result (string_bytes text.new
        ≡ string_bytes text.old ++ spec.stop_on plans.now stop machine) }
{
    match stop {
        Some(stop) => push_stop_by(text, plans, stop, machine),
        None => Ok(()),
    }
}

fn push_stop_by(
    text: &mut String,
    plans: &[ProgrammedPlan],
    stop: PlantStop,
    machine: u8,
) -> Result<(), AllocError>
    ensures { OnOk result (string_bytes text.new
        ≡ string_bytes text.old ++ spec.stop_by (slice_get plans.now stop.word) stop machine) }
{
    match plans.get(stop.word) {
        Some(plan) => push_stop(text, &plan.named, Some(stop.refusal), machine),
        None => Ok(()),
    }
}

/// What has stopped a machine, if something has.
fn stop_of(stops: &[Option<PlantStop>], machine: u8) -> Option<PlantStop>
    ensures { result ≡ get_or stops.now machine None }
{
    stops.get(usize::from(machine)).copied().flatten()
}

/// Adds the lines of a machine.
fn push_machine(
    text: &mut String,
    plans: &[ProgrammedPlan],
    first: &NamedPlan,
    events: &[Event],
    stops: &[Option<PlantStop>],
    machine: u8,
) -> Result<(), AllocError>
    ensures { OnOk result (string_bytes text.new ≡ string_bytes text.old
        ++ spec.machine_lines plans.now first.now events.now stops.now machine) }
{
    push_calls(text, first, events, machine)?;
    push_stop_on(text, plans, stop_of(stops, machine), machine)
}

/// Adds the lines of all machines.
fn push_machines(
    text: &mut String,
    plans: &[ProgrammedPlan],
    first: &NamedPlan,
    events: &[Event],
    stops: &[Option<PlantStop>],
) -> Result<(), AllocError>
    ensures { OnOk result (string_bytes text.new ≡ string_bytes text.old
        ++ flat_map (spec.machine_lines plans.now first.now events.now stops.now)
        (range_with_len 0 first.now.plan.machines)) }
{
    'machines: for machine in 0..first.plan().machines() {
        push_machine(text, plans, first, events, stops, machine)?;
    }
    Ok(())
}

/// Adds what machines did, as comments of TOML, by the names in the plan of the first word.
fn push_comments_by(
    text: &mut String,
    plans: &[ProgrammedPlan],
    first: &NamedPlan,
    turns: u32,
    events: &[Event],
    stops: &[Option<PlantStop>],
) -> Result<(), AllocError>
    ensures { OnOk result (string_bytes text.new ≡ string_bytes text.old
        ++ spec.comments_by plans.now first.now turns events.now stops.now) }
{
    push_head(text, turns, usize::from(first.plan().machines()))?;
    push_machines(text, plans, first, events, stops)
}

fn push_comments(
    text: &mut String,
    plans: &[ProgrammedPlan],
    turns: u32,
    events: &[Event],
    stops: &[Option<PlantStop>],
) -> Result<(), AllocError>
    ensures { OnOk result (string_bytes text.new ≡ string_bytes text.old
        ++ spec.comments_of plans.now (slice_get plans.now 0) turns events.now stops.now) }
{
    match plans.get(0) {
        Some(first) => push_comments_by(text, plans, &first.named, turns, events, stops),
        None => Ok(()),
    }
}

// ---- words

/// Adds a word's number and how many calls it had, and the script of its history.
fn push_part_by(
    text: &mut String,
    alloc: Global,
    named: &NamedPlan,
    word: usize,
    start: &State,
    history: &[Event],
) -> Result<(), AllocError>
    ensures { OnOk result (string_bytes text.new ≡ string_bytes text.old
        ++ spec.part_by named.now word start.now history.now) }
{
    push_history(text, Some(word), history.len())?;
    let script = script_of(alloc, named, start, history)?;
    text.push_str(script.as_str())
}

fn push_part(
    text: &mut String,
    alloc: Global,
    plans: &[ProgrammedPlan],
    starts: &[State],
    histories: &[Vec<Event>],
    word: usize,
) -> Result<(), AllocError>
    ensures { OnOk result (string_bytes text.new ≡ string_bytes text.old
        ++ spec.part_on plans.now starts.now (map (λ h. h.items) histories.now) word) }
{
    match plans.get(word) {
        Some(plan) => push_part_by(
            text,
            alloc,
            &plan.named,
            word,
            &start_on(starts, word),
            history_on(histories, word),
        ),
        None => Ok(()),
    }
}

/// Adds the part of each word.
fn push_parts(
    text: &mut String,
    alloc: Global,
    plans: &[ProgrammedPlan],
    starts: &[State],
    histories: &[Vec<Event>],
) -> Result<(), AllocError>
    ensures { OnOk result (string_bytes text.new ≡ string_bytes text.old
        ++ flat_map (spec.part_on plans.now starts.now (map (λ h. h.items) histories.now))
        (range_with_len 0 (length plans.now))) }
{
    'words: for word in 0..plans.len() {
        push_part(text, alloc, plans, starts, histories, word)?;
    }
    Ok(())
}

/// What machines did, and of each word the script of its history.
pub(crate) fn plant_text_of(
    alloc: Global,
    plans: &[ProgrammedPlan],
    starts: &[State],
    turns: u32,
    run: &PlantRun,
) -> Result<String, AllocError>
    ensures { IfOk result (λ text. string_bytes text ≡ spec.plant_run_text plans.now turns
        starts.now (map (λ h. h.items) run.now.histories.items) run.now.stops.items) }
{
    let events = all_of(alloc, &run.histories)?;
    let mut text = String::new(alloc);
    push_text(
        &mut text,
        alloc,
        plans,
        starts,
        turns,
        run,
        events.as_slice(),
    )?;
    Ok(text)
}

#[tactic(auto, unfolding(crate::specs::PlantRunTexts::plant_run_text))]
fn push_text(
    text: &mut String,
    alloc: Global,
    plans: &[ProgrammedPlan],
    starts: &[State],
    turns: u32,
    run: &PlantRun,
    events: &[Event],
) -> Result<(), AllocError>
    requires { events.now ≡ spec.all_of (map (λ h. h.items) run.now.histories.items) }
    ensures { OnOk result (string_bytes text.new ≡ string_bytes text.old
        ++ spec.plant_run_text plans.now turns starts.now
        (map (λ h. h.items) run.now.histories.items) run.now.stops.items) }
{
    push_comments(text, plans, turns, events, &run.stops)?;
    push_parts(text, alloc, plans, starts, &run.histories)
}
