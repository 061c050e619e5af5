//! What `plan explore --words` prints where nothing stands still: whether each machine goes on for ever, on all words
//! of the plant together.
ghost use Rattle.std.specs.Prelude.{◌≡◌, ◌++◌, ◌<◌, None, Some, IfOk, OnOk, find, flat_map, option_and_then};
ghost use Rattle.std.specs.Prelude.{string_bytes};
ghost use Rattle.plan_app.specs.Going.{told_if};
ghost use Rattle.plan_app.specs.PlantGoing as spec;
ghost use Rattle.plan_app.specs.PlantGoing.{IsOpened};
ghost use Rattle.plan_app.specs.PlantScreens.{outlook_after};

use crate::apart::{group_number, some_move_plates};
use crate::going::{
    AGAIN, FAIRNESS, push_answer, push_event, push_moving, push_outlook, push_plates_unknown,
    push_rest,
};
use plan_document::ProgrammedPlan;
use plan_explorer::{Groups, PlantPrograms, PlantWalk, RoutedEvent, take_plant_turns};
use plan_liveness::{FairOrder, Liveness, Progress};
use plan_rules::State;
use plan_text::NamedPlan;
use plan_types::Plan;
use std::alloc::{AllocError, Global};

/// A plant, and an opening for each of its words; and of which machines is told.
#[derive(Clone, Copy)]
pub struct OpenedPlant<'a> {
    /// What is said of each word, by the word's number.
    pub plans: &'a [ProgrammedPlan],
    /// Their tables.
    pub tables: &'a [&'a Plan],
    /// What each machine asks on which word.
    pub programs: &'a PlantPrograms,
    /// Where each word begins.
    pub openings: &'a [State],
    /// The group that is told of, or `None`: all machines.
    pub group: Option<Group>,
}

/// A group of a plant's machines.
#[derive(Clone, Copy)]
pub struct Group {
    /// The number of each machine's group.
    pub groups: Groups,
    /// The number of this one.
    pub number: u8,
}

/// Whether it is told of a machine.
pub(crate) fn is_told(plant: &OpenedPlant, machine: u8) -> bool
    requires { machine < 30 }
    ensures { result ≡ spec.machines_of plant.now.group machine }
{
    match plant.group {
        Some(group) => group_number(&group.groups, machine) == group.number,
        None => true,
    }
}

// ---- what turns ask

/// What turns from the openings ask, and what each machine asks after them.
pub(crate) fn walk_of(
    alloc: Global,
    plant: &OpenedPlant,
    turns: &[u8],
) -> Result<PlantWalk, AllocError>
    requires { IsOpened plant.now }
    ensures events { IfOk result (λ walk. walk.events.items ≡ spec.asked_by plant.now.plans.now
        plant.now.programs.now.programs plant.now.openings.now turns.now) }
    ensures outlook { IfOk result (λ walk. walk.outlook.items ≡ outlook_after plant.now.plans.now
        plant.now.programs.now.programs plant.now.openings.now turns.now) }
{
    take_plant_turns(alloc, plant.tables, plant.openings, plant.programs, turns)
}

/// What turns from the openings ask.
fn events_of(
    alloc: Global,
    plant: &OpenedPlant,
    turns: &[u8],
) -> Result<Vec<RoutedEvent>, AllocError>
    requires { IsOpened plant.now }
    ensures { IfOk result (λ events. events.items ≡ spec.asked_by plant.now.plans.now
        plant.now.programs.now.programs plant.now.openings.now turns.now) }
{
    let walk = walk_of(alloc, plant, turns)?;
    Ok(walk.events)
}

/// What each machine asks after turns from the openings.
fn outlook_of(
    alloc: Global,
    plant: &OpenedPlant,
    turns: &[u8],
) -> Result<Vec<RoutedEvent>, AllocError>
    requires { IsOpened plant.now }
    ensures { IfOk result (λ outlook. outlook.items ≡ outlook_after plant.now.plans.now
        plant.now.programs.now.programs plant.now.openings.now turns.now) }
{
    let walk = walk_of(alloc, plant, turns)?;
    Ok(walk.outlook)
}

/// The event of the machine that is named, if one is.
fn event_if(events: &[RoutedEvent], who: Option<u8>) -> Option<RoutedEvent>
    ensures { result ≡ option_and_then (λ machine. find (spec.is_of machine) events.now) who }
{
    match who {
        Some(machine) => event_in(events, machine),
        None => None,
    }
}

/// The event of a machine.
fn event_in(events: &[RoutedEvent], machine: u8) -> Option<RoutedEvent>
    ensures { result ≡ find (spec.is_of machine) events.now }
{
    events
        .iter()
        .copied()
        .find(|routed| routed.event.machine == machine)
}

// ---- lines, each by the names of its word

/// Adds a line for each turn.
pub(crate) fn push_asked_by(
    text: &mut String,
    plans: &[ProgrammedPlan],
    events: &[RoutedEvent],
) -> Result<(), AllocError>
    ensures { OnOk result (string_bytes text.new
        ≡ string_bytes text.old ++ flat_map (spec.asked_line plans.now) events.now) }
{
    'events: for event in events {
        push_asked_on(text, plans, event)?;
    }
    Ok(())
}

/// Adds what a turn asks of a word, and the answer.
fn push_asked_on(
    text: &mut String,
    plans: &[ProgrammedPlan],
    routed: &RoutedEvent,
) -> Result<(), AllocError>
    ensures { OnOk result (string_bytes text.new
        ≡ string_bytes text.old ++ spec.asked_line plans.now routed.now) }
{
    match plans.get(routed.word) {
        Some(plan) => push_event(text, &plan.named, " asks: ", routed.event),
        None => Ok(()),
    }
}

/// Adds what a turn asks, if anything.
fn push_asked(
    text: &mut String,
    plans: &[ProgrammedPlan],
    asked: Option<RoutedEvent>,
) -> Result<(), AllocError>
    ensures { OnOk result (string_bytes text.new
        ≡ string_bytes text.old ++ told_if (spec.asked_line plans.now) asked) }
{
    match asked {
        Some(event) => push_asked_on(text, plans, &event),
        None => Ok(()),
    }
}

/// Adds what a machine waits for, or that it could go on.
fn push_outlook_on(
    text: &mut String,
    plans: &[ProgrammedPlan],
    routed: &RoutedEvent,
) -> Result<(), AllocError>
    ensures { OnOk result (string_bytes text.new
        ≡ string_bytes text.old ++ spec.outlook_line plans.now routed.now) }
{
    match plans.get(routed.word) {
        Some(plan) => push_outlook(text, &plan.named, routed.event),
        None => Ok(()),
    }
}

/// Adds what a machine waits for, or that it could go on, if that has changed.
fn push_news(
    text: &mut String,
    plans: &[ProgrammedPlan],
    last: Option<RoutedEvent>,
    outlook: Option<RoutedEvent>,
) -> Result<(), AllocError>
    ensures { OnOk result (string_bytes text.new
        ≡ string_bytes text.old ++ spec.news plans.now last outlook) }
{
    if outlook == last {
        return Ok(());
    }
    match outlook {
        Some(event) => push_outlook_on(text, plans, &event),
        None => Ok(()),
    }
}

/// Adds what a machine that starves would be answered, if that has changed, and what a turn asks.
fn push_step(
    text: &mut String,
    plans: &[ProgrammedPlan],
    last: Option<RoutedEvent>,
    outlook: Option<RoutedEvent>,
    asked: Option<RoutedEvent>,
) -> Result<(), AllocError>
    ensures { OnOk result (string_bytes text.new
        ≡ string_bytes text.old ++ spec.step_text plans.now last outlook asked) }
{
    push_news(text, plans, last, outlook)?;
    push_asked(text, plans, asked)
}

// ---- an order in which a machine starves

/// Adds what comes first in an order.
fn push_stem(
    text: &mut String,
    alloc: Global,
    plant: &OpenedPlant,
    order: &FairOrder,
) -> Result<(), AllocError>
    requires { IsOpened plant.now }
    ensures { OnOk result (string_bytes text.new ≡ string_bytes text.old
        ++ spec.stem_text plant.now.plans.now plant.now.programs.now.programs
        plant.now.openings.now order.now) }
{
    let events = events_of(alloc, plant, order.stem.as_slice())?;
    push_asked_by(text, plant.plans, events.as_slice())?;
    text.push_str(AGAIN)
}

/// Adds what comes again and again, after what came first; and what the machine that starves would be answered, as often
/// as that changes, if one is named.
fn push_cycle(
    text: &mut String,
    alloc: Global,
    plant: &OpenedPlant,
    who: Option<u8>,
    stem: &[u8],
    cycle: &[u8],
) -> Result<(), AllocError>
    requires { IsOpened plant.now }
    ensures { OnOk result (string_bytes text.new ≡ string_bytes text.old
        ++ spec.walk_text plant.now.plans.now plant.now.programs.now.programs who
        (spec.after_all plant.now.plans.now plant.now.programs.now.programs
        plant.now.openings.now stem.now) None cycle.now) }
{
    let mut way = copy_of(alloc, stem)?;
    let mut last = None;
    'turners: for turner in cycle {
        let events = outlook_of(alloc, plant, way.as_slice())?;
        let events = events.as_slice();
        let outlook = event_if(events, who);
        let asked = event_in(events, *turner);
        push_step(text, plant.plans, last, outlook, asked)?;
        last = outlook;
        way.push(*turner)?;
    }
    Ok(())
}

/// Adds what comes again and again in an order.
fn push_loop(
    text: &mut String,
    alloc: Global,
    plant: &OpenedPlant,
    who: Option<u8>,
    order: &FairOrder,
) -> Result<(), AllocError>
    requires { IsOpened plant.now }
    ensures { OnOk result (string_bytes text.new ≡ string_bytes text.old
        ++ spec.loop_text plant.now.plans.now plant.now.programs.now.programs
        plant.now.openings.now who order.now) }
{
    push_cycle(
        text,
        alloc,
        plant,
        who,
        order.stem.as_slice(),
        order.cycle.as_slice(),
    )
}

/// The same turns.
fn copy_of(alloc: Global, turns: &[u8]) -> Result<Vec<u8>, AllocError>
    ensures { IfOk result (λ copy. copy.items ≡ turns.now) }
{
    turns.iter().copied().collect(alloc)
}

/// Adds an order in which a machine starves.
fn push_order(
    text: &mut String,
    alloc: Global,
    plant: &OpenedPlant,
    machine: u8,
    order: &FairOrder,
) -> Result<(), AllocError>
    requires { IsOpened plant.now }
    ensures { OnOk result (string_bytes text.new ≡ string_bytes text.old
        ++ spec.starves_text plant.now.plans.now plant.now.programs.now.programs
        plant.now.openings.now machine order.now) }
{
    text.push_str("  a fair order in which it starves: first\n")?;
    push_stem(text, alloc, plant, order)?;
    push_loop(text, alloc, plant, Some(machine), order)
}

/// Adds the order in which a machine starves, if there is one.
fn push_starving(
    text: &mut String,
    alloc: Global,
    plant: &OpenedPlant,
    machine: u8,
    found: &Liveness,
) -> Result<(), AllocError>
    requires { IsOpened plant.now }
    ensures { OnOk result (string_bytes text.new ≡ string_bytes text.old
        ++ spec.starving_text plant.now.plans.now plant.now.programs.now.programs
        plant.now.openings.now machine found.now) }
{
    match found {
        Liveness::IfOne { order, .. } => push_order(text, alloc, plant, machine, order),
        Liveness::IfTwo { order, .. } => push_order(text, alloc, plant, machine, order),
        Liveness::IfAll { order, .. } => push_order(text, alloc, plant, machine, order),
        Liveness::Starves(order) => push_order(text, alloc, plant, machine, order),
        Liveness::Silent | Liveness::Always(_) | Liveness::Unknown(_) => Ok(()),
    }
}

// ---- each machine

/// Adds whether a machine goes on for ever, what that takes, and an order in which it starves.
fn push_liveness(
    text: &mut String,
    alloc: Global,
    plant: &OpenedPlant,
    named: &NamedPlan,
    machine: u8,
    found: &Liveness,
) -> Result<(), AllocError>
    requires { IsOpened plant.now }
    ensures { OnOk result (string_bytes text.new ≡ string_bytes text.old
        ++ spec.found_text named.now plant.now.plans.now plant.now.programs.now.programs
        plant.now.openings.now machine found.now) }
{
    text.push_str(named.machines().name(machine))?;
    push_answer(text, named, machine, found)?;
    push_starving(text, alloc, plant, machine, found)
}

/// Adds whether a machine goes on for ever, if it was asked of it.
fn push_machine(
    text: &mut String,
    alloc: Global,
    plant: &OpenedPlant,
    named: &NamedPlan,
    machine: u8,
    answers: &[Liveness],
) -> Result<(), AllocError>
    requires { IsOpened plant.now }
    ensures { OnOk result (string_bytes text.new ≡ string_bytes text.old
        ++ spec.machine_text named.now plant.now.plans.now plant.now.programs.now.programs
        plant.now.openings.now answers.now machine) }
{
    match answers.get(usize::from(machine)) {
        Some(found) => push_liveness(text, alloc, plant, named, machine, found),
        None => Ok(()),
    }
}

/// Adds the same of a machine, if it is told of it.
fn push_own(
    text: &mut String,
    alloc: Global,
    plant: &OpenedPlant,
    named: &NamedPlan,
    machine: u8,
    answers: &[Liveness],
) -> Result<(), AllocError>
    requires opened { IsOpened plant.now }
    requires machine { machine < 30 }
    ensures { OnOk result (string_bytes text.new ≡ string_bytes text.old
        ++ spec.own_text (spec.machines_of plant.now.group) named.now plant.now.plans.now
        plant.now.programs.now.programs plant.now.openings.now answers.now machine) }
{
    if is_told(plant, machine) {
        push_machine(text, alloc, plant, named, machine, answers)
    } else {
        Ok(())
    }
}

/// Adds whether each machine that is told of goes on for ever, by the machines' numbers and these names.
fn push_each(
    text: &mut String,
    alloc: Global,
    plant: &OpenedPlant,
    named: &NamedPlan,
    answers: &[Liveness],
) -> Result<(), AllocError>
    requires { IsOpened plant.now }
    ensures { OnOk result (string_bytes text.new ≡ string_bytes text.old
        ++ spec.each_text (spec.machines_of plant.now.group) plant.now.plans.now
        plant.now.programs.now.programs plant.now.openings.now answers.now named.now) }
{
    'machines: for machine in 0..plant.programs.count() {
        push_own(text, alloc, plant, named, machine, answers)?;
    }
    Ok(())
}

/// Adds the same by the names of the first word; they are those of each word.
fn push_machines(
    text: &mut String,
    alloc: Global,
    plant: &OpenedPlant,
    answers: &[Liveness],
) -> Result<(), AllocError>
    requires { IsOpened plant.now }
    ensures { OnOk result (string_bytes text.new ≡ string_bytes text.old
        ++ spec.machines_text (spec.machines_of plant.now.group) plant.now.plans.now
        plant.now.programs.now.programs plant.now.openings.now answers.now) }
{
    match plant.plans.get(0) {
        Some(first) => push_each(text, alloc, plant, &first.named, answers),
        None => Ok(()),
    }
}

// ---- plates

/// Adds an order in which no plate moves.
fn push_resting(
    text: &mut String,
    alloc: Global,
    plant: &OpenedPlant,
    order: &FairOrder,
) -> Result<(), AllocError>
    requires { IsOpened plant.now }
    ensures { OnOk result (string_bytes text.new ≡ string_bytes text.old
        ++ spec.resting_text plant.now.plans.now plant.now.programs.now.programs
        plant.now.openings.now order.now) }
{
    push_rest(text)?;
    push_stem(text, alloc, plant, order)?;
    push_loop(text, alloc, plant, None, order)
}

/// Adds whether plates move for ever, if some program moves any, and an order in which none moves.
fn push_plates(
    text: &mut String,
    alloc: Global,
    plant: &OpenedPlant,
    found: &Progress,
) -> Result<(), AllocError>
    requires { IsOpened plant.now }
    ensures { OnOk result (string_bytes text.new ≡ string_bytes text.old
        ++ spec.plates_text plant.now.plans.now plant.now.programs.now.programs
        plant.now.openings.now found.now) }
{
    if !some_move_plates(plant.programs.calls()) {
        return Ok(());
    }
    match found {
        Progress::Within(bound) => push_moving(text, *bound),
        Progress::Starves(order) => push_resting(text, alloc, plant, order),
        Progress::Unknown(_) => push_plates_unknown(text),
    }
}

/// Adds what is said of those machines that are told of, and of plates, where nothing stands still.
pub(crate) fn push_going(
    text: &mut String,
    alloc: Global,
    plant: &OpenedPlant,
    answers: &[Liveness],
    plates: &Progress,
) -> Result<(), AllocError>
    requires { IsOpened plant.now }
    ensures { OnOk result (string_bytes text.new ≡ string_bytes text.old
        ++ spec.going_text (spec.machines_of plant.now.group) plant.now.plans.now
        plant.now.programs.now.programs plant.now.openings.now answers.now plates.now) }
{
    push_machines(text, alloc, plant, answers)?;
    push_plates(text, alloc, plant, plates)?;
    text.push_str(FAIRNESS)
}
