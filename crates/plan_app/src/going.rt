//! What `plan explore` prints where nothing stands still: whether each machine goes on for ever.
ghost use Rattle.std.specs.Prelude.{◌≡◌, ◌++◌, None, OnOk, codes, string_bytes};
ghost use Rattle.plan_explorer.specs.Walks as walks;
ghost use Rattle.plan_app.specs.Going as spec;

use crate::acting::Acting;
use plan_explorer::Situation;
use plan_explorer::turning::{call_of, turn};
use plan_liveness::{Bound, FairOrder, Liveness, Progress, Relay};
use plan_rules::{State, answer};
use plan_text::NamedPlan;
use plan_types::{Answer, Event};
use std::alloc::AllocError;

/// What the words on orders of turns mean.
pub const FAIRNESS: &str = "\
in an order that is fair with bound k, each machine that could go on at k turns on end goes on;
a machine isn't passed over for ever if it goes on wherever it could at k turns, on end or not
";

/// What stands before who brings chances.
const TURNS: &str = ") turns; ";

/// What stands after it.
const BRINGS: &str = " brings it chances\n";

/// What stands between the turns that lead into a cycle and those that come again and again.
pub(crate) const AGAIN: &str = "  and then again and again\n";

/// Adds what is said of machines that go on, and of plates.
pub fn push_all(
    text: &mut String,
    plan: &Acting,
    opening: &State,
    answers: &[Liveness],
    plates: &Progress,
) -> Result<(), AllocError>
    ensures { OnOk result (string_bytes text.new ≡ string_bytes text.old
        ++ spec.going_text plan.now.named.now plan.now.programs.now opening.now answers.now
        plates.now) }
{
    push_going(text, plan, opening, answers)?;
    push_plates(text, plan, opening, plates)?;
    text.push_str(FAIRNESS)
}

/// Adds whether each machine goes on for ever, by their numbers.
fn push_going(
    text: &mut String,
    plan: &Acting,
    opening: &State,
    answers: &[Liveness],
) -> Result<(), AllocError>
    ensures { OnOk result (string_bytes text.new ≡ string_bytes text.old
        ++ spec.machines_text plan.now.named.now plan.now.programs.now opening.now answers.now) }
{
    'machines: for machine in 0..plan.programs.count() {
        push_machine(text, plan, opening, machine, answers)?;
    }
    Ok(())
}

/// Adds whether a machine goes on for ever, if it was asked of it.
pub(crate) fn push_machine(
    text: &mut String,
    plan: &Acting,
    opening: &State,
    machine: u8,
    answers: &[Liveness],
) -> Result<(), AllocError>
    ensures { OnOk result (string_bytes text.new ≡ string_bytes text.old
        ++ spec.machine_text plan.now.named.now plan.now.programs.now opening.now answers.now
        machine) }
{
    match answers.get(usize::from(machine)) {
        Some(answer) => push_liveness(text, plan, opening, machine, answer),
        None => Ok(()),
    }
}

/// Adds whether a machine goes on for ever, what that takes, and an order in which it starves.
fn push_liveness(
    text: &mut String,
    plan: &Acting,
    opening: &State,
    machine: u8,
    found: &Liveness,
) -> Result<(), AllocError>
    ensures { OnOk result (string_bytes text.new ≡ string_bytes text.old
        ++ spec.found_text plan.now.named.now plan.now.programs.now opening.now machine found.now) }
{
    text.push_str(plan.named.machines().name(machine))?;
    push_answer(text, plan.named, machine, found)?;
    push_starving(text, plan, opening, machine, found)
}

/// Adds the order in which a machine starves, if there is one.
fn push_starving(
    text: &mut String,
    plan: &Acting,
    opening: &State,
    machine: u8,
    found: &Liveness,
) -> Result<(), AllocError>
    ensures { OnOk result (string_bytes text.new ≡ string_bytes text.old
        ++ spec.starving_text plan.now.named.now plan.now.programs.now opening.now machine
        found.now) }
{
    match found {
        Liveness::IfOne { order, .. } => push_order(text, plan, opening, machine, order),
        Liveness::IfTwo { order, .. } => push_order(text, plan, opening, machine, order),
        Liveness::IfAll { order, .. } => push_order(text, plan, opening, machine, order),
        Liveness::Starves(order) => push_order(text, plan, opening, machine, order),
        Liveness::Silent | Liveness::Always(_) | Liveness::Unknown(_) => Ok(()),
    }
}

/// Adds whether a machine goes on for ever, and what that takes.
pub(crate) fn push_answer(
    text: &mut String,
    named: &NamedPlan,
    machine: u8,
    found: &Liveness,
) -> Result<(), AllocError>
    ensures { OnOk result (string_bytes text.new
        ≡ string_bytes text.old ++ spec.answer_words named.now machine found.now) }
{
    match found {
        Liveness::Silent => text.push_str(" asks nothing\n"),
        Liveness::Always(bound) => push_always(text, *bound),
        Liveness::IfOne { strong, bound, .. } => push_if_one(text, named, machine, *strong, *bound),
        Liveness::IfTwo { relay, .. } => push_relay(text, named, machine, *relay),
        Liveness::IfAll { bound, .. } => push_if_all(text, *bound),
        Liveness::Starves(_) => {
            text.push_str(" may starve though no machine is passed over for ever\n")
        }
        Liveness::Unknown(_) => text.push_str(": it isn't known whether it goes on for ever\n"),
    }
}

/// Adds that a machine goes on in each fair order.
fn push_always(text: &mut String, bound: Bound) -> Result<(), AllocError>
    ensures { OnOk result (string_bytes text.new
        ≡ string_bytes text.old ++ spec.always_text bound) }
{
    text.push_str(" goes on for ever in each fair order: ")?;
    push_within(text, bound)
}

/// Adds that a machine goes on if no machine is passed over for ever.
fn push_if_all(text: &mut String, bound: Bound) -> Result<(), AllocError>
    ensures { OnOk result (string_bytes text.new
        ≡ string_bytes text.old ++ spec.if_all_text bound) }
{
    text.push_str(" goes on for ever if no machine is passed over for ever: ")?;
    push_within(text, bound)
}

/// Adds that a machine goes on if one isn't passed over for ever.
fn push_if_one(
    text: &mut String,
    named: &NamedPlan,
    machine: u8,
    strong: u8,
    bound: Bound,
) -> Result<(), AllocError>
    ensures { OnOk result (string_bytes text.new ≡ string_bytes text.old
        ++ spec.if_one_text named.now machine strong bound) }
{
    let needed = needed_name(named, machine, strong);
    write!(
        text,
        " goes on for ever if {needed} isn't passed over for ever: "
    )?;
    push_within(text, bound)
}

/// Adds how many turns a bound allows.
fn push_bound(text: &mut String, bound: Bound) -> Result<(), AllocError>
    ensures { OnOk result (string_bytes text.new ≡ string_bytes text.old ++ spec.bound_text bound) }
{
    let Bound { plain, helped } = bound;
    if helped > 0 {
        write!(text, "k * {plain} + k * k * {helped}")
    } else {
        write!(text, "k * {plain}")
    }
}

/// Adds within how many turns a machine goes on.
fn push_within(text: &mut String, bound: Bound) -> Result<(), AllocError>
    ensures { OnOk result (string_bytes text.new
        ≡ string_bytes text.old ++ spec.within_text bound) }
{
    text.push_str("within ")?;
    push_bound(text, bound)?;
    text.push_str(" turns\n")
}

/// The name of a machine that another one needs, or a word for itself.
fn needed_name<'a>(named: &'a NamedPlan, machine: u8, needed: u8) -> &'a str
    ensures { result.now ≡ spec.needed_name named.now machine needed }
{
    if needed == machine {
        "it"
    } else {
        named.machines().name(needed)
    }
}

/// Adds that a machine goes on for ever if it and another one aren't passed over for ever, since a
/// relay goes on.
fn push_relay(
    text: &mut String,
    named: &NamedPlan,
    machine: u8,
    relay: Relay,
) -> Result<(), AllocError>
    ensures { OnOk result (string_bytes text.new
        ≡ string_bytes text.old ++ spec.relay_text named.now machine relay) }
{
    push_relay_begin(text, named, machine, relay.strong)?;
    push_relay_end(text, named, relay)
}

/// Adds who isn't to be passed over for ever.
fn push_relay_begin(
    text: &mut String,
    named: &NamedPlan,
    machine: u8,
    strong: u8,
) -> Result<(), AllocError>
    ensures { OnOk result (string_bytes text.new ≡ string_bytes text.old
        ++ spec.relay_begin named.now machine strong) }
{
    if strong == machine {
        text.push_str(" goes on for ever if it isn't passed over for ever: ")
    } else {
        let needed = named.machines().name(strong);
        write!(
            text,
            " goes on for ever if neither it nor {needed} is passed over for ever: "
        )
    }
}

/// Adds how soon a machine goes on to which another one brings chances.
fn push_relay_end(text: &mut String, named: &NamedPlan, relay: Relay) -> Result<(), AllocError>
    ensures { OnOk result (string_bytes text.new
        ≡ string_bytes text.old ++ spec.relay_end named.now relay) }
{
    push_rounds(text, relay.rounds)?;
    push_bound(text, relay.bound)?;
    push_bringing(text, named, relay.machine)
}

/// Adds how often a relay goes on.
fn push_rounds(text: &mut String, rounds: usize) -> Result<(), AllocError>
    ensures { OnOk result (string_bytes text.new
        ≡ string_bytes text.old ++ spec.rounds_text rounds) }
{
    write!(text, "within k * {rounds} * (")
}

/// Adds who brings chances.
fn push_bringing(text: &mut String, named: &NamedPlan, machine: u8) -> Result<(), AllocError>
    ensures { OnOk result
        (string_bytes text.new ≡ string_bytes text.old ++ spec.bringing_text named.now machine) }
{
    text.push_str(TURNS)?;
    text.push_str(named.machines().name(machine))?;
    text.push_str(BRINGS)
}

/// Adds whether plates move for ever, if the plan has places, and an order in which none moves.
pub(crate) fn push_plates(
    text: &mut String,
    plan: &Acting,
    opening: &State,
    found: &Progress,
) -> Result<(), AllocError>
    ensures { OnOk result (string_bytes text.new ≡ string_bytes text.old
        ++ spec.plates_if_any plan.now.named.now plan.now.programs.now opening.now found.now) }
{
    if plan.named.places().len() == 0 {
        return Ok(());
    }
    match found {
        Progress::Within(bound) => push_moving(text, *bound),
        Progress::Starves(order) => push_resting(text, plan, opening, order),
        Progress::Unknown(_) => push_plates_unknown(text),
    }
}

/// Adds that plates move for ever.
pub(crate) fn push_moving(text: &mut String, bound: Bound) -> Result<(), AllocError>
    ensures { OnOk result (string_bytes text.new
        ≡ string_bytes text.old ++ spec.moving_text bound) }
{
    text.push_str("plates move for ever in each fair order: ")?;
    push_within(text, bound)
}

/// Adds that it isn't known whether plates move for ever.
pub(crate) fn push_plates_unknown(text: &mut String) -> Result<(), AllocError>
    ensures { OnOk result (string_bytes text.new ≡ string_bytes text.old
        ++ codes "it isn't known whether plates move for ever\n") }
{
    text.push_str("it isn't known whether plates move for ever\n")
}

/// Adds that plates may rest; an order follows in which none moves.
pub(crate) fn push_rest(text: &mut String) -> Result<(), AllocError>
    ensures { OnOk result (string_bytes text.new ≡ string_bytes text.old
        ++ codes "plates may rest for ever\n  a fair order in which none moves: first\n") }
{
    text.push_str("plates may rest for ever\n  a fair order in which none moves: first\n")
}

/// Adds an order in which no plate moves.
fn push_resting(
    text: &mut String,
    plan: &Acting,
    opening: &State,
    order: &FairOrder,
) -> Result<(), AllocError>
    ensures { OnOk result (string_bytes text.new ≡ string_bytes text.old
        ++ spec.resting_text plan.now.named.now plan.now.programs.now opening.now order.now) }
{
    push_rest(text)?;
    push_turns(text, plan, opening, None, order)
}

/// Adds an order in which a machine starves.
fn push_order(
    text: &mut String,
    plan: &Acting,
    opening: &State,
    machine: u8,
    order: &FairOrder,
) -> Result<(), AllocError>
    ensures { OnOk result (string_bytes text.new ≡ string_bytes text.old
        ++ spec.starves_text plan.now.named.now plan.now.programs.now opening.now machine
        order.now) }
{
    text.push_str("  a fair order in which it starves: first\n")?;
    push_turns(text, plan, opening, Some(machine), order)
}

/// Adds what is asked in an order, turn by turn: first, and then again and again.
fn push_turns(
    text: &mut String,
    plan: &Acting,
    opening: &State,
    machine: Option<u8>,
    order: &FairOrder,
) -> Result<(), AllocError>
    ensures { OnOk result (string_bytes text.new ≡ string_bytes text.old
        ++ spec.order_text plan.now.named.now plan.now.programs.now opening.now machine order.now) }
{
    push_stem(text, plan, opening, order)?;
    push_loop(text, plan, opening, machine, order)
}

/// Adds what comes first in an order.
fn push_stem(
    text: &mut String,
    plan: &Acting,
    opening: &State,
    order: &FairOrder,
) -> Result<(), AllocError>
    ensures { OnOk result (string_bytes text.new ≡ string_bytes text.old
        ++ spec.stem_text plan.now.named.now plan.now.programs.now opening.now order.now) }
{
    push_way(text, plan, opening, order.stem.as_slice())?;
    text.push_str(AGAIN)
}

/// Adds what turns from an opening ask, and are answered.
pub fn push_way(
    text: &mut String,
    plan: &Acting,
    opening: &State,
    turns: &[u8],
) -> Result<(), AllocError>
    ensures { OnOk result (string_bytes text.new ≡ string_bytes text.old
        ++ spec.way_text plan.now.named.now plan.now.programs.now opening.now turns.now) }
{
    push_walk(text, plan, Situation::first(opening), None, turns)
}

/// Adds what comes again and again.
fn push_loop(
    text: &mut String,
    plan: &Acting,
    opening: &State,
    machine: Option<u8>,
    order: &FairOrder,
) -> Result<(), AllocError>
    ensures { OnOk result (string_bytes text.new ≡ string_bytes text.old
        ++ spec.loop_text plan.now.named.now plan.now.programs.now opening.now machine order.now) }
{
    let at = end_of(plan, opening, order.stem.as_slice());
    push_walk(text, plan, at, machine, order.cycle.as_slice())
}

/// The situation after these turns.
fn end_of(plan: &Acting, opening: &State, turns: &[u8]) -> Situation
    ensures { result ≡ spec.after_all plan.now.named.now plan.now.programs.now opening.now
        turns.now }
{
    let mut at = Situation::first(opening);
    'turners: for turner in turns {
        at = turn(plan.named.plan(), plan.programs, at, *turner);
    }
    at
}

/// Adds what each of these turns asks, and what a machine that starves would be answered, as often as
/// that changes.
fn push_walk(
    text: &mut String,
    plan: &Acting,
    start: Situation,
    machine: Option<u8>,
    turns: &[u8],
) -> Result<(), AllocError>
    ensures { OnOk result (string_bytes text.new ≡ string_bytes text.old
        ++ spec.walk_text plan.now.named.now plan.now.programs.now machine start None turns.now) }
{
    let mut at = start;
    let mut last = None;
    'turners: for turner in turns {
        let outlook = outlook_of(plan, &at, machine);
        push_step(
            text,
            plan.named,
            last,
            outlook,
            event_of(plan, &at, *turner),
        )?;
        last = outlook;
        at = turn(plan.named.plan(), plan.programs, at, *turner);
    }
    Ok(())
}

/// Adds what a machine that starves would be answered, if that has changed, and what a turn asks.
fn push_step(
    text: &mut String,
    named: &NamedPlan,
    last: Option<Event>,
    outlook: Option<Event>,
    asked: Option<Event>,
) -> Result<(), AllocError>
    ensures { OnOk result
        (string_bytes text.new ≡ string_bytes text.old
        ++ spec.step_text named.now last outlook asked) }
{
    push_news(text, named, last, outlook)?;
    push_asked(text, named, asked)
}

/// What the machine that is named asks in a situation, and is answered.
pub(crate) fn outlook_of(plan: &Acting, at: &Situation, machine: Option<u8>) -> Option<Event>
    ensures { result ≡ spec.outlook_at plan.now.named.now plan.now.programs.now machine at.now }
{
    match machine {
        Some(machine) => event_of(plan, at, machine),
        None => None,
    }
}

/// What a machine asks in a situation, if it has a program, and what it is answered.
pub(crate) fn event_of(plan: &Acting, at: &Situation, machine: u8) -> Option<Event>
    ensures { result ≡ walks.event_of plan.now.named.now.plan plan.now.programs.now at.now machine }
{
    let call = call_of(plan.programs, at, machine)?;
    let answer = answer(plan.named.plan(), &at.state, machine, call);
    Some(Event {
        machine,
        call,
        answer,
    })
}

/// Adds what a machine waits for, or that it could go on, if that has changed.
fn push_news(
    text: &mut String,
    named: &NamedPlan,
    last: Option<Event>,
    outlook: Option<Event>,
) -> Result<(), AllocError>
    ensures { OnOk result (string_bytes text.new
        ≡ string_bytes text.old ++ spec.news named.now last outlook) }
{
    if outlook == last {
        return Ok(());
    }
    match outlook {
        Some(event) => push_outlook(text, named, event),
        None => Ok(()),
    }
}

/// Adds what a machine waits for, or that it could go on.
pub(crate) fn push_outlook(
    text: &mut String,
    named: &NamedPlan,
    event: Event,
) -> Result<(), AllocError>
    ensures { OnOk result (string_bytes text.new
        ≡ string_bytes text.old ++ spec.told_outlook named.now event) }
{
    match event.answer {
        Answer::Done => push_event(text, named, " could go on: ", event),
        Answer::Shown { .. } | Answer::Refused(_) => push_event(text, named, " waits: ", event),
    }
}

/// Adds what a turn asks, if anything.
fn push_asked(text: &mut String, named: &NamedPlan, asked: Option<Event>) -> Result<(), AllocError>
    ensures { OnOk result (string_bytes text.new
        ≡ string_bytes text.old ++ spec.asked_line named.now asked) }
{
    match asked {
        Some(event) => push_event(text, named, " asks: ", event),
        None => Ok(()),
    }
}

/// Adds a line of an order of turns, with what a machine asks, and the answer.
pub(crate) fn push_event(
    text: &mut String,
    named: &NamedPlan,
    words: &str,
    event: Event,
) -> Result<(), AllocError>
    ensures { OnOk result (string_bytes text.new
        ≡ string_bytes text.old ++ spec.event_line named.now words.now event) }
{
    text.push_str("  ")?;
    push_line(text, named, words, event)
}

/// Adds a line with what a machine asks, and the answer.
pub fn push_line(
    text: &mut String,
    named: &NamedPlan,
    words: &str,
    event: Event,
) -> Result<(), AllocError>
    ensures { OnOk result (string_bytes text.new
        ≡ string_bytes text.old ++ spec.line_of named.now words.now event) }
{
    text.push_str(named.machines().name(event.machine))?;
    text.push_str(words)?;
    named.push_call(text, event.call)?;
    text.push_str(": ")?;
    named.push_answer(text, event.answer)?;
    text.push_str("\n")
}
