//! The lines of a film: one for its start, and one for each event of a history.
ghost use Rattle.std.specs.Prelude.{◌≡◌, ◌++◌, OnOk, string_bytes};
ghost use Rattle.plan_word.specs.OfPlan.{IsOfPlan};
ghost use Rattle.plan_app.specs.Films as spec;

use plan_rules::{State, apply};
use plan_text::NamedPlan;
use plan_types::{Answer, Event};
use plan_word::laws::stays_of_plan;
use plan_word::pack;
use std::alloc::AllocError;

/// Adds the lines of a history from a start.
pub(crate) fn push_film(
    text: &mut String,
    named: &NamedPlan,
    start: &State,
    events: &[Event],
) -> Result<(), AllocError>
    requires { IsOfPlan named.now.plan start.now }
    ensures { OnOk result (string_bytes text.new
        ≡ string_bytes text.old ++ spec.film_lines named.now start.now events.now) }
{
    push_start(text, named, start)?;
    push_events(text, named, start, events)
}

fn push_start(text: &mut String, named: &NamedPlan, start: &State) -> Result<(), AllocError>
    requires { IsOfPlan named.now.plan start.now }
    ensures { OnOk result
        (string_bytes text.new ≡ string_bytes text.old ++ spec.start_line named.now start.now) }
{
    text.push_str("start;")?;
    push_word(text, named, start)?;
    text.push_str("\n")
}

/// Adds the word of a state in hexadecimal.
fn push_word(text: &mut String, named: &NamedPlan, state: &State) -> Result<(), AllocError>
    requires { IsOfPlan named.now.plan state.now }
    ensures { OnOk result
        (string_bytes text.new ≡ string_bytes text.old ++ spec.word_text named.now state.now) }
{
    let word = pack(named.plan(), &named.layout(), state);
    write!(text, "{word:x}")
}

/// Adds a line for each event.
fn push_events(
    text: &mut String,
    named: &NamedPlan,
    start: &State,
    events: &[Event],
) -> Result<(), AllocError>
    requires { IsOfPlan named.now.plan start.now }
    ensures { OnOk result (string_bytes text.new
        ≡ string_bytes text.old ++ spec.event_lines named.now start.now events.now) }
{
    let mut at = *start;
    'events: for event in events {
        let next = state_after(named, &at, event);
        push_event(text, named, &next, event)?;
        at = next;
    }
    Ok(())
}

/// The state after an event.
fn state_after(named: &NamedPlan, at: &State, event: &Event) -> State
    requires { IsOfPlan named.now.plan at.now }
    ensures is { result ≡ spec.state_after named.now at.now event.now }
    ensures sound { IsOfPlan named.now.plan result }
{
    let plan = named.plan();
    stays_of_plan(plan, at, event.machine, event.call);
    let mut next = *at;
    apply(plan, &mut next, event.machine, event.call);
    next
}

/// Adds the line of an event that leaves this state.
fn push_event(
    text: &mut String,
    named: &NamedPlan,
    next: &State,
    event: &Event,
) -> Result<(), AllocError>
    requires { IsOfPlan named.now.plan next.now }
    ensures { OnOk result (string_bytes text.new
        ≡ string_bytes text.old ++ spec.line_to named.now next.now event.now) }
{
    push_told(text, named, event)?;
    push_word_if(text, named, next, event.answer)?;
    text.push_str("\n")
}

/// Adds a machine, its call and the answer.
fn push_told(text: &mut String, named: &NamedPlan, event: &Event) -> Result<(), AllocError>
    ensures { OnOk result
        (string_bytes text.new ≡ string_bytes text.old ++ spec.told_event named.now event.now) }
{
    text.push_str(named.machines().name(event.machine))?;
    text.push_str(";")?;
    named.push_call(text, event.call)?;
    text.push_str(";")?;
    named.push_answer(text, event.answer)?;
    text.push_str(";")
}

/// Adds the word after a call that was done.
fn push_word_if(
    text: &mut String,
    named: &NamedPlan,
    next: &State,
    answer: Answer,
) -> Result<(), AllocError>
    requires { IsOfPlan named.now.plan next.now }
    ensures { OnOk result
        (string_bytes text.new ≡ string_bytes text.old ++ spec.word_if named.now next.now answer) }
{
    match answer {
        Answer::Done => push_word(text, named, next),
        Answer::Shown { .. } | Answer::Refused(_) => Ok(()),
    }
}
