//! Writes the script of a history.
ghost use Rattle.std.specs.Prelude.{◌≡◌, ◌++◌, IfOk, OnOk, flat_map, string_bytes};
ghost use Rattle.std.specs.List.{range_with_len};
ghost use Rattle.plan_types.specs.Table.{place_count};
ghost use Rattle.plan_text.specs.Histories as spec;

use crate::NamedPlan;
use crate::calls::Verb;
use plan_rules::State;
use plan_types::{Call, Event, WATCH};
use std::alloc::{AllocError, Global};

/// The script of a history from a start: record 0 has the start, and each event has a record with its caller and its
/// call.
///
/// If the history is legal, has no more events than a script may have records, and is of calls that machines make about
/// zones and about poses of their own, `answer_script` gives the history's answers. An error says that memory ran out.
pub fn script_of(
    alloc: Global,
    named: &NamedPlan,
    start: &State,
    history: &[Event],
) -> Result<String, AllocError>
    ensures { IfOk result (λ text. string_bytes text ≡ spec.script_of named.now start.now history.now) }
{
    let mut text = String::new(alloc);
    push_start(&mut text, named, start)?;
    push_events(&mut text, named, history)?;
    Ok(text)
}

/// Appends record 0.
fn push_start(text: &mut String, named: &NamedPlan, start: &State) -> Result<(), AllocError>
    ensures { OnOk result (string_bytes text.new
        ≡ string_bytes text.old ++ spec.line_of_row (spec.start_row named.now start.now)) }
{
    text.push_str("start,")?;
    push_digits(text, named.plan().place_count(), start)?;
    push_stamp(text, start.stamp)
}

/// Appends a digit for each place.
fn push_digits(text: &mut String, count: u8, start: &State) -> Result<(), AllocError>
    ensures { OnOk result (string_bytes text.new ≡ string_bytes text.old ++ spec.digits_of count start.now) }
{
    'places: for place in 0..count {
        push_digit(text, start, place)?;
    }
    Ok(())
}

fn push_digit(text: &mut String, start: &State, place: u8) -> Result<(), AllocError>
    ensures { OnOk result (string_bytes text.new ≡ string_bytes text.old ++ spec.digit_of start.now place) }
{
    text.push_str(if start.is_full(place) { "1" } else { "0" })
}

/// Appends the stamp, if it isn't 0, and the end of record 0.
fn push_stamp(text: &mut String, stamp: u32) -> Result<(), AllocError>
    ensures { OnOk result (string_bytes text.new
        ≡ string_bytes text.old ++ spec.after_comma (spec.stamp_fields stamp)) }
{
    if stamp == 0 {
        text.push_str("\n")
    } else {
        writeln!(text, ",{stamp}")
    }
}

/// Appends the records of events.
fn push_events(text: &mut String, named: &NamedPlan, history: &[Event]) -> Result<(), AllocError>
    ensures { OnOk result (string_bytes text.new
        ≡ string_bytes text.old ++ flat_map (spec.event_line named.now) history.now) }
{
    'events: for event in history {
        push_event(text, named, event)?;
    }
    Ok(())
}

/// Appends the record of an event.
fn push_event(text: &mut String, named: &NamedPlan, event: &Event) -> Result<(), AllocError>
    ensures { OnOk result
        (string_bytes text.new ≡ string_bytes text.old ++ spec.event_line named.now event.now) }
{
    text.push_str(caller_word(named, event.machine))?;
    push_fields(text, named, event.call)
}

/// The name of a machine, or the word for the watch.
fn caller_word(named: &NamedPlan, machine: u8) -> &str
    ensures { result.now ≡ spec.caller_word named.now machine }
{
    if machine == WATCH {
        "watch"
    } else {
        named.machines().name(machine)
    }
}

/// Appends the fields of a call, each after a comma, and the end of its record.
fn push_fields(text: &mut String, named: &NamedPlan, call: Call) -> Result<(), AllocError>
    ensures { OnOk result (string_bytes text.new
        ≡ string_bytes text.old ++ spec.after_comma (spec.call_fields named.now call)) }
{
    match call {
        Call::Claim(zone) => push_two(text, Verb::Claim, named.zones().name(zone)),
        Call::Give(zone) => push_two(text, Verb::Give, named.zones().name(zone)),
        Call::Yield(zone) => push_two(text, Verb::Yield, named.zones().name(zone)),
        Call::Take(zone) => push_two(text, Verb::Take, named.zones().name(zone)),
        Call::Release(zone) => push_two(text, Verb::Release, named.zones().name(zone)),
        Call::Inquire(zone) => push_two(text, Verb::Inquire, named.zones().name(zone)),
        Call::SetPose(pose) => push_two(text, Verb::Pose, named.poses().name(pose)),
        Call::Stop => text.push_str(",stop\n"),
        Call::Resume => text.push_str(",resume\n"),
        Call::Advance(place) => push_two(text, Verb::Advance, named.places().name(place)),
    }
}

/// Appends a verb and a name, and the end of their record.
fn push_two(text: &mut String, verb: Verb, name: &str) -> Result<(), AllocError>
    ensures { OnOk result (string_bytes text.new
        ≡ string_bytes text.old ++ spec.after_comma (spec.two_fields verb name.now)) }
{
    text.push_str(",")?;
    text.push_str(verb.word())?;
    text.push_str(",")?;
    text.push_str(name)?;
    text.push_str("\n")
}
