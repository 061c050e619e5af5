//! Writes the script of a history.

ghost use Rattle.std.specs.Prelude.{◌≡◌, ◌++◌, option_map, IfOk, OnOk, string_bytes};
ghost use Rattle.cell_types.specs.CallWords as words;
ghost use Rattle.cell_replay.specs.Versions as replay;
ghost use Rattle.cell_replay.specs.declared.version.Version.{Version};
ghost use Rattle.history_app.specs.Scripts as scripts;
ghost use Rattle.history_app.specs.Scripts.{digits_of, event_row, fits_first, line_of_row, opening_row};

use cell_rules::State;
use cell_types::{Call, Event, Place};
use std::alloc::{AllocError, Global};

/// The script of a history that begins in this state. If the state is a start, and the history is
/// legal and has at most 65,536 events, a replay of the script gives the history's answers.
#[tactic(auto, using(crate::proofs::Lines::texts))]
pub fn script_of(alloc: Global, opening: &State, events: &[Event]) -> Result<String, AllocError>
    ensures { IfOk result
        (λ text. string_bytes text ≡ scripts.script_of opening.now events.now) }
{
    let mut text = String::new(alloc);
    push_opening(&mut text, opening, events)?;
    'events: for event in events {
        push_event(&mut text, event)?;
    }
    Ok(text)
}

/// Appends record 0.
fn push_opening(text: &mut String, opening: &State, events: &[Event]) -> Result<(), AllocError>
    ensures { OnOk result (string_bytes text.new
        ≡ string_bytes text.old ++ line_of_row (opening_row opening.now events.now)) }
{
    let word = version_word(events);
    write!(text, "{word},")?;
    push_places(text, opening)?;
    let stamp = opening.stamp();
    writeln!(text, ",{stamp}")?;
    Ok(())
}

/// The word of the version that has each call.
fn version_word(events: &[Event]) -> &'static str
    ensures { result.now ≡ replay.version_word (scripts.version_for events.now) }
{
    if fit_first(events) { "start" } else { "start2" }
}

/// Whether the first version has each call.
fn fit_first(events: &[Event]) -> bool
    ensures { result ≡ fits_first events.now }
{
    events.iter().all(|event| is_of_first(event.call))
}

/// Whether the first version has the call.
fn is_of_first(call: Call) -> bool
    ensures { result ≡ replay.has_call Version.First call }
{
    !matches!(call, Call::Stop | Call::Resume)
}

/// Appends a digit for each place.
#[tactic(auto, unfolding(crate::specs::Scripts::digits_of))]
fn push_places(text: &mut String, opening: &State) -> Result<(), AllocError>
    ensures { OnOk result (string_bytes text.new
        ≡ string_bytes text.old ++ digits_of opening.now.full) }
{
    'places: for place in &Place::ALL {
        text.push_str(if opening.is_full(*place) { "1" } else { "0" })?;
    }
    Ok(())
}

/// Appends the record of an event.
#[tactic(auto, unfolding(crate::specs::Scripts::event_row))]
fn push_event(text: &mut String, event: &Event) -> Result<(), AllocError>
    ensures { OnOk result (string_bytes text.new
        ≡ string_bytes text.old ++ line_of_row (event_row event.now)) }
{
    let machine = event.machine.word();
    let verb = event.call.verb();
    match object_word(event.call) {
        Some(object) => writeln!(text, "{machine},{verb},{object}"),
        None => writeln!(text, "{machine},{verb}"),
    }
}

/// The word of the zone or the pose that a call names.
fn object_word(call: Call) -> Option<&'static str>
    ensures { option_map (λ word. word.now) result ≡ words.object_of call }
{
    match call {
        Call::Claim(zone)
        | Call::Give(zone)
        | Call::Yield(zone)
        | Call::Take(zone)
        | Call::Release(zone)
        | Call::Inquire(zone) => Some(zone.word()),
        Call::SetPose(pose) => Some(pose.word()),
        Call::Advance | Call::Stop | Call::Resume => None,
    }
}
