//! Who waits for whom at a standstill, and for what; who is refused, and what, at a refusal.

ghost use Rattle.std.specs.Prelude.{◌≡◌, ◌++◌, OnOk, string_bytes};
ghost use Rattle.std.specs.Option.{option_map};
ghost use Rattle.cell_rules.specs.Names as rules;
ghost use Rattle.explore_app.specs.Rings as rings;

use crate::ending::Ending;
use cell_explorer::Walk;
use cell_rules::answer;
use cell_types::tables::{guest, host};
use cell_types::{Answer, Call, Machine, Refusal, Zone};
use std::alloc::AllocError;

/// Adds a line for each machine that a walk's ending is about: all that wait, or those that are
/// stopped.
pub fn push_ring(text: &mut String, ending: Ending, walk: &Walk) -> Result<(), AllocError>
    ensures { OnOk result
        (string_bytes text.new ≡ string_bytes text.old ++ rings.ring_lines ending walk.now) }
{
    'machines: for machine in &Machine::ALL {
        push_machine(text, ending, walk, *machine)?;
    }
    Ok(())
}

// Adds the line of a machine, if the walk's ending is about it.
fn push_machine(
    text: &mut String,
    ending: Ending,
    walk: &Walk,
    machine: Machine,
) -> Result<(), AllocError>
    ensures { OnOk result
        (string_bytes text.new ≡ string_bytes text.old ++ rings.ring_line ending walk.now machine) }
{
    let next = *walk.next.at(machine);
    match next.call {
        Some(call) if ending.is_about(next.prospect) => {
            let given = answer(&walk.end.state, machine, call);
            push_ending_line(text, ending, machine, call, given)
        }
        _ => Ok(()),
    }
}

// Adds the line of a machine that an ending is about.
pub(crate) fn push_ending_line(
    text: &mut String,
    ending: Ending,
    machine: Machine,
    call: Call,
    given: Answer,
) -> Result<(), AllocError>
    ensures { OnOk result
        (string_bytes text.new ≡ string_bytes text.old ++ rings.ending_line ending machine call given) }
{
    match ending {
        Ending::Standstill => push_waiting_line(text, machine, call, given),
        Ending::Refusal => push_refused_line(text, machine, call, given),
    }
}

// Adds the line of a machine that waits.
#[tactic(auto, unfolding(crate::specs::Rings::waiting_line))]
fn push_waiting_line(
    text: &mut String,
    machine: Machine,
    call: Call,
    given: Answer,
) -> Result<(), AllocError>
    ensures { OnOk result
        (string_bytes text.new ≡ string_bytes text.old ++ rings.waiting_line machine call given) }
{
    push_name(text, machine)?;
    text.push_str(" waits for ")?;
    text.push_str(party_word(party_awaited(machine, call, given)))?;
    push_asked(text, call, given)
}

// Adds the line of a machine that is refused.
#[tactic(auto, unfolding(crate::specs::Rings::refused_line))]
fn push_refused_line(
    text: &mut String,
    machine: Machine,
    call: Call,
    given: Answer,
) -> Result<(), AllocError>
    ensures { OnOk result
        (string_bytes text.new ≡ string_bytes text.old ++ rings.refused_line machine call given) }
{
    push_name(text, machine)?;
    text.push_str(" is refused")?;
    push_asked(text, call, given)
}

// Adds the line of a machine that goes on in a round.
#[tactic(auto, unfolding(crate::specs::Rings::going_on_line))]
pub(crate) fn push_going_on_line(
    text: &mut String,
    machine: Machine,
    call: Call,
    given: Answer,
) -> Result<(), AllocError>
    ensures { OnOk result
        (string_bytes text.new ≡ string_bytes text.old ++ rings.going_on_line machine call given) }
{
    push_name(text, machine)?;
    text.push_str(" goes on")?;
    push_asked(text, call, given)
}

// Adds a machine's name.
#[tactic(auto, unfolding(crate::specs::Rings::name_words))]
fn push_name(text: &mut String, machine: Machine) -> Result<(), AllocError>
    ensures { OnOk result
        (string_bytes text.new ≡ string_bytes text.old ++ rings.name_words machine) }
{
    text.push_str("# ")?;
    text.push_str(machine.word())
}

// Adds what is asked, and the answer.
#[tactic(auto, unfolding(crate::specs::Rings::asked_words))]
fn push_asked(text: &mut String, call: Call, given: Answer) -> Result<(), AllocError>
    ensures { OnOk result
        (string_bytes text.new ≡ string_bytes text.old ++ rings.asked_words call given) }
{
    writeln!(text, ": {call}: {given}")
}

// The word for whom a machine waits.
fn party_word(party: Option<Machine>) -> &'static str
    ensures { result.now ≡ rings.party_word party }
{
    match party {
        Some(machine) => machine.word(),
        None => "nobody",
    }
}

// For whom a machine waits: the owner that refuses it, or else the other party of the zone.
fn party_awaited(machine: Machine, call: Call, given: Answer) -> Option<Machine>
    ensures { result ≡ rings.party_awaited machine call given }
{
    match given {
        Answer::Refused(Refusal::Held(owner)) => Some(owner),
        Answer::Refused(Refusal::NotOwner(Some(owner))) => Some(owner),
        _ => other_party_of(machine, call),
    }
}

// The other party of the zone that a call is about.
fn other_party_of(machine: Machine, call: Call) -> Option<Machine>
    ensures { result ≡ option_map (λ zone. rules.other_party machine zone) (rings.zone_of call) }
{
    match zone_of(call) {
        Some(zone) => Some(other_party(machine, zone)),
        None => None,
    }
}

// The zone that a call is about.
fn zone_of(call: Call) -> Option<Zone>
    ensures { result ≡ rings.zone_of call }
{
    match call {
        Call::Claim(zone)
        | Call::Give(zone)
        | Call::Yield(zone)
        | Call::Take(zone)
        | Call::Release(zone)
        | Call::Inquire(zone) => Some(zone),
        Call::SetPose(_) | Call::Advance | Call::Stop | Call::Resume => None,
    }
}

// The other party of a zone.
fn other_party(machine: Machine, zone: Zone) -> Machine
    ensures { result ≡ rules.other_party machine zone }
{
    if machine == host(zone) {
        guest(zone)
    } else {
        host(zone)
    }
}
