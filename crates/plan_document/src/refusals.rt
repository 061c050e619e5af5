//! The refusals that a line of a program names, which stop its machine.
ghost use Rattle.std.specs.Prelude.{◌≡◌, false, IfOk, Some};
ghost use Rattle.plan_controller.specs.Faults.{has, with_one};
ghost use Rattle.plan_controller.specs.declared.faults.Mendable.{Mendable as PlanMendable};
ghost use Rattle.plan_document.specs.Refusals as spec;
ghost use Rattle.plan_document.specs.Saying.{words_in};

use crate::fault::{DocumentFault, Location, WrongText};
use plan_controller::{Faults, Mendable};
use std::alloc::Global;

/// The word of a refusal that others' calls may mend: the first one of its answer.
pub fn fault_word(fault: Mendable) -> &'static str
    ensures { result.now ≡ spec.fault_word fault }
{
    match fault {
        Mendable::Held => "held",
        Mendable::Shut => "shut",
        Mendable::NotOwner => "notowner",
        Mendable::PlateInZone => "platein",
        Mendable::NoPlate => "noplate",
        Mendable::PlaceFull => "placefull",
        Mendable::WrongWay => "wrongway",
        Mendable::Stopped => "stopped",
    }
}

/// The refusal with this word, or `None` if others' calls mend none that has it.
pub fn fault_of(word: &str) -> Option<Mendable>
    ensures { result ≡ spec.fault_of word.now }
{
    if word == fault_word(Mendable::Held) {
        return Some(Mendable::Held);
    }
    if word == fault_word(Mendable::Shut) {
        return Some(Mendable::Shut);
    }
    if word == fault_word(Mendable::NotOwner) {
        return Some(Mendable::NotOwner);
    }
    if word == fault_word(Mendable::PlateInZone) {
        return Some(Mendable::PlateInZone);
    }
    if word == fault_word(Mendable::NoPlate) {
        return Some(Mendable::NoPlate);
    }
    if word == fault_word(Mendable::PlaceFull) {
        return Some(Mendable::PlaceFull);
    }
    if word == fault_word(Mendable::WrongWay) {
        return Some(Mendable::WrongWay);
    }
    if word == fault_word(Mendable::Stopped) {
        return Some(Mendable::Stopped);
    }
    None
}

/// The refusals that these words name, each once.
pub(crate) fn faults_in(alloc: Global, words: &str, at: Location) -> Result<Faults, DocumentFault>
    ensures { IfOk result (spec.AreFaults (words_in words.now)) }
{
    let mut faults = Faults::none();
    let mut rest = words;
    'words: while let Some((word, more)) = rest.split_once(' ') {
        faults = with_word(alloc, faults, word, at)?;
        rest = more;
    }
    with_word(alloc, faults, rest, at)
}

/// These refusals and one that a word names.
fn with_word(
    alloc: Global,
    faults: Faults,
    word: &str,
    at: Location,
) -> Result<Faults, DocumentFault>
    ensures { IfOk result (λ all. (fault : PlanMendable)
        × (spec.fault_of word.now ≡ Some fault)
        × (has faults fault ≡ false)
        × (all ≡ with_one faults fault)) }
{
    match fault_of(word) {
        Some(fault) if !faults.has(fault) => Ok(faults.with(fault)),
        Some(_) => Err(at.text_fault(alloc, WrongText::NamedTwice, word)),
        None => Err(at.text_fault(alloc, no_fault(word), word)),
    }
}

/// What is wrong with a word of no refusal that others' calls may mend.
fn no_fault(word: &str) -> WrongText {
    if matches!(
        word,
        "notparty" | "already" | "jump" | "nopose" | "worn" | "notstopped"
    ) {
        WrongText::StopsAlways
    } else {
        WrongText::NoRefusal
    }
}
