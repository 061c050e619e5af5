//! Audits of a journal of no entry to 1,000,000. Which journals an audit refuses, and why, its clauses say, with
//! figures in the law `audits_are_met`.

use super::{EMPTY, start_at};
use cell_report::{audit, find_fault};
use cell_rules::State;
use cell_types::{Answer, Call, Entry, Journals, Zone};
use std::alloc::{AllocError, Global};

/// Adds a number of notes of the press, which claims its zone and releases it in turn.
fn push_notes(journals: &mut Journals, count: u32) -> Result<(), AllocError> {
    for stamp in 1..=count {
        let call = if stamp % 2 == 1 {
            Call::Claim(Zone::Z3)
        } else {
            Call::Release(Zone::Z3)
        };
        journals.press.push(Entry {
            call,
            answer: Answer::Done,
            stamp,
        })?;
    }
    Ok(())
}

/// Whether an audit finds an event for each note, and no fault, where the end has the zones of the start.
fn are_found(alloc: Global, journals: &Journals, start: &State, count: u32) -> bool {
    let Some(end) = State::from_parts(start.zones(), start.full(), count, false) else {
        return false;
    };
    let is_right = find_fault(alloc, journals, start, Some(&end)).is_none();
    match audit(alloc, journals, start, Some(&end)) {
        Ok(events) => is_right && events.len() == count as usize,
        Err(_) => false,
    }
}

/// Whether this number of notes is accepted.
fn is_accepted(alloc: Global, start: &State, count: u32) -> bool {
    let mut journals = Journals::new(alloc);
    push_notes(&mut journals, count).is_ok() && are_found(alloc, &journals, start, count)
}

#[test]
fn accepts_what_was_noted(rt: HostRuntime) {
    let start = start_at(&rt, EMPTY, 0);
    let are_accepted = is_accepted(rt.alloc(), &start, 0) && is_accepted(rt.alloc(), &start, 2);
    assert!(rt; are_accepted && is_accepted(rt.alloc(), &start, 1_000_000));
}
