//! The audit: whether one legal history explains the journals of the machines.
ghost use Rattle.std.specs.Prelude.{◌≡◌, ◌≢◌, ◌≤◌, List, None, MatchResult, IfErr, IfOk, IfSome, length};
ghost use Rattle.cell_types.specs.declared.answer.Event.{Event};
ghost use Rattle.std.specs.Option.{option_copied};
ghost use Rattle.cell_types.specs.Journals.{journal_of};
ghost use Rattle.cell_rules.specs.Laws.{LawfulThroughout};
ghost use Rattle.cell_rules.specs.Audited.{IsAudited, HasNoHistory};
ghost use Rattle.cell_report.specs.Order.{all_noted, greatest, AreInOrder};
ghost use Rattle.cell_report.specs.AuditFaults.{IsFault, IsStampFault, end_stamp};
ghost use Rattle.cell_report.specs.Retraced.{Retraces};
ghost use Rattle.cell_report.specs.Traces.{IsTraceOf, IsStampedTrace};
ghost use Rattle.cell_report.specs.declared.audit_faults.AuditFault.TheVariants.{Memory};

use crate::audit_faults::AuditFault;
use crate::ordered::all_sorted;
use crate::same::is_same_state;
use crate::sinks::{EventSink, NoEvents};
use crate::stamps::{least_gap, least_twice};
use crate::traces::Trace;
use cell_rules::State;
use cell_rules::laws::lawful_throughout;
use cell_types::{Event, Journals};
use std::alloc::{AllocError, Global};

fn stamp_of_end(end: Option<&State>) -> u32
    ensures { result ≡ end_stamp (option_copied end.entry) }
{
    end.map_or(0, |end| end.stamp())
}

// A number of entries that isn't greater than that of all journals: the same, unless it overflows.
fn room(journals: &Journals) -> usize
    ensures { result ≤ length (all_noted (journal_of journals.now)) }
{
    journals
        .feed
        .len()
        .saturating_add(journals.table.len())
        .saturating_add(journals.robot.len())
        .saturating_add(journals.press.len())
        .saturating_add(journals.deposit.len())
        .saturating_add(journals.crane.len())
        .saturating_add(journals.watch.len())
}

/// The trace of all entries. Journals that are each in turn are merged, others sorted.
fn trace_of<K: EventSink>(
    alloc: Global,
    journals: &Journals,
    start: &State,
    least: u32,
    sink: &mut K,
) -> Result<Trace, AllocError>
    ensures { IfOk result
        (IsTraceOf (K.holds sink.new) start.now least (all_noted (journal_of journals.now))) }
{
    let trace = Trace::new(alloc, start, least, sink);
    if let Some(trace) = trace.follow_merged(start, journals, sink)? {
        return Ok(trace);
    }
    let sorted = all_sorted(alloc, journals)?;
    Trace::new(alloc, start, least, sink).follow_sorted(start, &sorted, sink)
}

/// The trace of all entries, if each stamp after the start's, up to the greatest, belongs to
/// exactly one Done entry.
fn checked_trace<K: EventSink>(
    alloc: Global,
    journals: &Journals,
    start: &State,
    least: u32,
    sink: &mut K,
) -> Result<Trace, AuditFault>
    ensures { let all = all_noted (journal_of journals.now) in
        MatchResult result
        (λ trace. IsStampedTrace (K.holds sink.new) start.now least all trace)
        (λ fault. IsStampFault start.now.stamp (greatest least all) all fault) }
{
    let trace = trace_of(alloc, journals, start, least, sink)?;
    if let Some(stamp) = least_twice(&trace.stamps) {
        return Err(AuditFault::Twice(stamp));
    }
    if let Some(stamp) = least_gap(&trace.stamps, start.stamp(), trace.top) {
        return Err(AuditFault::Gap(stamp));
    }
    Ok(trace)
}

/// Finds the legal history that explains the journals, and gives its events to the sink.
fn retrace<K: EventSink>(
    alloc: Global,
    journals: &Journals,
    start: &State,
    end: Option<&State>,
    sink: &mut K,
) -> Result<(), AuditFault>
    ensures ok { let journals = journal_of journals.now in
        IfOk result (λ _. Retraces (K.holds sink.new) start.now journals
        (option_copied end.entry)) }
    ensures fault { IfErr result
        (λ fault. IsFault start.now (journal_of journals.now) (option_copied end.entry) fault) }
{
    let least = start.stamp().max(stamp_of_end(end));
    let trace = checked_trace(alloc, journals, start, least, sink)?;
    if let Some(stamp) = trace.misfit {
        return Err(AuditFault::Differs(stamp));
    }
    if let Some(end) = end {
        if !is_same_state(&trace.state, end) {
            return Err(AuditFault::End);
        }
    }
    Ok(())
}

/// Finds the legal history that explains the journals: it begins at the start, each journal is what
/// its machine noted of it, and it ends at the end, if one is given. Its events are in the order of
/// their stamps. At one stamp the Done event is first; the others are by machine, and then in the
/// order of the journal. The cost is linear in the number of entries. If an entry isn't in turn, they
/// are sorted, and the cost for n entries is about n log n.
///
/// # Errors
///
/// After any fault but `Memory` there is no such history. The faults are looked for in the order of
/// `AuditFault`, and the first that applies is returned. `Gap` takes the end's stamp into account
/// too, and `End` compares the whole states. `Memory` says that memory ran out. The journals and
/// the states don't change.
pub fn audit(
    alloc: Global,
    journals: &Journals,
    start: &State,
    end: Option<&State>,
) -> Result<Vec<Event>, AuditFault>
    ensures ok { IfOk result
        (λ events.
        IsAudited start.now (journal_of journals.now) (option_copied end.entry) events.items) }
    ensures lawful { IfOk result (λ events. LawfulThroughout start.now events.items) }
    ensures order { IfOk result (λ events. AreInOrder (journal_of journals.now) events.items) }
    ensures refused { IfErr result
        (λ fault. fault ≢ Memory
        → HasNoHistory start.now (journal_of journals.now) (option_copied end.entry)) }
    ensures fault { IfErr result
        (λ fault. IsFault start.now (journal_of journals.now) (option_copied end.entry) fault) }
{
    let mut events = Vec::new(alloc);
    events.reserve(room(journals))?;
    retrace(alloc, journals, start, end, &mut events)?;
    lawful_throughout(start, &events);
    Ok(events)
}

/// Finds out why `audit` would refuse the journals, if it would. It keeps no events, and so needs
/// less room and time.
///
/// Returns `None` if a legal history explains the journals, which begins at the start, and ends at
/// the end, if one is given. After any fault but `Memory` there is no such history. The fault is
/// that of `audit`, unless memory runs out.
pub fn find_fault(
    alloc: Global,
    journals: &Journals,
    start: &State,
    end: Option<&State>,
) -> Option<AuditFault>
    ensures none { result ≡ None → (history : List Event)
        × IsAudited start.now (journal_of journals.now) (option_copied end.entry) history
        × AreInOrder (journal_of journals.now) history }
    ensures refused { IfSome result
        (λ fault. fault ≢ Memory
        → HasNoHistory start.now (journal_of journals.now) (option_copied end.entry)) }
    ensures fault { IfSome result
        (λ fault. IsFault start.now (journal_of journals.now) (option_copied end.entry) fault) }
{
    retrace(alloc, journals, start, end, &mut NoEvents).err()
}
