//! The audit: whether one legal history of a plan explains the journals of its machines.
ghost use Rattle.std.specs.Prelude.{◌≢◌, IfOk, IfErr};
ghost use Rattle.std.specs.Option.{option_copied};
ghost use Rattle.plan_workers.specs.Audited.{AreInOrder, IsAudited, HasNoHistory, journals_in};
ghost use Rattle.plan_workers.specs.declared.audit_fault.PlanAuditFault.TheVariants.{Memory};

use crate::audit_fault::PlanAuditFault;
use crate::journal::PlanEntry;
use crate::replay::{Replay, stranger_in};
use plan_rules::State;
use plan_types::{Event, Plan};
use std::alloc::Global;

/// Finds the legal history that explains the journals: it begins at the start, journal k is what machine k noted of it,
/// and it ends at the end, if one is given. The watch is machine 30.
///
/// At one stamp the done event is first; the others are by machine, and then in the order of the journal. For each
/// entry it looks at each journal at most twice.
///
/// # Errors
///
/// After any fault but `Memory` there is no such history. The journals and the states don't change.
pub fn audit(
    alloc: Global,
    plan: &Plan,
    start: &State,
    journals: &[Vec<PlanEntry>],
    end: Option<&State>,
) -> Result<Vec<Event>, PlanAuditFault>
    ensures ok { IfOk result (λ events. IsAudited plan.now start.now (journals_in journals.now)
        (option_copied end.entry) events.items) }
    ensures order { IfOk result (λ events. AreInOrder events.items) }
    ensures refused { IfErr result (λ fault. fault ≢ Memory
        → HasNoHistory plan.now start.now (journals_in journals.now) (option_copied end.entry)) }
{
    if let Some(journal) = stranger_in(journals) {
        return Err(PlanAuditFault::NoMachine { journal });
    }
    let mut replay = Replay::new(start);
    let mut events = Vec::new(alloc);
    while let Some((machine, entry)) = replay.next(journals) {
        events.push(replay.read(plan, journals, machine, entry)?)?;
    }
    replay.finish(journals, end)?;
    Ok(events)
}
