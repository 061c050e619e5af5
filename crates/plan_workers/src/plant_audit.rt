//! The audit of a plant on several words: whether on each word one legal history explains the journals of all machines.
ghost use Rattle.std.specs.Prelude.{◌≡◌, ◌≢◌, IfOk, IfErr, OnOk, List, [], ◌∷◌, ◌++◌, length, map};
ghost use Rattle.plan_types.specs.declared.answer.Event.{Event};
ghost use Rattle.plan_workers.specs.Audited.{AreInOrder};
ghost use Rattle.plan_workers.specs.PlantAudits.{EachIsExplained, ExplainsWord};
ghost use Rattle.plan_workers.specs.PlantAudits.{IsFirstUnexplained, IsUnexplained};
ghost use Rattle.plan_workers.specs.declared.audit_fault.PlanAuditFault.TheVariants.{Memory};

use crate::audit_fault::PlanAuditFault;
use crate::audits::audit;
use crate::journal::PlanEntry;
use plan_rules::State;
use plan_types::{Event, Plan};
use std::alloc::Global;
use thiserror::Error;

/// What is known of one word of a plant: its plan, the state that it opened with, the journals that the machines kept
/// of it, by their numbers, and the state that it ended with, if that is known.
///
/// Each part may be borrowed from elsewhere: from lists of plans, of starts, of journals and of ends.
#[derive(Clone, Copy)]
pub struct WordJournals<'p, 's, 'j, 'e> {
    /// Its plan.
    pub plan: &'p Plan,
    /// The state that it opened with.
    pub start: &'s State,
    /// The journals.
    pub journals: &'j [Vec<PlanEntry>],
    /// The state that it ended with.
    pub end: Option<&'e State>,
}

/// Why an audit refuses the journals of a plant: the first word that it refuses, and why.
#[derive(Clone, Copy, Debug, PartialEq, Eq, Error)]
#[error("word {word}: {fault}")]
pub struct PlantAuditFault {
    /// The word.
    pub word: usize,
    /// Why its journals are refused.
    pub fault: PlanAuditFault,
}

/// Finds, on each word of a plant, the legal history that explains the journals of that word. See [`audit`]: each word
/// is audited by itself, since calls of different words have no common order.
///
/// # Errors
///
/// After any fault but `Memory` the word has no such history, and each word before it has one.
pub fn audit_plant(
    alloc: Global,
    words: &[WordJournals<'_, '_, '_, '_>],
) -> Result<Vec<Vec<Event>>, PlantAuditFault>
    ensures many { IfOk result (λ found. length found.items ≡ length words.now) }
    ensures ok { IfOk result (λ found.
        EachIsExplained words.now (map (λ history. history.items) found.items)) }
    ensures refused { IfErr result (λ refused. refused.fault ≢ Memory
        → IsFirstUnexplained words.now refused.word) }
{
    let mut histories = Vec::new(alloc);
    for word in 0..words.len() {
        match audit_into(alloc, words[word], &mut histories) {
            Ok(()) => {}
            Err(fault) => return Err(PlantAuditFault { word, fault }),
        }
    }
    Ok(histories)
}

// Finds the history of one more word.
fn audit_into(
    alloc: Global,
    word: WordJournals<'_, '_, '_, '_>,
    histories: &mut Vec<Vec<Event>>,
) -> Result<(), PlanAuditFault>
    ensures found { OnOk result ((history : List Event)
        × (map (λ history. history.items) histories.new.items
        ≡ map (λ history. history.items) histories.old.items ++ history ∷ [])
        × ExplainsWord word.entry history × AreInOrder history) }
    ensures refused { IfErr result (λ fault. fault ≢ Memory → IsUnexplained word.entry) }
{
    let history = audit(alloc, word.plan, word.start, word.journals, word.end)?;
    histories.push(history)?;
    Ok(())
}
