//! The journals of a word of a plant, as an audit takes them.
ghost use Rattle.std.specs.Prelude.{◌≡◌, IfOk, map};
ghost use Rattle.plan_workers.specs.PlantRecording as spec;

use crate::journal::PlanEntry;
use crate::plant_record::PlantRecorded;
use std::alloc::{AllocError, Global};

/// The journals that machines have kept of a word, in their order. They are copies.
///
/// In a plant's [`crate::WordJournals`] they stand by the machines' numbers: so give what the machines gave back in the
/// order of their numbers, from machine 0 on.
pub fn journals_on<D>(
    alloc: Global,
    backs: &[PlantRecorded<D>],
    word: usize,
) -> Result<Vec<Vec<PlanEntry>>, AllocError>
    ensures { IfOk result
        (λ journals. map (λ j. j.items) journals.items ≡ spec.noted_on word backs.now) }
{
    let mut journals = Vec::new(alloc);
    for back in backs {
        journals.push(journal_on(alloc, &back.journals, word)?)?;
    }
    Ok(journals)
}

// A copy of a word's journal, among those of all words.
fn journal_on(
    alloc: Global,
    journals: &[Vec<PlanEntry>],
    word: usize,
) -> Result<Vec<PlanEntry>, AllocError>
    ensures { IfOk result (λ copy. copy.items ≡ spec.journal_on word journals.now) }
{
    match journals.get(word) {
        Some(journal) => journal.iter().copied().collect(alloc),
        None => Ok(Vec::new(alloc)),
    }
}
