//! The entries of all journals, in the order of an audit.
ghost use Rattle.std.specs.Prelude.{◌≡◌, ◌<◌, ◌++◌, ◌↔◌, IfOk, [], IsTrue};
ghost use Rattle.cell_types.specs.Journals.{journal_of};
ghost use Rattle.cell_report.specs.Order as order;
ghost use Rattle.cell_rules.specs.ModelState.{ModelState};
ghost use Rattle.cell_rules.specs.Reply.{reply};
ghost use Rattle.cell_report.specs.AuditFaults.{IsTooEarly, Fits};

use crate::same::is_same_answer;
use cell_rules::State;
use cell_types::{Answer, Entry, Journals, Machine};
use std::alloc::{AllocError, Global};

/// The key of the order: the stamp, and at one stamp Done before the other answers.
pub fn key(entry: &Entry) -> u64
    ensures key { result ≡ order.key_of entry.now }
    ensures below { result < u64.MAX }
{
    let rank = match entry.answer {
        Answer::Done => 0,
        _ => 1,
    };
    2 * u64::from(entry.stamp) + rank
}

/// An entry of a machine, and whether it is in turn: no earlier entry of its journal is later in
/// the order.
#[derive(Clone, Copy)]
pub struct Noted {
    pub entry: Entry,
    pub machine: Machine,
    pub in_turn: bool,
}

impl Noted {
    fn key(&self) -> u64
        ensures { result ≡ order.key_at self.now }
    {
        key(&self.entry)
    }

    /// Whether the call was Done.
    pub fn is_done(&self) -> bool
        ensures { result ≡ order.is_done_noted self.now }
    {
        matches!(self.entry.answer, Answer::Done)
    }

    /// Whether the stamp is too early for an entry after a start with this stamp.
    pub fn is_too_early(&self, start: u32) -> bool
        ensures { IsTrue result ↔ IsTooEarly start self.now }
    {
        if self.is_done() {
            self.entry.stamp <= start
        } else {
            self.entry.stamp < start
        }
    }

    /// Whether the entry is in turn, isn't too early after a start, and has this answer.
    pub fn fits(&self, start: &State, answer: &Answer) -> bool
        ensures { (now : ModelState) → answer.now ≡ reply now self.now.machine self.now.entry.call
            → (IsTrue result ↔ Fits start.now now self.now) }
    {
        self.in_turn
            && !self.is_too_early(start.stamp())
            && is_same_answer(&self.entry.answer, answer)
    }
}

fn push_journal(all: &mut Vec<Noted>, machine: Machine, journal: &[Entry]) -> Result<(), AllocError>
    ensures { IfOk result
        (λ _. all.new.items ≡ all.old.items ++ order.noted_from machine [] journal.now) }
{
    let mut latest = 0;
    for entry in journal {
        let key = key(entry);
        all.push(Noted {
            machine,
            entry: *entry,
            in_turn: latest <= key,
        })?;
        latest = latest.max(key);
    }
    Ok(())
}

fn push_journals(all: &mut Vec<Noted>, journals: &Journals) -> Result<(), AllocError>
    ensures { IfOk result (λ _. all.old.items ≡ [] →
        all.new.items ≡ order.all_noted (journal_of journals.now)) }
{
    push_journal(all, Machine::Feed, &journals.feed)?;
    push_journal(all, Machine::Table, &journals.table)?;
    push_journal(all, Machine::Robot, &journals.robot)?;
    push_journal(all, Machine::Press, &journals.press)?;
    push_journal(all, Machine::Deposit, &journals.deposit)?;
    push_journal(all, Machine::Crane, &journals.crane)?;
    push_journal(all, Machine::Watch, &journals.watch)
}

fn all_noted(alloc: Global, journals: &Journals) -> Result<Vec<Noted>, AllocError>
    ensures { IfOk result (λ all. all.items ≡ order.all_noted (journal_of journals.now)) }
{
    let mut all = Vec::new(alloc);
    match push_journals(&mut all, journals) {
        Ok(()) => Ok(all),
        Err(error) => Err(error),
    }
}

/// Sorts all entries into the order of an audit. The cost for n entries is about n log n.
pub fn all_sorted(alloc: Global, journals: &Journals) -> Result<Vec<Noted>, AllocError>
    ensures { IfOk result
        (λ sorted. order.InOrder (order.all_noted (journal_of journals.now)) sorted.items) }
{
    let mut sorted = all_noted(alloc, journals)?;
    sorted.sort_by_key(|noted| noted.key())?;
    Ok(sorted)
}
