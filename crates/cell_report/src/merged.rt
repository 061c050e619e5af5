//! Merges journals: if they are each in turn, their entries come in the order of an audit.
ghost use Rattle.std.specs.Prelude.{◌≡◌, ◌<◌, ◌≤◌, [], MatchOption, length, map, replicate, take};
ghost use Rattle.cell_types.specs.Journals.{journal_of};
ghost use Rattle.cell_report.specs.Order as order;
ghost use Rattle.cell_report.specs.InTurn as turn;
ghost use Rattle.cell_report.specs.Merged as merged;

use crate::rests::{Merge, Rest, Run};
use crate::same::is_same_entry;
use cell_types::{Entry, Journals, Machine};

/// How many entries at the beginning are the same as this one.
// The entry is a copy, so that it isn't read again for each other one.
#[inline(always)]
fn count_same(entries: &[Entry], entry: Entry) -> usize
    ensures within { result ≤ length entries.now }
    ensures same { take result entries.now ≡ replicate result entry }
{
    let mut count = 0;
    while count < entries.len() && is_same_entry(&entry, &entries[count]) {
        count += 1;
    }
    count
}

impl<'a> Rest<'a> {
    /// The next run of the journal, or `None` after the last.
    // Inline, so that no run passes through memory.
    #[inline(always)]
    pub fn next_run(&mut self) -> Option<Run<'a>>
        ensures { MatchOption result (self.old.entries.now ≡ [])
            (λ run. merged.IsRun self.old self.new run) }
    {
        let (entry, others) = self.entries.split_first()?;
        let again = count_same(others, *entry);
        let before = self.key;
        *self = Rest::new(self.machine, &others[again..]);
        Some(Run {
            machine: self.machine,
            entry,
            count: again + 1,
            in_turn: before <= self.key,
        })
    }
}

/// The place of the rest whose first entry is the next in the order: the first with the least key.
fn least(rests: &[Rest<'_>]) -> usize
    requires { 0 < length rests.now }
    ensures { turn.IsFirstLeast (map (λ r. r.key) rests.now) result }
{
    let mut least = 0;
    for place in 1..rests.len() {
        if rests[place].key < rests[least].key {
            least = place;
        }
    }
    least
}

impl<'a> Merge<'a> {
    /// All entries of journals.
    pub fn new(journals: &'a Journals) -> Merge<'a>
        ensures { merged.IsInTurn result
            → merged.rest_of result ≡ order.in_order (order.all_noted (journal_of journals.now)) }
    {
        let rests = [
            Rest::new(Machine::Feed, &journals.feed),
            Rest::new(Machine::Table, &journals.table),
            Rest::new(Machine::Robot, &journals.robot),
            Rest::new(Machine::Press, &journals.press),
            Rest::new(Machine::Deposit, &journals.deposit),
            Rest::new(Machine::Crane, &journals.crane),
            Rest::new(Machine::Watch, &journals.watch),
        ];
        Merge { rests, place: None }
    }

    // The place of the rest whose first entry is the next in the order.
    fn next_place(&self) -> usize
        ensures { turn.IsFirstLeast (map (λ r. r.key) self.now.rests) result }
    {
        match self.place {
            Some(place) => place,
            None => least(&self.rests),
        }
    }

    /// The next run in the order, or `None` after the last.
    // While the key stays, so does the place, and no other rest is looked at.
    #[inline(always)]
    pub fn next_run(&mut self) -> Option<Run<'a>>
        ensures { MatchOption result (merged.left_of_all self.old.rests ≡ [])
            (λ run. merged.IsMerged self.old.rests self.new.rests run) }
    {
        let place = self.next_place();
        let rests = &self.rests[..];
        let mut rest = rests[place];
        let key = rest.key;
        let run = rest.next_run();
        let stays = rest.key == key;
        self.place = None;
        self.rests[place] = rest;
        if stays {
            self.place = Some(place);
        }
        run
    }
}
