//! Journals that are read entry by entry, in the order of an audit.
ghost use Rattle.std.specs.Prelude.{◌≡◌, ◌≢◌, ◌+◌, ◌<◌, ◌≤◌, ◌↔◌, [], IsTrue};
ghost use Rattle.std.specs.Prelude.{if◌then◌else◌, IfErr, IfOk, IsOk, MatchOption, MatchResult, replicate, ℕ};
ghost use Rattle.std.specs.Option.{option_copied};
ghost use Rattle.plan_types.specs.Table.{watch};
ghost use Rattle.plan_rules.specs.History.{is_done_answer};
ghost use Rattle.plan_rules.specs.Reply.{reply};
ghost use Rattle.plan_workers.specs.Audited.{EndsIn, journals_in};
ghost use Rattle.plan_workers.specs.Journals.{event_by};
ghost use Rattle.plan_workers.specs.declared.audit_fault.PlanAuditFault.TheVariants.{Memory};
ghost use Rattle.plan_workers.specs.Replays.{FollowsFirst, HasNoNext, HasNoStranger, IsFirst, IsNext, IsTaken};
ghost use Rattle.plan_workers.specs.Replays.{rest_of, NoneFollows, Reads};

use crate::audit_fault::PlanAuditFault;
use crate::journal::PlanEntry;
use plan_rules::{State, apply};
use plan_types::{Answer, Event, Plan};

/// How many callers there are: machines, and the watch.
const CALLERS: usize = 31;

/// The first journal past the watch's that has an entry.
pub(crate) fn stranger_in(journals: &[Vec<PlanEntry>]) -> Option<usize>
    ensures { MatchOption result (HasNoStranger (journals_in journals.now))
        (λ k. (watch < k) × (journals_in journals.now k ≢ [])) }
{
    for k in CALLERS..journals.len() {
        if !journals[k].is_empty() {
            return Some(k);
        }
    }
    None
}

/// How far journals have been read.
#[derive(Clone, Copy)]
pub(crate) struct Replay {
    /// How many entries of each.
    read: [usize; CALLERS],
    /// The state that these lead to.
    state: State,
}

/// Whether an entry may follow a state with this stamp: a done one has the stamp after it, another one the same.
fn may_follow(entry: &PlanEntry, done: bool, stamp: u32) -> bool
    ensures kind { IsTrue result → is_done_answer entry.now.answer ≡ done }
    ensures at { IsTrue result → entry.now.stamp ≡ (if done then stamp + 1 else stamp) }
    ensures all { is_done_answer entry.now.answer ≡ done
        → entry.now.stamp ≡ (if done then stamp + 1 else stamp) → IsTrue result }
{
    let is_done = matches!(entry.answer, Answer::Done);
    let before = if done {
        entry.stamp.checked_sub(1)
    } else {
        Some(entry.stamp)
    };
    is_done == done && before == Some(stamp)
}

/// Whether two states are the same.
fn is_same_state(a: &State, b: &State) -> bool
    ensures { IsTrue result ↔ (a.now ≡ b.now) }
{
    a == b
}

/// Whether a state is the given end, if one is given.
fn ends_in(state: &State, end: Option<&State>) -> bool
    ensures { IsTrue result ↔ EndsIn state.now (option_copied end.entry) }
{
    match end {
        Some(end) => is_same_state(state, end),
        None => true,
    }
}

impl Replay {
    /// Nothing has been read.
    pub(crate) fn new(start: &State) -> Replay
        ensures read { result.read ≡ replicate 31 0 }
        ensures state { result.state ≡ start.now }
    {
        Replay {
            read: [0; CALLERS],
            state: *start,
        }
    }

    /// The next entry of a caller's journal.
    fn next_of(&self, journals: &[Vec<PlanEntry>], machine: u8) -> Option<PlanEntry>
        requires { machine ≤ watch }
        ensures { let left = rest_of self.now.read (journals_in journals.now) machine in
            MatchOption result (left ≡ []) (λ x. IsFirst x left) }
    {
        let place = self.read[usize::from(machine)];
        journals.get(usize::from(machine))?.get(place).copied()
    }

    /// The first caller whose next entry, done or not, may follow the state, with that entry.
    fn first_that_follows(&self, journals: &[Vec<PlanEntry>], done: bool) -> Option<(u8, PlanEntry)>
        ensures { let left = rest_of self.now.read (journals_in journals.now) in
            let stamp = self.now.state.stamp in
            MatchOption result (NoneFollows done stamp left)
            (λ next. FollowsFirst done stamp left next.0 next.1) }
    {
        for machine in 0..31 {
            if let Some(entry) = self.next_of(journals, machine) {
                if may_follow(&entry, done, self.state.stamp) {
                    return Some((machine, entry));
                }
            }
        }
        None
    }

    /// The entry that comes next, with its caller: of those that aren't done the first; where there is none, a done
    /// one.
    pub(crate) fn next(&self, journals: &[Vec<PlanEntry>]) -> Option<(u8, PlanEntry)>
        ensures { let left = rest_of self.now.read (journals_in journals.now) in
            let stamp = self.now.state.stamp in
            MatchOption result (HasNoNext stamp left) (λ next. IsNext stamp left next.0 next.1) }
    {
        match self.first_that_follows(journals, false) {
            Some(next) => Some(next),
            None => self.first_that_follows(journals, true),
        }
    }

    /// Takes a caller's next entry away.
    fn skip(&mut self, journals: &[Vec<PlanEntry>], machine: u8)
        requires caller { machine ≤ watch }
        requires some { rest_of self.old.read (journals_in journals.now) machine ≢ [] }
        ensures taken { IsTaken machine (rest_of self.old.read (journals_in journals.now))
            (rest_of self.new.read (journals_in journals.now)) }
        ensures state { self.new.state ≡ self.old.state }
    {
        let machine = usize::from(machine);
        let place = self.read[machine];
        let count = journals[machine].len();
        prove!(place < count);
        self.read[machine] = place + 1;
    }

    /// Reads a caller's next entry, if the rules answer its call so, and gives its event.
    pub(crate) fn read(
        &mut self,
        plan: &Plan,
        journals: &[Vec<PlanEntry>],
        machine: u8,
        entry: PlanEntry,
    ) -> Result<Event, PlanAuditFault>
        requires caller { machine ≤ watch }
        requires first { IsFirst entry (rest_of self.old.read (journals_in journals.now) machine) }
        ensures event { IfOk result (λ event. event ≡ event_by machine entry) }
        ensures read { IfOk result (λ _. Reads plan.now machine entry self.old.state self.new.state
            (rest_of self.old.read (journals_in journals.now))
            (rest_of self.new.read (journals_in journals.now))) }
        ensures fault { IfErr result (λ fault. (fault ≢ Memory)
            × (entry.answer ≢ reply plan.now self.old.state machine entry.call)) }
    {
        let answer = apply(plan, &mut self.state, machine, entry.call);
        if answer != entry.answer {
            return Err(PlanAuditFault::Differs {
                machine,
                stamp: entry.stamp,
            });
        }
        self.skip(journals, machine);
        Ok(Event {
            machine,
            call: entry.call,
            answer,
        })
    }

    /// Whether all journals have been read to their ends.
    fn has_read_all(&self, journals: &[Vec<PlanEntry>]) -> bool
        ensures { IsTrue result ↔ ((m : ℕ) → m ≤ watch
            → rest_of self.now.read (journals_in journals.now) m ≡ []) }
    {
        for machine in 0..31 {
            if self.next_of(journals, machine).is_some() {
                return false;
            }
        }
        true
    }

    /// Whether all has been read, and led to the end.
    pub(crate) fn finish(
        &self,
        journals: &[Vec<PlanEntry>],
        end: Option<&State>,
    ) -> Result<(), PlanAuditFault>
        ensures read { IsOk result → (m : ℕ) → m ≤ watch
            → rest_of self.now.read (journals_in journals.now) m ≡ [] }
        ensures ends { IsOk result → EndsIn self.now.state (option_copied end.entry) }
        ensures fault { IfErr result (λ fault. (fault ≢ Memory)
            × (((m : ℕ) → m ≤ watch → rest_of self.now.read (journals_in journals.now) m ≡ [])
            → ¬ EndsIn self.now.state (option_copied end.entry))) }
    {
        if !self.has_read_all(journals) {
            let stamp = self.state.stamp;
            return Err(PlanAuditFault::OutOfTurn { stamp });
        }
        if !ends_in(&self.state, end) {
            return Err(PlanAuditFault::End);
        }
        Ok(())
    }
}
