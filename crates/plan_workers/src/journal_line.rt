//! A machine's line by its pass that keeps a journal.
ghost use Rattle.std.specs.Prelude.{◌≡◌, ◌<◌, [], ◌++◌, vec_capacity, vec_len};
ghost use Rattle.word_interlock.specs.Asked.{Asked};
ghost use Rattle.plan_interlock.specs.Book.{plan_book, plan_of};
ghost use Rattle.plan_workers.specs.Journals.{IsJournal};
ghost use Rattle.plan_workers.specs.Recording.{entries_in};

use crate::journal::PlanEntry;
use crate::pass_line::{PlanPassLine, answer_in};
use plan_controller::PlanLine;
use plan_interlock::{PlanInterlock, PlanPass, PlanRules};
use plan_types::{Answer, Call};
use std::alloc::Global;
use std::marker::Model;
use word_interlock::{Receipt, Reply};

/// A machine's line to the interlock that threads share, by its pass, with a journal of its calls.
///
/// The journal has each call that was answered, in order, with its stamp; a Busy call isn't noted. Room is made before
/// each call: out of memory no call is made. So the journal never lacks a call that was answered.
#[derive(Drop)]
pub struct PlanJournalLine<'a> {
    line: PlanPassLine<'a>,
    // What the pass had seen when the line was made. It has no bytes.
    begun: Receipt<PlanRules>,
    journal: Vec<PlanEntry>,
}

impl<'a> Model for PlanJournalLine<'a> {
    ghost use Rattle.plan_workers.specs.Journals.{IsJournal};
    ghost use Rattle.plan_workers.specs.Recording.{JournalLineView};

    ghost Value = { JournalLineView };

    ghost view = { λ l. record { line = l.line; before = l.begun.seen; journal = l.journal.items } };

    ghost invariant = { λ l. IsJournal l.line.pass.opening.stamp l.line.pass.actor l.begun.seen
        l.line.pass.seen l.journal.items };
}

impl<'a> PlanJournalLine<'a> {
    /// The line of a pass that was made with this interlock, by the same plan. The journal is empty, and allocates
    /// nothing until the first call.
    pub fn new(alloc: Global, interlock: &'a PlanInterlock, pass: PlanPass) -> PlanJournalLine<'a>
        requires own { pass.table ≡ interlock.now.table }
        requires same_plan { plan_of pass.rules ≡ plan_of interlock.now.rules }
        ensures pass { result.line.pass ≡ pass }
        ensures plan { result.line.plan ≡ plan_of interlock.now.rules }
        ensures tries { result.line.tries ≡ interlock.now.tries }
        ensures before { result.before ≡ pass.seen }
        ensures empty { result.journal ≡ [] }
    {
        let mut pass = pass;
        let begun = interlock.receipt(&mut pass);
        PlanJournalLine {
            line: PlanPassLine::new(interlock, pass),
            begun,
            journal: Vec::new(alloc),
        }
    }

    /// The journal so far: the machine's calls that were answered since the line was made, each with its stamp.
    pub fn journal(&self) -> &[PlanEntry]
        ensures journal { result.now ≡ self.now.journal }
        ensures own { let pass = self.now.line.pass in
            IsJournal pass.opening.stamp pass.actor self.now.before pass.seen result.now }
    {
        &self.journal
    }

    /// Gives back the pass, and the journal.
    pub fn into_parts(self) -> (PlanPass, Vec<PlanEntry>)
        ensures pass { result.0 ≡ self.entry.line.pass }
        ensures journal { result.1.items ≡ self.entry.journal }
        ensures own { let line = self.entry in IsJournal result.0.opening.stamp result.0.actor
            line.before result.0.seen result.1.items }
    {
        let PlanJournalLine {
            line,
            begun: _,
            journal,
        } = self;
        (line.into_pass(), journal)
    }
}

// Makes one call, and notes it in a journal that has room for it.
fn ask_noted(line: &mut PlanPassLine<'_>, journal: &mut Vec<PlanEntry>, call: Call) -> Reply<Answer>
    requires room { vec_len journal.old < vec_capacity journal.old }
    ensures call { Asked (plan_book line.old.plan) [] line.old.pass call line.old.tries result
        line.new.pass }
    ensures plan { line.new.plan ≡ line.old.plan }
    ensures tries { line.new.tries ≡ line.old.tries }
    ensures journal { journal.new.items ≡ journal.old.items ++ entries_in call result }
{
    let reply = line.reply_to(call);
    if let Reply::Settled(answer, stamp) = reply {
        let entry = PlanEntry {
            call,
            answer,
            stamp,
        };
        let Ok(()) = journal.push(entry) else {
            unreachable!()
        };
    }
    reply
}

impl<'a> PlanLine for PlanJournalLine<'a> {
    ghost use Rattle.std.proofs.Math.Logic.{∥∥₁_elim};
    ghost use Rattle.plan_controller.specs.Benches.{IsPlan-prop, IsSound-prop, IsLegal-prop};
    ghost use Rattle.plan_workers.specs.Lines.{legal_here};
    ghost use Rattle.plan_workers.specs.Recording.{JournalLineAsks};

    ghost table = { λ l. l.line.plan };

    ghost machine = { λ l. l.line.pass.actor };

    ghost opening = { λ l. l.line.pass.opening };

    ghost seen = { λ l. l.line.pass.seen };

    // What the interlock's call promises, and what the journal notes of it; or memory ran out, and nothing changes.
    ghost asks = { λ l call answer d. JournalLineAsks l call answer d };

    ghost plan = { λ l. ∥∥₁_elim l.line.kept (IsPlan-prop l.line.plan) (λ k. k.opened.0) };

    ghost sound = { λ l. ∥∥₁_elim l.line.kept (IsSound-prop l.line.plan l.line.pass.opening)
        (λ k. k.opened.1.sound) };

    ghost legal = { λ l. ∥∥₁_elim l.line.kept
        (IsLegal-prop l.line.plan l.line.pass.opening l.line.pass.seen)
        (λ k. legal_here l.line.plan l.line.pass.opening l.line.pass.seen k.legal) };

    fn machine(&self) -> u8 {
        self.line.machine()
    }

    fn ask(&mut self, call: Call) -> Option<Answer> {
        if self.journal.reserve(1).is_err() {
            return None;
        }
        answer_in(ask_noted(&mut self.line, &mut self.journal, call))
    }
}
