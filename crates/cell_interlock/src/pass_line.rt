//! A line to an interlock by a pass.
ghost use Rattle.std.specs.Prelude.{◌≡◌, []};
ghost use Rattle.cell_rules.specs.History.{own_events};
ghost use Rattle.cell_rules.specs.Journal.{noted};
ghost use Rattle.cell_rules.specs.Seen.{heard_nothing};
ghost use Rattle.cell_interlock.specs.Lines.{IsLine, PassAsks};

use crate::interlock::Interlock;
use crate::pass::Pass;
use cell_rules::{Heard, Line, LineFault, State, Survey};
use cell_types::{Call, Entry, Machine, Reply};
use std::alloc::Global;
use std::marker::Model;
use word_interlock::laws::passes_see_lawful_histories;

/// A machine's line to a shared interlock: a pass, and the journal of the calls that the pass has
/// settled.
///
/// A call first allocates room for its entry. If that fails, no call is made, and pass and journal
/// stay as they were. A call that is Busy leaves no entry.
#[derive(Drop)]
pub struct PassLine<'a> {
    interlock: &'a Interlock,
    pass: Pass,
    journal: Vec<Entry>,
    heard: Heard,
    ghost own: { pass.table ≡ interlock.now.table },
    ghost kept: { ∥ IsLine pass journal.items ∥₁ },
}

impl<'a> Model for PassLine<'a> {
    ghost use Rattle.cell_interlock.specs.Lines.{LineView};

    ghost Value = { LineView };

    ghost view = { λ l. record {
      pass = l.pass;
      journal = l.journal.items;
      heard = l.heard;
      tries = l.interlock.now.tries;
      kept = l.kept;
    } };
}

impl<'a> PassLine<'a> {
    /// Makes a line by a pass that was made with this interlock and has settled no call yet. It
    /// allocates no memory; its calls do.
    pub fn new(alloc: Global, interlock: &'a Interlock, pass: Pass) -> PassLine<'a>
        requires own { pass.table ≡ interlock.now.table }
        requires settled_none { own_events pass.seen pass.machine ≡ [] }
        ensures pass { result.pass ≡ pass }
        ensures heard { result.heard ≡ heard_nothing }
        ensures tries { result.tries ≡ interlock.now.tries }
    {
        passes_see_lawful_histories(&pass.inner);
        PassLine {
            interlock,
            pass,
            journal: Vec::new(alloc),
            heard: Heard::nothing(),
        }
    }

    /// Gives back the pass, and an entry for each call that it has settled, the oldest first.
    pub fn into_parts(self) -> (Pass, Vec<Entry>)
        ensures pass { result.0 ≡ self.entry.pass }
        ensures journal { result.1.items ≡ noted result.0.opening result.0.seen result.0.machine }
    {
        let PassLine {
            interlock: _,
            pass,
            journal,
            heard: _,
        } = self;
        (pass, journal)
    }
}

// Makes the call and its entry; the room for the entry is allocated first.
fn ask_and_note(
    interlock: &Interlock,
    pass: &mut Pass,
    journal: &mut Vec<Entry>,
    call: Call,
) -> Result<Reply, LineFault>
    requires own { pass.old.table ≡ interlock.now.table }
    requires noted { journal.old.items ≡ noted pass.old.opening pass.old.seen pass.old.machine }
    ensures asks { PassAsks interlock.now.tries pass.old call result pass.new }
    ensures noted { journal.new.items ≡ noted pass.new.opening pass.new.seen pass.new.machine }
{
    if journal.reserve(1).is_err() {
        return Err(LineFault::Memory);
    }
    let reply = interlock.ask(pass, call);
    if let Reply::Settled(answer, stamp) = reply {
        journal.push_reserved(Entry {
            call,
            answer,
            stamp,
        });
    }
    Ok(reply)
}

impl<'a> Line for PassLine<'a> {
    ghost use Rattle.std.proofs.Math.Logic.{∥∥₁_elim};
    ghost use Rattle.cell_rules.specs.Stored.{IsSound-prop, IsLegal-prop};
    ghost use Rattle.cell_interlock.specs.Lines.{LineAsks};

    ghost machine = { λ l. l.pass.machine };

    ghost opening = { λ l. l.pass.opening };

    ghost seen = { λ l. l.pass.seen };

    ghost heard = { λ l. l.heard };

    // The interlock's reply, or that there was no room for an entry; and the interlock stays the
    // same.
    ghost asks = { λ l call r d. LineAsks l call r d };

    ghost sound = { λ l. ∥∥₁_elim l.kept (IsSound-prop l.pass.opening) (λ k. k.sound) };

    ghost legal = { λ l. ∥∥₁_elim l.kept (IsLegal-prop l.pass.opening l.pass.seen) (λ k. k.legal) };

    fn machine(&self) -> Machine {
        self.pass.machine()
    }

    fn heard(&self) -> Heard {
        self.heard
    }

    fn ask(&mut self, call: Call) -> Result<Reply, LineFault> {
        let answered = ask_and_note(self.interlock, &mut self.pass, &mut self.journal, call);
        self.heard = self.heard.after(call, answered);
        answered
    }
}

impl<'a> Survey for PassLine<'a> {
    ghost use Rattle.cell_interlock.specs.Lines.{LineSurveys};

    // Its pass has seen more; the interlock stays the same.
    ghost surveys = { λ l d. LineSurveys l d };

    fn survey(&mut self) -> State {
        self.interlock.survey(&mut self.pass)
    }
}
