//! A machine's line to the interlock that threads share, by its pass.
ghost use Rattle.std.specs.Prelude.{◌≡◌, []};
ghost use Rattle.word_interlock.specs.Asked.{Asked};
ghost use Rattle.word_interlock.specs.History.{IsLawful};
ghost use Rattle.plan_interlock.specs.Book.{plan_book, plan_of};
ghost use Rattle.plan_workers.specs.Lines as lines;

use plan_controller::PlanLine;
use plan_interlock::{PlanInterlock, PlanPass};
use plan_types::{Answer, Call};
use std::marker::Model;
use word_interlock::Reply;
use word_interlock::laws::passes_see_lawful_histories;

/// A machine's line to the interlock that threads share: the interlock, and the machine's pass.
///
/// A call is one `ask` of the interlock; one that is Busy isn't made. Nothing is stored of the history, so a line takes
/// no memory, however many calls it makes.
#[derive(Drop)]
pub struct PlanPassLine<'a> {
    interlock: &'a PlanInterlock,
    pass: PlanPass,
    ghost own: { pass.table ≡ interlock.now.table },
    ghost kept: { ∥ IsLawful (plan_book (plan_of interlock.now.rules)) pass.opening pass.seen ∥₁ },
}

impl<'a> Model for PlanPassLine<'a> {
    ghost use Rattle.plan_interlock.specs.Book.{plan_of};
    ghost use Rattle.plan_workers.specs.Lines.{LineView};

    ghost Value = { LineView };

    ghost view = { λ l. record {
      pass = l.pass;
      plan = plan_of l.interlock.now.rules;
      tries = l.interlock.now.tries;
      kept = l.kept;
    } };
}

impl<'a> PlanPassLine<'a> {
    /// The line of a pass that was made with this interlock, by the same plan.
    pub fn new(interlock: &'a PlanInterlock, pass: PlanPass) -> PlanPassLine<'a>
        requires own { pass.table ≡ interlock.now.table }
        requires same_plan { plan_of pass.rules ≡ plan_of interlock.now.rules }
        ensures pass { result.pass ≡ pass }
        ensures plan { result.plan ≡ plan_of interlock.now.rules }
        ensures tries { result.tries ≡ interlock.now.tries }
    {
        passes_see_lawful_histories(&pass);
        PlanPassLine { interlock, pass }
    }

    /// Gives back the pass.
    pub fn into_pass(self) -> PlanPass
        ensures { result ≡ self.entry.pass }
    {
        let PlanPassLine { interlock: _, pass } = self;
        pass
    }

    /// Makes one call: what the interlock replies, with the stamp.
    pub(crate) fn reply_to(&mut self, call: Call) -> Reply<Answer>
        ensures call { Asked (plan_book self.old.plan) [] self.old.pass call self.old.tries result
            self.new.pass }
        ensures plan { self.new.plan ≡ self.old.plan }
        ensures tries { self.new.tries ≡ self.old.tries }
    {
        self.interlock.ask(&mut self.pass, call)
    }
}

/// What came back from a call; `None` if it wasn't made.
pub(crate) fn answer_in(reply: Reply<Answer>) -> Option<Answer>
    ensures { result ≡ lines.answer_in reply }
{
    match reply {
        Reply::Settled(answer, _) => Some(answer),
        Reply::Busy { .. } => None,
    }
}

impl<'a> PlanLine for PlanPassLine<'a> {
    ghost use Rattle.std.proofs.Math.Logic.{∥∥₁_elim};
    ghost use Rattle.plan_controller.specs.Benches.{IsPlan-prop, IsSound-prop, IsLegal-prop};
    ghost use Rattle.plan_workers.specs.Lines.{LineAsks, legal_here};

    ghost table = { λ l. l.plan };

    ghost machine = { λ l. l.pass.actor };

    ghost opening = { λ l. l.pass.opening };

    ghost seen = { λ l. l.pass.seen };

    // What the interlock's call promises.
    ghost asks = { λ l call answer d. LineAsks l call answer d };

    ghost plan = { λ l. ∥∥₁_elim l.kept (IsPlan-prop l.plan) (λ k. k.opened.0) };

    ghost sound = { λ l. ∥∥₁_elim l.kept (IsSound-prop l.plan l.pass.opening)
        (λ k. k.opened.1.sound) };

    ghost legal = { λ l. ∥∥₁_elim l.kept (IsLegal-prop l.plan l.pass.opening l.pass.seen)
        (λ k. legal_here l.plan l.pass.opening l.pass.seen k.legal) };

    fn machine(&self) -> u8 {
        self.pass.actor()
    }

    fn ask(&mut self, call: Call) -> Option<Answer> {
        answer_in(self.reply_to(call))
    }
}
