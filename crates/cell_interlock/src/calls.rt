//! The calls of a machine.
ghost use Rattle.std.specs.Prelude.{◌≡◌, ◌+◌, ◌≤◌, [], ◌∷◌, Ok};
ghost use Rattle.cell_rules.specs.Laws.{LawfulThroughout};
ghost use Rattle.cell_rules.specs.Seen.{SeenAfter};
ghost use Rattle.cell_interlock.specs.Seen.{IsSamePass, AnswersAtItsPoint, LastingRight};
ghost use Rattle.cell_interlock.specs.Seen.{HasChanges, IsOvertaken};
ghost use Rattle.cell_interlock.specs.Calls.{IfSettled, IfBusy};
ghost use Rattle.cell_interlock.specs.Tries.{Looked, Attempted, after_look, after_attempt};
ghost use Rattle.cell_interlock.specs.Timing.{IsTimed, IsLookTimed, IsAttemptTimed, told_by};
ghost use Rattle.cell_interlock.specs.Engine.{reply_from};
ghost use Rattle.cell_interlock.specs.Looks.{look_from};

use crate::interlock::Interlock;
use crate::pass::Pass;
use crate::receipt::Receipt;
use crate::rules::CellRules;
use crate::tries::{Look, Tried, Try};
use cell_types::{Answer, Call, Reply};
use word_interlock as engine;

/// What came back from a call, in the cell's terms.
pub(crate) fn reply_of(reply: engine::Reply<Answer>) -> Reply
    ensures { result ≡ reply_from reply }
{
    match reply {
        engine::Reply::Settled(answer, stamp) => Reply::Settled(answer, stamp),
        engine::Reply::Busy { lost, stamp } => Reply::Busy { lost, stamp },
    }
}

// What a look gave, in the cell's terms.
fn look_of(look: engine::Look<CellRules>) -> Look
    ensures { result ≡ look_from look }
{
    match look {
        engine::Look::Settled(answer, stamp, inner) => Look::Settled(answer, stamp, Pass { inner }),
        engine::Look::Pending(inner) => Look::Pending(Try { inner }),
    }
}

impl Interlock {
    /// Makes a call. It loads the word. If the call is refused or inquires, that is its answer.
    /// Otherwise an exchange replaces the word by the word after the call. If another machine has
    /// changed the word, the exchange is lost, and the call goes on with the word that it found. It
    /// is `Busy` once it has lost as many exchanges as a call may.
    ///
    /// The pass was made with this interlock. Whatever other threads do with the other passes
    /// meanwhile:
    /// - it remains the same machine's pass (`pass`);
    /// - what it has seen now is a legal history, of which every law holds (`lawful`);
    /// - that history begins with all that it had seen; an answered call is its last event, and the
    ///   only new one of its machine; a Busy call leaves no event (`seen`);
    /// - the answer is the sequential interlock's, after the events before the call (`answer`);
    /// - the machine still holds there what it held before, so it isn't refused as not the owner of
    ///   its own zone (`right`);
    /// - it is Busy only if the call would be Done, and other machines have made at least `tries`
    ///   changes that the pass hadn't seen before (`busy`), all after this call's load (`since`);
    /// - it loads the word once (`one_load`), and makes at most `tries` exchanges
    ///   (`few_exchanges`), exactly as many as it lost if it is Busy (`all_lost`);
    /// - it began with its load, after all events that there were then, and its own event came with
    ///   its last step (`real_time`).
    #[inline(always)]
    pub fn ask(&self, pass: &mut Pass, call: Call) -> Reply
        requires same_interlock { pass.old.table ≡ self.now.table }
        ensures pass { IsSamePass pass.old pass.new }
        ensures lawful { LawfulThroughout pass.old.opening pass.new.seen }
        ensures seen { SeenAfter pass.old.machine call (Ok result)
            pass.old.opening pass.old.seen pass.new.seen }
        ensures answer { IfSettled result
            (λ answer. AnswersAtItsPoint pass.old call answer pass.new) }
        ensures right { IfSettled result (λ answer. LastingRight pass.old call answer pass.new) }
        ensures busy { IfBusy result (λ lost.
            IsOvertaken pass.old pass.old.seen call self.now.tries lost pass.new) }
        ensures one_load { pass.new.loads ≡ pass.old.loads + 1 }
        ensures few_exchanges { pass.new.exchanges ≤ pass.old.exchanges + self.now.tries }
        ensures all_lost { IfBusy result (λ n. pass.new.exchanges ≡ pass.old.exchanges + n) }
        ensures since { IfBusy result (HasChanges pass.old.machine pass.new.since pass.new.seen) }
        ensures real_time { IsTimed [] pass.old call result pass.new }
    {
        reply_of(self.inner.ask(&mut pass.inner, call))
    }

    /// Makes a call after all that a receipt tells. It is a call as by `ask`, with the same clauses:
    /// by its one load, all that the receipt tells stands before its beginning (`after`, which holds
    /// what `real_time` says). To join the receipt to the pass also reads the word, uncounted: nothing
    /// of that is used.
    ///
    /// The pass was made with this interlock, and so was the receipt's.
    #[inline(always)]
    pub fn ask_after(&self, pass: &mut Pass, call: Call, receipt: Receipt) -> Reply
        requires same_interlock { (pass.old.table ≡ self.now.table)
            × (receipt.table ≡ self.now.table) }
        ensures pass { IsSamePass pass.old pass.new }
        ensures lawful { LawfulThroughout pass.old.opening pass.new.seen }
        ensures seen { SeenAfter pass.old.machine call (Ok result)
            pass.old.opening pass.old.seen pass.new.seen }
        ensures answer { IfSettled result
            (λ answer. AnswersAtItsPoint pass.old call answer pass.new) }
        ensures right { IfSettled result (λ answer. LastingRight pass.old call answer pass.new) }
        ensures busy { IfBusy result (λ lost.
            IsOvertaken pass.old pass.old.seen call self.now.tries lost pass.new) }
        ensures one_load { pass.new.loads ≡ pass.old.loads + 1 }
        ensures few_exchanges { pass.new.exchanges ≤ pass.old.exchanges + self.now.tries }
        ensures all_lost { IfBusy result (λ n. pass.new.exchanges ≡ pass.old.exchanges + n) }
        ensures since { IfBusy result (HasChanges pass.old.machine pass.new.since pass.new.seen) }
        ensures after { IsTimed (told_by receipt ∷ []) pass.old call result pass.new }
    {
        reply_of(self.inner.ask_after(&mut pass.inner, call, receipt.inner))
    }

    /// The first step of a call, one load. It answers a call that is refused or inquires; any other
    /// call is then pending.
    ///
    /// The pass was made with this interlock.
    pub fn look(&self, pass: Pass, call: Call) -> Look
        requires same_interlock { pass.table ≡ self.now.table }
        ensures looked { Looked pass call self.now.tries result }
        ensures one_load { (after_look result).loads ≡ pass.loads + 1 }
        ensures no_exchange { (after_look result).exchanges ≡ pass.exchanges }
        ensures real_time { IsLookTimed [] pass call result }
    {
        look_of(self.inner.look(pass.inner, call))
    }

    /// The first step of a call after all that a receipt tells, one load. It is a look, and all that
    /// the receipt tells stands before the beginning of the call (`after`).
    ///
    /// The pass was made with this interlock, and so was the receipt's.
    pub fn look_after(&self, pass: Pass, call: Call, receipt: Receipt) -> Look
        requires same_interlock { (pass.table ≡ self.now.table)
            × (receipt.table ≡ self.now.table) }
        ensures looked { Looked pass call self.now.tries result }
        ensures one_load { (after_look result).loads ≡ pass.loads + 1 }
        ensures no_exchange { (after_look result).exchanges ≡ pass.exchanges }
        ensures after { IsLookTimed (told_by receipt ∷ []) pass call result }
    {
        look_of(self.inner.look_after(pass.inner, call, receipt.inner))
    }

    /// A further step of a call, one exchange. If it is won, the call is Done. If it is lost, the
    /// word that it found may refuse the call. Otherwise the call has lost one more exchange, and
    /// is Busy once it has lost as many as it may.
    ///
    /// The call's pass was made with this interlock. A call that began when its pass was as before
    /// `look` goes on since then (`real_time`).
    pub fn attempt(&self, pending: Try) -> Tried
        requires same_interlock { pending.pass.table ≡ self.now.table }
        ensures attempted { Attempted pending result }
        ensures no_load { (after_attempt result).loads ≡ pending.pass.loads }
        ensures one_exchange { (after_attempt result).exchanges ≡ pending.pass.exchanges + 1 }
        ensures real_time { IsAttemptTimed pending result }
    {
        match self.inner.attempt(pending.inner) {
            engine::Tried::Settled(answer, stamp, inner) => {
                Tried::Settled(answer, stamp, Pass { inner })
            }
            engine::Tried::Lost(inner) => Tried::Lost(Try { inner }),
            engine::Tried::Busy { lost, stamp, pass } => Tried::Busy {
                lost,
                stamp,
                pass: Pass { inner: pass },
            },
        }
    }
}

impl Try {
    /// Abandons the call, which is then never made, and gives its pass back.
    pub fn abandon(self) -> Pass
        ensures { result ≡ self.pass }
    {
        Pass {
            inner: self.inner.abandon(),
        }
    }
}
