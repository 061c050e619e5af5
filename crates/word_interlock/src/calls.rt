//! The calls of an actor.
ghost use Rattle.std.specs.Prelude.{◌≡◌, ◌+◌, ◌≤◌, [], ◌∷◌};
ghost use Rattle.word_interlock.specs.History.{IsLawful};
ghost use Rattle.word_interlock.specs.Views.{told_by};
ghost use Rattle.word_interlock.specs.Seen.{IsSamePass, AnswersAtItsPoint, WaitsToItsPoint};
ghost use Rattle.word_interlock.specs.Seen.{HasChanges, IsOvertaken};
ghost use Rattle.word_interlock.specs.Calls.{IfSettled, IfBusy, SeenAfter};
ghost use Rattle.word_interlock.specs.Timing.{IsTimed, IsLookTimed, IsAttemptTimed};
ghost use Rattle.word_interlock.specs.Tries.{Looked, Attempted, after_look, after_attempt};
ghost use Rattle.word_interlock.specs.Steps.{Loaded};
ghost use Rattle.word_interlock.specs.Asked.{Asked, LookedAt};

use crate::interlock::Interlock;
use crate::pass::Pass;
use crate::receipt::Receipt;
use crate::reply::Reply;
use crate::rules::Rules;
use crate::tries::{Look, Tried, Try};

impl<R: Rules> Interlock<R> {
    /// Makes a call. It loads the word. If the call changes nothing, that is its answer. Otherwise an
    /// exchange replaces the word by the word after the call. If another actor has changed the word,
    /// the exchange is lost, and the call goes on with the word that it found. It is `Busy` once it
    /// has lost as many exchanges as a call may.
    ///
    /// The pass was made with this interlock. Whatever other threads do with the other passes
    /// meanwhile:
    /// - it remains the same actor's pass (`pass`);
    /// - what it has seen now is a legal history from a sound opening, so each law of such histories
    ///   holds of it (`lawful`);
    /// - that history begins with all that it had seen; an answered call is its last event, and the
    ///   only new one of its actor; a Busy call leaves no event (`seen`);
    /// - the answer is the one that the rules give, after the events before the call (`answer`);
    /// - the actor has made no other call there, so it still has what only its own calls take from it
    ///   (`right`);
    /// - it is Busy only if the call would be done, and other actors have made at least `tries`
    ///   changes that the pass hadn't seen before (`busy`), all after this call's load (`since`);
    /// - it loads the word once (`one_load`), and makes at most `tries` exchanges
    ///   (`few_exchanges`), exactly as many as it lost if it is Busy (`all_lost`);
    /// - it began with its load, after all events that there were then, and its own event came with
    ///   its last step (`real_time`).
    #[inline(always)]
    pub fn ask(&self, pass: &mut Pass<R>, call: R::Call) -> Reply<R::Answer>
        requires same_interlock { pass.old.table ≡ self.now.table }
        ensures pass { IsSamePass pass.old pass.new }
        ensures lawful { IsLawful (R.book self.now.rules) pass.old.opening pass.new.seen }
        ensures seen { SeenAfter (R.book self.now.rules) pass.old.actor call result
            pass.old.opening pass.old.seen pass.new.seen }
        ensures answer { IfSettled result
            (λ answer. AnswersAtItsPoint (R.book self.now.rules) pass.old call answer pass.new) }
        ensures right { IfSettled result
            (λ answer. WaitsToItsPoint (R.book self.now.rules) pass.old call answer pass.new) }
        ensures busy { IfBusy result (λ lost. IsOvertaken (R.book self.now.rules)
            pass.old pass.old.seen call self.now.tries lost pass.new) }
        ensures one_load { pass.new.loads ≡ pass.old.loads + 1 }
        ensures few_exchanges { pass.new.exchanges ≤ pass.old.exchanges + self.now.tries }
        ensures all_lost { IfBusy result (λ n. pass.new.exchanges ≡ pass.old.exchanges + n) }
        ensures since { IfBusy result (HasChanges (R.book self.now.rules)
            pass.old.actor pass.new.since pass.new.seen) }
        ensures real_time { IsTimed (R.book self.now.rules) [] pass.old call result pass.new }
    {
        let word = self.load(pass, call);
        self.reply_from(pass, call, word)
    }

    /// Makes a call after all that a receipt tells. It is a call as by `ask`, with the same clauses:
    /// by its one load, all that the receipt tells stands before its beginning (`after`, which holds
    /// what `real_time` says). To join the receipt to the pass also reads the word, uncounted: nothing
    /// of that is used.
    ///
    /// The pass was made with this interlock, and so was the receipt's.
    #[inline(always)]
    pub fn ask_after(
        &self,
        pass: &mut Pass<R>,
        call: R::Call,
        receipt: Receipt<R>,
    ) -> Reply<R::Answer>
        requires same_interlock { (pass.old.table ≡ self.now.table)
            × (receipt.table ≡ self.now.table) }
        ensures pass { IsSamePass pass.old pass.new }
        ensures lawful { IsLawful (R.book self.now.rules) pass.old.opening pass.new.seen }
        ensures seen { SeenAfter (R.book self.now.rules) pass.old.actor call result
            pass.old.opening pass.old.seen pass.new.seen }
        ensures answer { IfSettled result
            (λ answer. AnswersAtItsPoint (R.book self.now.rules) pass.old call answer pass.new) }
        ensures right { IfSettled result
            (λ answer. WaitsToItsPoint (R.book self.now.rules) pass.old call answer pass.new) }
        ensures busy { IfBusy result (λ lost. IsOvertaken (R.book self.now.rules)
            pass.old pass.old.seen call self.now.tries lost pass.new) }
        ensures one_load { pass.new.loads ≡ pass.old.loads + 1 }
        ensures few_exchanges { pass.new.exchanges ≤ pass.old.exchanges + self.now.tries }
        ensures all_lost { IfBusy result (λ n. pass.new.exchanges ≡ pass.old.exchanges + n) }
        ensures since { IfBusy result (HasChanges (R.book self.now.rules)
            pass.old.actor pass.new.since pass.new.seen) }
        ensures after { IsTimed (R.book self.now.rules) (told_by receipt ∷ [])
            pass.old call result pass.new }
    {
        let word = self.load_after(pass, call, receipt);
        self.reply_from(pass, call, word)
    }

    // What comes back from a call after its load, which found this word.
    #[inline(always)]
    fn reply_from(&self, pass: &mut Pass<R>, call: R::Call, found: u64) -> Reply<R::Answer>
        requires same_interlock { pass.old.table ≡ self.now.table }
        requires loaded { (heard : _) × (v : _)
            × Loaded (R.book self.now.rules) self.now.rules call heard v found pass.old }
        ensures asked { (heard : _) (v : _)
            → Loaded (R.book self.now.rules) self.now.rules call heard v found pass.old
            → Asked (R.book self.now.rules) heard v call self.now.tries result pass.new }
    {
        let mut word = found;
        let (mut answer, mut new) = self.reply_at(word, pass.actor(), call);
        if !self.is_done(answer) {
            return Reply::Settled(answer, self.stamp_of(word));
        }
        for _lost in 0..self.tries {
            let found = self.exchange(pass, call, answer, word, new);
            if found == word {
                return Reply::Settled(answer, self.stamp_of(new));
            }
            let (later, next) = self.reply_at(found, pass.actor(), call);
            if !self.is_done(later) {
                return Reply::Settled(later, self.stamp_of(found));
            }
            word = found;
            answer = later;
            new = next;
        }
        Reply::Busy {
            lost: self.tries,
            stamp: self.stamp_of(word),
        }
    }

    /// The first step of a call, one load. It answers a call that changes nothing; any other call is
    /// then pending.
    ///
    /// The pass was made with this interlock.
    pub fn look(&self, mut pass: Pass<R>, call: R::Call) -> Look<R>
        requires same_interlock { pass.table ≡ self.now.table }
        ensures looked { Looked (R.book self.now.rules) pass call self.now.tries result }
        ensures one_load { (after_look result).loads ≡ pass.loads + 1 }
        ensures no_exchange { (after_look result).exchanges ≡ pass.exchanges }
        ensures real_time { IsLookTimed (R.book self.now.rules) [] pass call result }
    {
        let found = self.load(&mut pass, call);
        self.look_from(pass, call, found)
    }

    /// The first step of a call after all that a receipt tells, one load. It is a look, and all that
    /// the receipt tells stands before the beginning of the call (`after`).
    ///
    /// The pass was made with this interlock, and so was the receipt's.
    pub fn look_after(&self, mut pass: Pass<R>, call: R::Call, receipt: Receipt<R>) -> Look<R>
        requires same_interlock { (pass.table ≡ self.now.table)
            × (receipt.table ≡ self.now.table) }
        ensures looked { Looked (R.book self.now.rules) pass call self.now.tries result }
        ensures one_load { (after_look result).loads ≡ pass.loads + 1 }
        ensures no_exchange { (after_look result).exchanges ≡ pass.exchanges }
        ensures after { IsLookTimed (R.book self.now.rules) (told_by receipt ∷ [])
            pass call result }
    {
        let found = self.load_after(&mut pass, call, receipt);
        self.look_from(pass, call, found)
    }

    // What a look gives after its load, which found this word.
    fn look_from(&self, pass: Pass<R>, call: R::Call, found: u64) -> Look<R>
        requires loaded { (heard : _) × (v : _)
            × Loaded (R.book self.now.rules) self.now.rules call heard v found pass }
        ensures looked { (heard : _) (v : _)
            → Loaded (R.book self.now.rules) self.now.rules call heard v found pass
            → LookedAt (R.book self.now.rules) heard v call self.now.tries result }
    {
        let (answer, new) = self.reply_at(found, pass.actor(), call);
        if self.is_done(answer) {
            Look::Pending(Try {
                pass,
                call,
                answer,
                old: found,
                new,
                lost: 0,
                tries: self.tries,
            })
        } else {
            Look::Settled(answer, self.stamp_of(found), pass)
        }
    }

    /// A further step of a call, one exchange. If it is won, the call is done. If it is lost, the
    /// call may change nothing any more, by the word that it found, and is answered. Otherwise the
    /// call has lost one more exchange, and is Busy once it has lost as many as it may.
    ///
    /// The call's pass was made with this interlock. A call that began when its pass was as before
    /// `look` goes on since then (`real_time`).
    pub fn attempt(&self, pending: Try<R>) -> Tried<R>
        requires same_interlock { pending.pass.table ≡ self.now.table }
        ensures attempted { Attempted (R.book self.now.rules) pending result }
        ensures no_load { (after_attempt result).loads ≡ pending.pass.loads }
        ensures one_exchange { (after_attempt result).exchanges ≡ pending.pass.exchanges + 1 }
        ensures real_time { IsAttemptTimed (R.book self.now.rules) pending result }
    {
        let Try {
            mut pass,
            call,
            answer,
            old,
            new,
            lost,
            tries,
        } = pending;
        let found = self.exchange(&mut pass, call, answer, old, new);
        if found == old {
            return Tried::Settled(answer, self.stamp_of(new), pass);
        }
        let (answer, new) = self.reply_at(found, pass.actor(), call);
        if !self.is_done(answer) {
            return Tried::Settled(answer, self.stamp_of(found), pass);
        }
        let lost = lost + 1;
        if lost == tries {
            return Tried::Busy {
                lost,
                stamp: self.stamp_of(found),
                pass,
            };
        }
        Tried::Lost(Try {
            pass,
            call,
            answer,
            old: found,
            new,
            lost,
            tries,
        })
    }
}

impl<R: Rules> Try<R> {
    /// Abandons the call, which is then never made, and gives its pass back.
    pub fn abandon(self) -> Pass<R>
        ensures { result ≡ self.pass }
    {
        let Try {
            pass,
            call: _,
            answer: _,
            old: _,
            new: _,
            lost: _,
            tries: _,
        } = self;
        pass
    }
}
