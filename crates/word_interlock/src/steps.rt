//! The steps on the word.
ghost use Rattle.std.specs.Prelude.{◌≡◌, ◌↔◌, ℕ, [], ◌∷◌};
ghost use Rattle.word_interlock.specs.Views.{view_of, told_by};
ghost use Rattle.word_interlock.specs.Rule.{looked, exchanged, gathered};
ghost use Rattle.word_interlock.specs.Steps.{Loaded, Exchanged, IsReady};
ghost use Rattle.word_interlock.specs.Moments.{HasBegun};

use crate::interlock::Interlock;
use crate::pass::Pass;
use crate::receipt::Receipt;
use crate::rule::{Telling, Tells, View};
use crate::rules::Rules;
use atomic_table::Seat;
use std::marker::Brand;

impl<R: Rules> Interlock<R> {
    fn load_for<A: Telling<(), View<R>>>(&self, pass: &mut Pass<R>, call: R::Call) -> u64
        requires told { (st : _) (me : _) (word : ℕ) (me' : _) → A.then st me word me'
            ↔ looked (R.book self.now.rules) self.now.rules call [] (view_of pass.old) word me' }
        requires same_interlock { pass.old.table ≡ self.now.table }
        ensures { Loaded (R.book self.now.rules) self.now.rules call [] pass.old result pass.new }
    {
        self.table.shared.load::<Tells<A>>(&mut pass.seat, 0)
    }

    /// Loads the word for a call.
    pub(crate) fn load(&self, pass: &mut Pass<R>, call: R::Call) -> u64
        requires same_interlock { pass.old.table ≡ self.now.table }
        ensures { Loaded (R.book self.now.rules) self.now.rules call [] pass.old result pass.new }
    {
        self.load_for::<Brand>(pass, call)
    }

    fn load_after_for<A: Telling<(), View<R>>>(
        &self,
        pass: &mut Pass<R>,
        call: R::Call,
        receipt: Receipt<R>,
    ) -> u64
        requires told { (st : _) (me : _) (word : ℕ) (me' : _) → A.then st me word me'
            ↔ looked (R.book self.now.rules) self.now.rules call (told_by receipt ∷ [])
            (view_of pass.old) word me' }
        requires same_interlock { (pass.old.table ≡ self.now.table)
            × (receipt.table ≡ self.now.table) }
        ensures { Loaded (R.book self.now.rules) self.now.rules call (told_by receipt ∷ [])
            pass.old result pass.new }
    {
        let Receipt { seat } = receipt;
        self.join(&mut pass.seat, seat);
        self.table.shared.load::<Tells<A>>(&mut pass.seat, 0)
    }

    /// Loads the word for a call after all that a receipt tells.
    pub(crate) fn load_after(&self, pass: &mut Pass<R>, call: R::Call, receipt: Receipt<R>) -> u64
        requires same_interlock { (pass.old.table ≡ self.now.table)
            × (receipt.table ≡ self.now.table) }
        ensures { Loaded (R.book self.now.rules) self.now.rules call (told_by receipt ∷ [])
            pass.old result pass.new }
    {
        self.load_after_for::<Brand>(pass, call, receipt)
    }

    fn exchange_for<A: Telling<(), View<R>>>(
        &self,
        pass: &mut Pass<R>,
        call: R::Call,
        _answer: R::Answer,
        old: u64,
        new: u64,
    ) -> u64
        requires told { (st : _) (me : _) (word : ℕ) (me' : _) → A.then st me word me'
            ↔ exchanged (R.book self.now.rules) self.now.rules call old
            (view_of pass.old) word me' }
        requires same_interlock { pass.old.table ≡ self.now.table }
        requires ready { pass.old.rules ≡ self.now.rules
            → IsReady (R.book self.now.rules) pass.old.actor call _answer old new }
        requires begun { pass.old.rules ≡ self.now.rules
            → HasBegun (R.book self.now.rules) pass.old.moments pass.old.actor }
        ensures { Exchanged (R.book self.now.rules) self.now.rules call
            pass.old old result pass.new }
    {
        self.table
            .shared
            .compare_exchange::<Tells<A>>(&mut pass.seat, 0, old, new)
    }

    /// Replaces the old word by the new one for a call, if it finds the old one. Returns the word
    /// that it found.
    pub(crate) fn exchange(
        &self,
        pass: &mut Pass<R>,
        call: R::Call,
        answer: R::Answer,
        old: u64,
        new: u64,
    ) -> u64
        requires same_interlock { pass.old.table ≡ self.now.table }
        requires ready { pass.old.rules ≡ self.now.rules
            → IsReady (R.book self.now.rules) pass.old.actor call answer old new }
        requires begun { pass.old.rules ≡ self.now.rules
            → HasBegun (R.book self.now.rules) pass.old.moments pass.old.actor }
        ensures { Exchanged (R.book self.now.rules) self.now.rules call
            pass.old old result pass.new }
    {
        self.exchange_for::<Brand>(pass, call, answer, old, new)
    }

    /// The answer in a word's state, and the word of the state after the call.
    pub(crate) fn reply_at(&self, word: u64, actor: R::Actor, call: R::Call) -> (R::Answer, u64)
        requires { (state : R.State) × (R.book self.now.rules).is_sound state
            × ((R.book self.now.rules).packed state ≡ word) }
        ensures { (state : R.State) → (R.book self.now.rules).is_sound state
            → (R.book self.now.rules).packed state ≡ word
            → (result.0 ≡ (R.book self.now.rules).reply state actor call)
            × (result.1 ≡ (R.book self.now.rules).packed
            ((R.book self.now.rules).next state actor call)) }
    {
        self.rules.step(word, actor, call)
    }

    /// Whether a call with this answer has changed the state.
    pub(crate) fn is_done(&self, answer: R::Answer) -> bool
        ensures { result ≡ (R.book self.now.rules).is_done answer }
    {
        self.rules.is_done(answer)
    }

    /// The stamp in a word's state.
    pub(crate) fn stamp_of(&self, word: u64) -> u32
        ensures { (state : R.State) → (R.book self.now.rules).is_sound state
            → (R.book self.now.rules).packed state ≡ word
            → result ≡ (R.book self.now.rules).stamp state }
    {
        self.rules.stamp_of(word)
    }

    fn sync_for<A: Telling<(), View<R>>>(&self, seat: &mut Seat<(), View<R>>) -> u64
        requires told { (st : _) (me : _) (word : ℕ) (me' : _) → A.then st me word me'
            ↔ gathered (R.book self.now.rules) self.now.rules me word me' }
        requires same_interlock { seat.old.table_id ≡ self.now.table }
        requires no_slot { seat.old.me.1 ≡ [] }
        ensures table { seat.new.table_id ≡ seat.old.table_id }
        ensures gathered { gathered (R.book self.now.rules) self.now.rules
            seat.old.me result seat.new.me }
    {
        self.table.shared.load::<Tells<A>>(seat, 0)
    }

    /// Loads the word for no call.
    pub(crate) fn sync(&self, seat: &mut Seat<(), View<R>>) -> u64
        requires same_interlock { seat.old.table_id ≡ self.now.table }
        requires no_slot { seat.old.me.1 ≡ [] }
        ensures table { seat.new.table_id ≡ seat.old.table_id }
        ensures gathered { gathered (R.book self.now.rules) self.now.rules
            seat.old.me result seat.new.me }
    {
        self.sync_for::<Brand>(seat)
    }
}
