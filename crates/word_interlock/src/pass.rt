//! What a caller owns.
ghost use Rattle.std.specs.Prelude.{◌≡◌, []};
ghost use Rattle.word_interlock.specs.Only.{HasOne, HasOne-prop};

use crate::rule::View;
use crate::rules::Rules;
use atomic_table::Seat;
use std::marker::Model;

/// The right to make the calls of one actor. A call borrows it exclusively or takes it, so an actor
/// makes one call at a time. It may go from thread to thread.
#[derive(Drop)]
pub struct Pass<R: Rules> {
    pub(crate) actor: R::Actor,
    pub(crate) seat: Seat<(), View<R>>,
    ghost one: { HasOne seat.me.0.actors } by { HasOne-prop seat.me.0.actors },
}

impl<R: Rules> Model for Pass<R> {
    ghost use Rattle.word_interlock.specs.Views.{PassView, pass_of};
    ghost use Rattle.word_interlock.specs.Only.{only_of};
    ghost use Rattle.word_interlock.specs.Rule.{IsSeat};

    ghost Value = { PassView R R.State R.Actor R.Event };

    ghost view = { λ p. pass_of p.seat.table_id (only_of p.seat.me.0.actors p.one) };

    ghost invariant = { λ p. let v = only_of p.seat.me.0.actors p.one in
        IsSeat (R.book v.rules) v.rules p.actor v p.seat.me };
}

impl<R: Rules> Pass<R> {
    ghost use Rattle.word_interlock.specs.History.{IsLawful};
    ghost use Rattle.word_interlock.specs.Views.{pass_of, view_of};
    ghost use Rattle.word_interlock.specs.Rule.{IsSeat, actor_alone};

    /// The pass of an actor that is alone on its seat.
    pub(crate) fn of(actor: R::Actor, seat: Seat<(), View<R>>) -> Pass<R>
        requires own { (p : _) × IsSeat (R.book p.rules) p.rules actor p seat.me }
        ensures { (p : _) → seat.me ≡ (actor_alone p, []) → result ≡ pass_of seat.table_id p }
    {
        Pass { actor, seat }
    }

    /// Its seat.
    pub(crate) fn into_seat(self) -> Seat<(), View<R>>
        ensures table { result.table_id ≡ self.table }
        ensures own { result.me ≡ (actor_alone (view_of self), []) }
        ensures lawful { IsLawful (R.book self.rules) self.opening self.seen }
    {
        let Pass { actor: _, seat } = self;
        seat
    }

    /// The actor whose calls it makes.
    pub fn actor(&self) -> R::Actor
        ensures { result ≡ self.now.actor }
    {
        self.actor
    }
}
