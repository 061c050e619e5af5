//! Several passes in one.
ghost use Rattle.std.specs.Prelude.{◌≡◌, ◌∷◌, []};
ghost use Rattle.word_interlock.specs.Views.{view_of};

use crate::interlock::Interlock;
use crate::pass::Pass;
use crate::rule::View;
use crate::rules::Rules;
use atomic_table::Seat;
use std::marker::Model;

/// The passes of several actors. Those of a new interlock come out one by one, and at its end all
/// passes come back into one such value.
#[derive(Drop)]
pub struct Passes<R: Rules> {
    pub(crate) seat: Seat<(), View<R>>,
}

impl<R: Rules> Model for Passes<R> {
    ghost use Rattle.word_interlock.specs.Views.{PassesView};
    ghost use Rattle.word_interlock.specs.Bunches.{IsBunch};

    ghost Value = { PassesView R R.State R.Actor R.Event };

    ghost view = { λ p. record { table = p.seat.table_id; actors = p.seat.me.0.actors } };

    ghost invariant = { λ p. IsBunch R.book p.seat.me };
}

impl<R: Rules> Passes<R> {
    /// One pass alone, to which others can be given back.
    pub fn of(pass: Pass<R>) -> Passes<R>
        ensures table { result.table ≡ pass.table }
        ensures actors { result.actors ≡ view_of pass ∷ [] }
    {
        Passes {
            seat: pass.into_seat(),
        }
    }
}

impl<R: Rules> Interlock<R> {
    ghost use Rattle.word_interlock.specs.Bunches.{IsNext};

    /// Takes the pass of the first actor out of several. The others stay.
    ///
    /// The passes were made with this interlock, and the first is this actor's.
    pub fn take_pass(&self, passes: &mut Passes<R>, actor: R::Actor) -> Pass<R>
        requires same_interlock { passes.old.table ≡ self.now.table }
        requires next { IsNext actor passes.old.actors }
        ensures taken { passes.old.actors ≡ view_of result ∷ passes.new.actors }
        ensures table { result.table ≡ passes.old.table }
        ensures same { passes.new.table ≡ passes.old.table }
    {
        Pass::of(actor, self.split_first(&mut passes.seat))
    }

    /// Puts a pass before several others.
    ///
    /// All were made with this interlock.
    pub fn give_back(&self, passes: &mut Passes<R>, pass: Pass<R>)
        requires same_interlock { (passes.old.table ≡ self.now.table)
            × (pass.table ≡ self.now.table) }
        ensures given { passes.new.actors ≡ view_of pass ∷ passes.old.actors }
        ensures same { passes.new.table ≡ passes.old.table }
    {
        self.join(&mut passes.seat, pass.into_seat());
    }
}
