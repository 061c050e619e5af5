//! A call that isn't made yet, and the results of its steps.
use crate::pass::Pass;
use crate::rules::Rules;
use std::marker::Model;

/// A call that would be done, but isn't made yet. It owns its pass, so its actor can't make another
/// call meanwhile.
#[derive(Drop)]
pub struct Try<R: Rules> {
    pub(crate) pass: Pass<R>,
    pub(crate) call: R::Call,
    pub(crate) answer: R::Answer,
    pub(crate) old: u64,
    pub(crate) new: u64,
    pub(crate) lost: u8,
    pub(crate) tries: u8,
}

impl<R: Rules> Model for Try<R> {
    ghost use Rattle.word_interlock.specs.Views.{TryView};
    ghost use Rattle.word_interlock.specs.Going.{IsTry};

    ghost Value = { TryView R R.State R.Actor R.Call R.Event };

    ghost view = { λ t. record { pass = t.pass; call = t.call; lost = t.lost; tries = t.tries } };

    ghost invariant = { λ t.
        IsTry (R.book t.pass.rules) t.pass t.call t.answer t.old t.new t.lost t.tries };
}

/// The result of a look.
#[derive(Drop)]
pub enum Look<R: Rules> {
    /// The call was answered, and changed nothing. The number is the stamp of the state that was
    /// found.
    Settled(R::Answer, u32, Pass<R>),
    /// The call would be done.
    Pending(Try<R>),
}

/// The result of an attempt.
#[derive(Drop)]
pub enum Tried<R: Rules> {
    /// The call was answered. The number is the stamp of the state at its point, or after the call
    /// if it is done.
    Settled(R::Answer, u32, Pass<R>),
    /// Another actor had changed the word. The call may be attempted again.
    Lost(Try<R>),
    /// The call has lost as many exchanges as it may. It wasn't made.
    Busy {
        /// How many exchanges it has lost.
        lost: u8,
        /// The stamp of the state that it found last.
        stamp: u32,
        /// The pass, given back.
        pass: Pass<R>,
    },
}
