//! The rule of the word, and what each kind of step on it shows: `specs/Rule.antt`.
use crate::rules::Rules;
use crate::views::SeatView;
use atomic_table::{Join, Play, Split, TableRule};
use std::marker::{Brand, PhantomData};

/// What a seat of an interlock with these rules knows.
pub type View<R> = SeatView<R, <R as Rules>::State, <R as Rules>::Actor, <R as Rules>::Event>;

/// What an interlock is told when it is made: its rules, and the state that it opens with.
#[derive(Drop)]
pub struct Origin<R, S> {
    /// The rules.
    pub rules: R,
    /// The opening.
    pub opening: S,
}

/// The rule: the word holds the state after one legal history, and every actor has seen a prefix of
/// that history.
pub struct OneHistory<R> {
    rules: PhantomData<R>,
}

impl<R: Rules> TableRule<(), View<R>, Origin<R, R::State>> for OneHistory<R> {
    ghost use Rattle.word_interlock.specs.Rule.{WordTellsHistory, all_views};

    ghost holds = { λ origin table.
        WordTellsHistory (R.book origin.rules) origin.rules origin.opening table };

    ghost first = { λ origin.
        all_views origin.rules origin.opening (R.book origin.rules).actors };
}

/// Says what a step tells.
pub trait Telling<S, V> {
    ghost use Rattle.std.specs.Prelude.{ℕ};
    ghost use Rattle.atomic_table.specs.Table.{Step, Me};

    ghost then: { Step S → Me S V → ℕ → Me S V → Type 0 };
}

// The proof of a call at `Brand` picks `then` itself (as `ghosts-load_for` in `proofs/`), so this isn't read.
impl<S, V> Telling<S, V> for Brand {
    ghost use Rattle.std.specs.Prelude.{⊤};

    ghost then = { λ _ _ _ _. ⊤ };
}

/// A step that tells what its caller picks.
pub struct Tells<A> {
    told: PhantomData<A>,
}

impl<S, V, A: Telling<S, V>> Play<S, V> for Tells<A> {
    ghost then = { A.then };
}

/// A split: the first actor of a seat gets a new seat.
pub struct SplitFirst;

impl<R, S, M, E> Split<SeatView<R, S, M, E>> for SplitFirst {
    ghost use Rattle.word_interlock.specs.Rule.{first_off, others_of};

    ghost left = { others_of };

    ghost right = { first_off };
}

/// A split: a new seat gets receipts of all that a seat has seen, and no actor.
pub struct SplitReceipts;

impl<R, S, M, E> Split<SeatView<R, S, M, E>> for SplitReceipts {
    ghost use Rattle.word_interlock.specs.Rule.{receipts_of};

    ghost left = { λ view. view };

    ghost right = { receipts_of };
}

/// A join: the other seat's actors and receipts are put before those of a seat, which then has both.
pub struct JoinAll;

impl<R, S, M, E> Join<SeatView<R, S, M, E>> for JoinAll {
    ghost use Rattle.word_interlock.specs.Rule.{spent, together};

    ghost both = { together };

    ghost spent = { spent };
}
