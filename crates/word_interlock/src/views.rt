//! What contracts know of those who use an interlock. No program makes a value of these.

use std::collections::LinkedList;

/// A moment in the order of the steps on the word.
pub enum Moment<M, E> {
    /// A call of this actor begins, by its load.
    Begins(M),
    /// A call is answered: its event.
    Answered(E),
}

/// What contracts know of one actor: the rules of its interlock, the state that this opened with,
/// the history that it has seen, the part of it that it had seen right after its last load, and the
/// numbers of its loads and exchanges; and the moments so far at the last step of its calls.
pub struct ActorView<R, S, M, E> {
    /// The rules of its interlock.
    pub rules: R,
    /// The state that the interlock opened with.
    pub opening: S,
    /// The actor.
    pub actor: M,
    /// The history that it has seen.
    pub seen: LinkedList<E>,
    /// The part of that history that it had seen right after its last load.
    pub since: LinkedList<E>,
    /// The number of its loads of the word.
    pub loads: u64,
    /// The number of its exchanges, won or lost.
    pub exchanges: u64,
    /// The moments so far at the last step of its calls.
    pub moments: LinkedList<Moment<M, E>>,
}

/// What contracts know of one receipt: the state that its interlock opened with, the history that it
/// tells, and the moments that it tells.
pub struct HistoryView<S, M, E> {
    /// The state that the interlock opened with.
    pub opening: S,
    /// The history that the receipt tells.
    pub seen: LinkedList<E>,
    /// The moments that the receipt tells.
    pub moments: LinkedList<Moment<M, E>>,
}

/// What contracts know of a seat: of each of its actors, and of each of its receipts.
pub struct SeatView<R, S, M, E> {
    /// The actors.
    pub actors: LinkedList<ActorView<R, S, M, E>>,
    /// The receipts.
    pub receipts: LinkedList<HistoryView<S, M, E>>,
}
