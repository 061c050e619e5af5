//! What comes back from a call.

/// What comes back from a call.
#[derive(Clone, Copy, PartialEq, Eq)]
pub enum Reply<A> {
    /// The call was answered. The number is the stamp of the state at its point, or after the call
    /// if it is done.
    Settled(A, u32),
    /// The call wasn't made: it would be done, but others changed the word each time.
    Busy {
        /// How many exchanges it has lost.
        lost: u8,
        /// The stamp of the state that it found last.
        stamp: u32,
    },
}
