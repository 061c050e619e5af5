//! What a call gives back to its caller: an answer and a stamp, or that it wasn't made.

use crate::answer::Answer;

/// What comes back from a call of the interlock.
///
/// Each reply has a stamp: that of the interlock's state at the point of the call.
#[derive(Clone, Copy, Debug, PartialEq, Eq)]
pub enum Reply {
    /// The call was answered. After `Answer::Done` the stamp counts this change too.
    Settled(Answer, u32),
    /// The call was not made, and nothing of this machine has changed.
    Busy {
        /// How many tries failed; at a bench always 1.
        lost: u8,
        /// The stamp of the state last found.
        stamp: u32,
    },
}
