//! A call that isn't made yet, and the results of its steps.
use crate::pass::Pass;
use crate::rules::CellRules;
use cell_types::Answer;
use std::marker::Model;

/// A call that would be Done, but isn't made yet. It owns its pass, so its machine can't make
/// another call meanwhile.
#[derive(Drop)]
pub struct Try {
    pub(crate) inner: word_interlock::Try<CellRules>,
}

impl Model for Try {
    ghost use Rattle.cell_interlock.specs.Views.{TryView};
    ghost use Rattle.cell_interlock.specs.Engine.{try_from};

    ghost Value = { TryView };

    ghost view = { λ t. try_from t.inner };
}

/// The result of a look.
#[derive(Drop)]
pub enum Look {
    /// The call was refused, or was an inquiry that was answered. The number is the stamp of the
    /// state that was found.
    Settled(Answer, u32, Pass),
    /// The call would be Done.
    Pending(Try),
}

/// The result of an attempt.
#[derive(Drop)]
pub enum Tried {
    /// The call was answered. The number is the stamp of the state at its point, or after the call
    /// if it is Done.
    Settled(Answer, u32, Pass),
    /// Another machine had changed the word. The call may be attempted again.
    Lost(Try),
    /// The call has lost as many exchanges as it may. It wasn't made.
    Busy {
        /// How many exchanges it has lost.
        lost: u8,
        /// The stamp of the state that it found last.
        stamp: u32,
        /// The pass, given back.
        pass: Pass,
    },
}
