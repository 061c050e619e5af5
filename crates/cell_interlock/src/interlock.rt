//! The word that the machines share.

use crate::rules::CellRules;
use std::marker::Model;

/// The interlock: one atomic word. A call is one load of it and at most `tries` exchanges on it.
/// Threads share it by reference, each with its own passes.
#[derive(Drop)]
pub struct Interlock {
    pub(crate) inner: word_interlock::Interlock<CellRules>,
}

impl Model for Interlock {
    ghost use Rattle.cell_interlock.specs.Views.{InterlockView};
    ghost use Rattle.cell_interlock.specs.Engine.{interlock_from};

    ghost Value = { InterlockView };

    ghost view = { λ i. interlock_from i.inner };
}
