//! What a caller owns.
ghost use Rattle.std.specs.Prelude.{◌≡◌};

use crate::rules::CellRules;
use cell_types::Machine;
use std::marker::Model;

/// The right to make the calls of one machine. A call borrows it exclusively or takes it, so a
/// machine makes one call at a time. It may go from thread to thread.
#[derive(Drop)]
pub struct Pass {
    pub(crate) inner: word_interlock::Pass<CellRules>,
}

impl Model for Pass {
    ghost use Rattle.cell_interlock.specs.Views.{PassView};
    ghost use Rattle.cell_interlock.specs.Engine.{pass_from};

    ghost Value = { PassView };

    ghost view = { λ p. pass_from p.inner };
}

impl Pass {
    /// The machine whose calls it makes.
    pub fn machine(&self) -> Machine
        ensures { result ≡ self.now.machine }
    {
        self.inner.actor()
    }
}

/// The passes of an interlock, each in the field of its machine.
#[derive(Drop)]
pub struct Passes {
    /// The feed belt's.
    pub feed: Pass,
    /// The table's.
    pub table: Pass,
    /// The robot's.
    pub robot: Pass,
    /// The press's.
    pub press: Pass,
    /// The deposit belt's.
    pub deposit: Pass,
    /// The crane's.
    pub crane: Pass,
    /// The watch's.
    pub watch: Pass,
}
