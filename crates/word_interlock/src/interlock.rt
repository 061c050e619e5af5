//! The word that the actors share.
ghost use Rattle.std.specs.Prelude.{◌≡◌};

use crate::rule::{OneHistory, Origin, View};
use crate::rules::Rules;
use atomic_table::Table;
use std::alloc::Global;
use std::marker::Model;

/// The interlock: one atomic word. A call is one load of it and at most `tries` exchanges on it.
/// Threads share it by reference, each with its own passes.
#[derive(Drop)]
pub struct Interlock<R: Rules> {
    pub(crate) table: Table<(), View<R>, Origin<R, R::State>, OneHistory<R>, Global>,
    pub(crate) rules: R,
    pub(crate) tries: u8,
}

impl<R: Rules> Model for Interlock<R> {
    ghost use Rattle.std.specs.Prelude.{◌≡◌, ◌≤◌};
    ghost use Rattle.word_interlock.specs.Views.{InterlockView};

    ghost Value = { InterlockView R R.State };

    ghost view = { λ i. record {
      table = i.table.shared.table_id;
      rules = i.table.shared.key.rules;
      opening = i.table.shared.key.opening;
      tries = i.tries;
    } };

    ghost invariant = { λ i. (i.table.shared.table_id.words ≡ 1)
        × (i.table.shared.table_id.slots ≡ 0) × (i.rules ≡ i.table.shared.key.rules)
        × (1 ≤ i.tries) × (i.tries ≤ 64) };
}
