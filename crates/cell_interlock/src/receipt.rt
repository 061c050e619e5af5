//! Receipts, by which one caller tells another what it has seen.
ghost use Rattle.std.specs.Prelude.{◌≡◌, ◌+◌};
ghost use Rattle.cell_rules.specs.Seen.{BeginsWith};
ghost use Rattle.cell_interlock.specs.Views.{receipt_of};
ghost use Rattle.cell_interlock.specs.Seen.{HasSeenMore};

use crate::interlock::Interlock;
use crate::pass::Pass;
use crate::rules::CellRules;
use std::marker::Model;

/// Tells what a pass had seen. A caller sends it to another one by any channel; it has no bytes. Who
/// accepts it makes all later calls after everything in it. It is no right to make calls.
#[derive(Drop)]
pub struct Receipt {
    pub(crate) inner: word_interlock::Receipt<CellRules>,
}

impl Model for Receipt {
    ghost use Rattle.cell_interlock.specs.Views.{ReceiptView};
    ghost use Rattle.cell_interlock.specs.Engine.{receipt_from};

    ghost Value = { ReceiptView };

    ghost view = { λ r. receipt_from r.inner };
}

impl Interlock {
    /// A receipt of all that a pass has seen. The pass stays as it is: this counts as no load, and
    /// no call is made.
    ///
    /// The pass was made with this interlock.
    pub fn receipt(&self, pass: &mut Pass) -> Receipt
        requires same_interlock { pass.old.table ≡ self.now.table }
        ensures pass { pass.new ≡ pass.old }
        ensures receipt { result ≡ receipt_of pass.old }
    {
        Receipt {
            inner: self.inner.receipt(&mut pass.inner),
        }
    }

    /// A second receipt of the same, for another reader.
    ///
    /// The receipt is of a pass that was made with this interlock.
    pub fn copy_receipt(&self, receipt: &mut Receipt) -> Receipt
        requires same_interlock { receipt.old.table ≡ self.now.table }
        ensures receipt { receipt.new ≡ receipt.old }
        ensures copy { result ≡ receipt.old }
    {
        Receipt {
            inner: self.inner.copy_receipt(&mut receipt.inner),
        }
    }

    /// Accepts a receipt: afterwards the pass has seen all that the receipt tells (`told`), and what
    /// it had seen. It has no new event of its machine (`more`), and its moments stay (`moments`). No
    /// call is made: this is one load. A call by `ask_after` needs no such load.
    ///
    /// The pass was made with this interlock, and so was the receipt's.
    pub fn accept(&self, pass: &mut Pass, receipt: Receipt)
        requires same_interlock { (pass.old.table ≡ self.now.table)
            × (receipt.table ≡ self.now.table) }
        ensures more { HasSeenMore pass.old pass.new }
        ensures told { BeginsWith pass.new.seen receipt.seen }
        ensures opening { receipt.opening ≡ pass.old.opening }
        ensures moments { pass.new.moments ≡ pass.old.moments }
        ensures one_load { pass.new.loads ≡ pass.old.loads + 1 }
        ensures no_exchange { pass.new.exchanges ≡ pass.old.exchanges }
    {
        self.inner.accept(&mut pass.inner, receipt.inner);
    }
}
