//! Receipts, by which one caller tells another what it has seen.
ghost use Rattle.std.specs.Prelude.{◌≡◌, ◌+◌};
ghost use Rattle.word_interlock.specs.Only.{HasOne, HasOne-prop};

use crate::interlock::Interlock;
use crate::pass::Pass;
use crate::rule::{SplitReceipts, View};
use crate::rules::Rules;
use atomic_table::Seat;
use std::marker::Model;

/// Tells what a pass had seen. A caller sends it to another one by any channel; it has no bytes. Who
/// accepts it makes all later calls after everything in it. It is no right to make calls.
#[derive(Drop)]
pub struct Receipt<R: Rules> {
    pub(crate) seat: Seat<(), View<R>>,
    ghost one: { HasOne seat.me.0.receipts } by { HasOne-prop seat.me.0.receipts },
}

impl<R: Rules> Model for Receipt<R> {
    ghost use Rattle.std.specs.Prelude.{◌≡◌, []};
    ghost use Rattle.word_interlock.specs.Only.{only_of};
    ghost use Rattle.word_interlock.specs.Views.{ReceiptView, receipt_with};
    ghost use Rattle.word_interlock.specs.Rule.{receipt_alone};

    ghost Value = { ReceiptView R.State R.Actor R.Event };

    ghost view = { λ r. receipt_with r.seat.table_id (only_of r.seat.me.0.receipts r.one) };

    ghost invariant = { λ r. r.seat.me ≡ (receipt_alone (only_of r.seat.me.0.receipts r.one), []) };
}

impl<R: Rules> Interlock<R> {
    ghost use Rattle.word_interlock.specs.History.{BeginsWith};
    ghost use Rattle.word_interlock.specs.Views.{receipt_of};
    ghost use Rattle.word_interlock.specs.Seen.{HasSeenMore};
    ghost use Rattle.word_interlock.specs.Rule.{receipts_of};
    ghost use Rattle.std.specs.Prelude.{[]};

    // Splits a new seat off one, with receipts of all that this has seen. It stays as it is.
    #[tactic(auto, using(crate::proofs::Keeps::receipts))]
    fn split_receipts(&self, seat: &mut Seat<(), View<R>>) -> Seat<(), View<R>>
        requires same_interlock { seat.old.table_id ≡ self.now.table }
        ensures table { seat.new.table_id ≡ seat.old.table_id }
        ensures new_table { result.table_id ≡ seat.old.table_id }
        ensures same { seat.new.me ≡ seat.old.me }
        ensures receipts { result.me ≡ (receipts_of seat.old.me.0, []) }
    {
        self.table.shared.split_seat::<SplitReceipts>(seat)
    }

    /// A receipt of all that a pass has seen. The pass stays as it is: this counts as no load, and
    /// no call is made.
    ///
    /// The pass was made with this interlock.
    pub fn receipt(&self, pass: &mut Pass<R>) -> Receipt<R>
        requires same_interlock { pass.old.table ≡ self.now.table }
        ensures pass { pass.new ≡ pass.old }
        ensures receipt { result ≡ receipt_of pass.old }
    {
        Receipt {
            seat: self.split_receipts(&mut pass.seat),
        }
    }

    /// A second receipt of the same, for another reader.
    ///
    /// The receipt is of a pass that was made with this interlock.
    pub fn copy_receipt(&self, receipt: &mut Receipt<R>) -> Receipt<R>
        requires same_interlock { receipt.old.table ≡ self.now.table }
        ensures receipt { receipt.new ≡ receipt.old }
        ensures copy { result ≡ receipt.old }
    {
        Receipt {
            seat: self.split_receipts(&mut receipt.seat),
        }
    }

    /// Accepts a receipt: afterwards the pass has seen all that the receipt tells (`told`), and what
    /// it had seen. It has no new event of its actor (`more`), and its moments stay (`moments`). No
    /// call is made: this is one load. A call by `ask_after` needs no such load.
    ///
    /// The pass was made with this interlock, and so was the receipt's.
    pub fn accept(&self, pass: &mut Pass<R>, receipt: Receipt<R>)
        requires same_interlock { (pass.old.table ≡ self.now.table)
            × (receipt.table ≡ self.now.table) }
        ensures more { HasSeenMore (R.book self.now.rules) pass.old pass.new }
        ensures told { BeginsWith pass.new.seen receipt.seen }
        ensures opening { receipt.opening ≡ pass.old.opening }
        ensures moments { pass.new.moments ≡ pass.old.moments }
        ensures one_load { pass.new.loads ≡ pass.old.loads + 1 }
        ensures no_exchange { pass.new.exchanges ≡ pass.old.exchanges }
    {
        let Receipt { seat } = receipt;
        self.join(&mut pass.seat, seat);
        self.sync(&mut pass.seat);
    }
}
