//! Laws of the calls' own definitions: functions that do nothing. A function's contract is its law.
ghost use Rattle.cell_interlock.specs.Book.{cell_book};
ghost use Rattle.cell_interlock.specs.One.{HistoryIsOne};
ghost use Rattle.cell_interlock.specs.Order.{ReceiptsOrderCalls, ReceiptsRaiseStamps};
ghost use Rattle.cell_interlock.specs.OutcomeExamples.{OutcomeExamples};
ghost use Rattle.cell_interlock.specs.Settling.{BusyIsPaid};
ghost use Rattle.cell_interlock.specs.declared.rules.CellRules.{CellRules};
ghost use Rattle.word_interlock.specs.Run.{CallsFollowReceipts, RunsKeepOrder};

/// Examples of what a call may and may not leave of its pass: a whole call, its single steps, a
/// meeting, calls in order, and a line. And what holds of all passes, ends and calls one after another.
pub fn outcomes_are_known()
    ensures { OutcomeExamples }
{}

/// A call that is made after a receipt was accepted comes after each answered call that the receipt
/// tells, whatever else happens between these steps (`order`): its caller, or one who knew of it, took
/// the receipt. It gets no lower stamp, and a higher one if it is Done (`stamps`).
pub fn receipts_order_calls()
    ensures order { ReceiptsOrderCalls }
    ensures stamps { ReceiptsRaiseStamps }
{}

/// A call that is asked after a receipt (`Interlock::ask_after`) begins after the event of each
/// answered call that the receipt tells.
pub fn calls_follow_receipts()
    ensures { CallsFollowReceipts CellRules cell_book }
{}

/// In a run (`Interlock::close`) each event is that of one call, which began before it. Of two calls
/// that don't overlap, the earlier one stands first in the history.
pub fn runs_keep_order()
    ensures { RunsKeepOrder cell_book }
{}

/// At every time the caller who made the last event of the rule's history has seen it whole. So it is
/// one history, which grows as what the seven have seen; likewise the moments. By the rule what
/// receipts tell comes before what later loads add to both.
pub fn history_is_one()
    ensures { HistoryIsOne }
{}

/// However many calls a pass makes: as often as one was Busy, other machines made `tries` changes,
/// and raised the stamp by as many. So over one interlock the Busy answers of a machine times
/// `tries` are at most 1,048,575.
pub fn busy_is_paid()
    ensures { BusyIsPaid }
{}
