//! Laws of any rules: functions that do nothing. A function's contract is its law.
ghost use Rattle.std.specs.Prelude.{ℕ};
ghost use Rattle.word_interlock.specs.EachLaws.{EachLaws};
ghost use Rattle.word_interlock.specs.History.{IsLawful};
ghost use Rattle.word_interlock.specs.HistoryExamples.{HistoryExamples};
ghost use Rattle.word_interlock.specs.MomentExamples.{MomentExamples};
ghost use Rattle.word_interlock.specs.One.{HistoryIsSeen, MomentsAreShown};
ghost use Rattle.word_interlock.specs.Order.{ReceiptsOrderCalls, ReceiptsRaiseStamps};
ghost use Rattle.word_interlock.specs.OrderExamples.{OrderExamples, SeatExamples};
ghost use Rattle.word_interlock.specs.Receipts.{ReceiptsComeFirst};
ghost use Rattle.word_interlock.specs.Run.{AnsweredCallsAreOver, CallsFollowReceipts};
ghost use Rattle.word_interlock.specs.Run.{RunsAreEnds, RunsKeepOrder};
ghost use Rattle.word_interlock.specs.Settling.{BusyIsPaid};

use crate::pass::Pass;
use crate::rules::Rules;

/// A call that is made after a receipt was accepted comes after each answered call that the receipt
/// tells, whatever else happens between these steps (`order`): its caller, or one who knew of it, took
/// the receipt. It gets no lower stamp, and a higher one if it is done (`stamps`).
pub fn receipts_order_calls<R: Rules>(rules: &R)
    ensures order { ReceiptsOrderCalls (R.book rules.now) }
    ensures stamps { ReceiptsRaiseStamps (R.book rules.now) }
{
    let _ = rules;
}

/// What a pass has seen is a legal history from a sound opening.
pub fn passes_see_lawful_histories<R: Rules>(pass: &Pass<R>)
    ensures { IsLawful (R.book pass.now.rules) pass.now.opening pass.now.seen }
{
    // Reading the seat shows it.
    let _ = &pass.seat;
}

/// A call that is asked after a receipt (`Interlock::ask_after`) begins after the event of each
/// answered call that the receipt tells. So does one whose caller had accepted the receipt.
pub fn calls_follow_receipts<R: Rules>(rules: &R)
    ensures { CallsFollowReceipts R (R.book rules.now) }
{
    let _ = rules;
}

/// By the rule of the word, what receipts tell comes before what later loads add: the history, and
/// the moments.
pub fn receipts_come_first<R: Rules>(rules: &R)
    ensures { ReceiptsComeFirst (R.book rules.now) rules.now (Unit {0}) }
{
    let _ = rules;
}

/// In a run (`Interlock::close`) each event is that of one call, which began before it. Of two calls
/// that don't overlap, the earlier one stands first in the history.
pub fn runs_keep_order<R: Rules>(rules: &R)
    ensures { RunsKeepOrder (R.book rules.now) }
{
    let _ = rules;
}

/// The state that a run ends with is the one after its legal history.
pub fn runs_are_ends<R: Rules>(rules: &R)
    ensures { RunsAreEnds R (R.book rules.now) }
{
    let _ = rules;
}

/// After a call was answered, its actor has no call that has begun, so no exchange is allowed to it
/// before its next load.
pub fn answered_calls_are_over<R: Rules>(rules: &R)
    ensures { AnsweredCallsAreOver R (R.book rules.now) }
{
    let _ = rules;
}

/// Lists of moments, and calls in them, that are in order, and others that aren't.
pub fn moments_are_known<R: Rules>(rules: &R)
    ensures { MomentExamples R (R.book rules.now) }
{
    let _ = rules;
}

/// Cases of calls one after another and of calls that overlap, of who has seen and was shown what,
/// of a call that was Busy once, and of stamps after one that was told (`order`). Cases of seats, of
/// their passes and receipts, of what replies tell and of what steps show (`seats`). Cases of
/// histories, and of calls that were Busy (`histories`). What is said of several passes or receipts
/// is said of each of them, and calls of a pass add up (`each`).
pub fn order_is_known<R: Rules>(rules: &R)
    ensures order { OrderExamples R (R.book rules.now) }
    ensures seats { SeatExamples R (R.book rules.now) }
    ensures histories { HistoryExamples R (R.book rules.now) }
    ensures each { EachLaws R.book rules.now }
{
    let _ = rules;
}

/// At every time the actor who made the last event of the rule's history has seen it whole. So it is
/// one history, which grows as what they have seen.
pub fn history_is_seen<R: Rules>(rules: &R)
    ensures { HistoryIsSeen (R.book rules.now) rules.now (Unit {0}) }
{
    let _ = rules;
}

/// At every time the steps of the actor who made the rule's last moment have shown it all of them. So
/// they are one list, which grows by the actors' own steps.
pub fn moments_are_shown<R: Rules>(rules: &R)
    ensures { MomentsAreShown (R.book rules.now) rules.now (Unit {0}) }
{
    let _ = rules;
}

/// However many calls a pass makes: as often as one was Busy, `tries` changes of other actors were
/// made, and the stamp was raised by as many.
pub fn busy_is_paid<R: Rules>(rules: &R)
    ensures { (tries : ℕ) → BusyIsPaid R (R.book rules.now) tries }
{
    let _ = rules;
}
