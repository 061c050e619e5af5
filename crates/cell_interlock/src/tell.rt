//! Two calls in order, by a receipt.
ghost use Rattle.std.specs.Prelude.{◌≡◌, ◌+◌, ◌≤◌, [], ◌∷◌, Ok};
ghost use Rattle.cell_rules.specs.Laws.{LawfulThroughout};
ghost use Rattle.cell_rules.specs.Seen.{event, SeenAfter};
ghost use Rattle.cell_interlock.specs.Calls.{IfSettled, IfBusy, IsStampedAfter, stamp_in};
ghost use Rattle.cell_interlock.specs.Seen.{IsSamePass, HasChanges, IsOvertaken};
ghost use Rattle.cell_interlock.specs.Views.{receipt_of};
ghost use Rattle.cell_interlock.specs.Timing.{IsTimed, told_by};
ghost use Rattle.cell_interlock.specs.Order.{StandsBefore};
ghost use Rattle.word_interlock.specs.Timing.{BeginsAfter};

use crate::calls::reply_of;
use crate::interlock::Interlock;
use crate::pass::Pass;
use cell_types::{Call, Reply};

impl Interlock {
    /// Two calls in order, by a receipt: the first caller makes a call and takes a receipt; the
    /// second makes its own call after that. If both calls are answered, the first one's event
    /// stands before the second one's in what the second caller then sees (`order`). The second
    /// gets no lower stamp than the first, and a higher one if its call is Done (`stamps`). If the
    /// first is answered, the second begins after its event, whatever comes back from it
    /// (`began_after`).
    ///
    /// Each is a call as by `ask`. It is Busy only if it would be Done, and other machines have made
    /// at least `tries` changes that its pass hadn't seen before (`first_busy`, `second_busy`), all
    /// after its load (`since`); it has then lost each exchange that it made (`all_lost`). It makes one
    /// load (`one_load`) and at most `tries` exchanges (`few_exchanges`), the second one after all that
    /// the first caller had then seen (`real_time`).
    ///
    /// Both passes were made with this interlock. Between these three steps any others may come, and
    /// the receipt may go from thread to thread: `laws::receipts_order_calls`,
    /// `laws::calls_follow_receipts`.
    pub fn tell(
        &self,
        first: &mut Pass,
        call: Call,
        second: &mut Pass,
        next: Call,
    ) -> (Reply, Reply)
        requires same_interlock { (first.old.table ≡ self.now.table)
            × (second.old.table ≡ self.now.table) }
        ensures passes { IsSamePass first.old first.new × IsSamePass second.old second.new }
        ensures lawful { LawfulThroughout second.old.opening second.new.seen }
        ensures first { SeenAfter first.old.machine call (Ok result.0)
            first.old.opening first.old.seen first.new.seen }
        ensures second { SeenAfter second.old.machine next (Ok result.1)
            second.old.opening second.old.seen second.new.seen }
        ensures order { IfSettled result.0 (λ a. IfSettled result.1 (λ b.
            StandsBefore first.old.seen (event first.old.machine call a)
            (event second.old.machine next b) second.new.seen)) }
        ensures stamps { IsStampedAfter (stamp_in result.0) result.1 }
        ensures began_after { IfSettled result.0 (λ a. BeginsAfter
            (event first.old.machine call a) second.old.machine second.new.moments) }
        ensures first_lawful { LawfulThroughout first.old.opening first.new.seen }
        ensures first_busy { IfBusy result.0 (λ lost.
            IsOvertaken first.old first.old.seen call self.now.tries lost first.new) }
        ensures second_busy { IfBusy result.1 (λ lost.
            IsOvertaken second.old second.old.seen next self.now.tries lost second.new) }
        ensures since { IfBusy result.0 (HasChanges first.old.machine first.new.since first.new.seen)
            × IfBusy result.1 (HasChanges second.old.machine second.new.since second.new.seen) }
        ensures one_load { (first.new.loads ≡ first.old.loads + 1)
            × (second.new.loads ≡ second.old.loads + 1) }
        ensures few_exchanges { (first.new.exchanges ≤ first.old.exchanges + self.now.tries)
            × (second.new.exchanges ≤ second.old.exchanges + self.now.tries) }
        ensures all_lost { IfBusy result.0 (λ n. first.new.exchanges ≡ first.old.exchanges + n)
            × IfBusy result.1 (λ n. second.new.exchanges ≡ second.old.exchanges + n) }
        ensures real_time { IsTimed [] first.old call result.0 first.new
            × IsTimed (told_by (receipt_of first.new) ∷ [])
            second.old next result.1 second.new }
    {
        let (answer, later) = self
            .inner
            .tell(&mut first.inner, call, &mut second.inner, next);
        (reply_of(answer), reply_of(later))
    }
}
