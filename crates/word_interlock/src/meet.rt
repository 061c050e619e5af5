//! Passes that meet.
ghost use Rattle.std.specs.Prelude.{◌≡◌, ◌+◌, ℕ, []};
ghost use Rattle.word_interlock.specs.Rule.{together, others_of, first_off, actor_alone, after_load, WordMoment};
ghost use Rattle.word_interlock.specs.Seen.{HasSeenMore};

use crate::interlock::Interlock;
use crate::pass::Pass;
use crate::rule::{JoinAll, SplitFirst, View};
use crate::rules::Rules;
use atomic_table::Seat;

impl<R: Rules> Interlock<R> {
    /// Joins the other seat's actors and receipts to a seat.
    #[tactic(auto, using(crate::proofs::Keeps::joins))]
    pub(crate) fn join(&self, seat: &mut Seat<(), View<R>>, other: Seat<(), View<R>>)
        requires same_interlock { (seat.old.table_id ≡ self.now.table)
            × (other.table_id ≡ self.now.table) }
        requires no_slot { other.me.1 ≡ [] }
        ensures table { seat.new.table_id ≡ seat.old.table_id }
        ensures both { seat.new.me ≡ (together seat.old.me.0 other.me.0, seat.old.me.1) }
    {
        self.table.shared.join_seat::<JoinAll>(seat, other);
    }

    /// Splits the first actor off a seat, and gives it a new one.
    #[tactic(auto, using(crate::proofs::Keeps::splits))]
    pub(crate) fn split_first(&self, seat: &mut Seat<(), View<R>>) -> Seat<(), View<R>>
        requires same_interlock { seat.old.table_id ≡ self.now.table }
        ensures table { seat.new.table_id ≡ seat.old.table_id }
        ensures first_table { result.table_id ≡ seat.old.table_id }
        ensures others { seat.new.me ≡ (others_of seat.old.me.0, seat.old.me.1) }
        ensures first { result.me ≡ (first_off seat.old.me.0, []) }
    {
        self.table.shared.split_seat::<SplitFirst>(seat)
    }

    // Two seats meet. If each has one actor alone, then both actors have seen the history so far by
    // one load, and each is alone on its seat again: the first on the first seat.
    fn meet_seats(
        &self,
        seat: &mut Seat<(), View<R>>,
        other: Seat<(), View<R>>,
    ) -> Seat<(), View<R>>
        requires same_interlock { (seat.old.table_id ≡ self.now.table)
            × (other.table_id ≡ self.now.table) }
        requires no_slot { (seat.old.me.1 ≡ []) × (other.me.1 ≡ []) }
        ensures tables { (seat.new.table_id ≡ seat.old.table_id)
            × (result.table_id ≡ seat.old.table_id) }
        ensures met { (p : _) (q : _) → seat.old.me ≡ (actor_alone p, [])
            → other.me ≡ (actor_alone q, [])
            → (word : ℕ) × (history : _)
            × WordMoment (R.book self.now.rules) self.now.rules p word history
            × WordMoment (R.book self.now.rules) self.now.rules q word history
            × (seat.new.me ≡ (actor_alone (after_load p history), []))
            × (result.me ≡ (actor_alone (after_load q history), [])) }
    {
        self.join(seat, other);
        self.sync(seat);
        self.split_first(seat)
    }

    /// Lets two passes meet: afterwards both have seen the same history, which begins with what
    /// each had seen. No call is made, and no memory is allocated.
    ///
    /// Both passes were made with this interlock. They come back in their order, each still its
    /// actor's, and have seen no new event of their own actor (`left`, `right`). Each counts the one
    /// load of the meeting (`left_load`, `right_load`), and no exchange (`left_exchanges`,
    /// `right_exchanges`). Their moments stay (`left_moments`, `right_moments`).
    pub fn meet(&self, left: Pass<R>, right: Pass<R>) -> (Pass<R>, Pass<R>)
        requires same_interlock { (left.table ≡ self.now.table)
            × (right.table ≡ self.now.table) }
        ensures left { HasSeenMore (R.book self.now.rules) left result.0 }
        ensures right { HasSeenMore (R.book self.now.rules) right result.1 }
        ensures same { result.0.seen ≡ result.1.seen }
        ensures left_moments { result.0.moments ≡ left.moments }
        ensures right_moments { result.1.moments ≡ right.moments }
        ensures left_load { result.0.loads ≡ left.loads + 1 }
        ensures right_load { result.1.loads ≡ right.loads + 1 }
        ensures left_exchanges { result.0.exchanges ≡ left.exchanges }
        ensures right_exchanges { result.1.exchanges ≡ right.exchanges }
    {
        let left_actor = left.actor();
        let right_actor = right.actor();
        let mut left_seat = left.into_seat();
        let right_seat = self.meet_seats(&mut left_seat, right.into_seat());
        (
            Pass::of(left_actor, left_seat),
            Pass::of(right_actor, right_seat),
        )
    }
}
