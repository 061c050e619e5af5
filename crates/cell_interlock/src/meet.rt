//! Passes that meet.
ghost use Rattle.std.specs.Prelude.{◌≡◌, ◌+◌};
ghost use Rattle.cell_interlock.specs.Seen.{HasSeenMore};

use crate::interlock::Interlock;
use crate::pass::Pass;

impl Interlock {
    /// Lets two passes meet: afterwards both have seen the same history, which begins with what
    /// each had seen. No call is made, and no memory is allocated.
    ///
    /// Both passes were made with this interlock. They come back in their order, each still its
    /// machine's, and have seen no new event of their own machine (`left`, `right`). Each counts
    /// the one load of the meeting (`left_load`, `right_load`), and no exchange (`left_exchanges`,
    /// `right_exchanges`).
    pub fn meet(&self, left: Pass, right: Pass) -> (Pass, Pass)
        requires same_interlock { (left.table ≡ self.now.table) × (right.table ≡ self.now.table) }
        ensures left { HasSeenMore left result.0 }
        ensures right { HasSeenMore right result.1 }
        ensures same { result.0.seen ≡ result.1.seen }
        ensures left_moments { result.0.moments ≡ left.moments }
        ensures right_moments { result.1.moments ≡ right.moments }
        ensures left_load { result.0.loads ≡ left.loads + 1 }
        ensures right_load { result.1.loads ≡ right.loads + 1 }
        ensures left_exchanges { result.0.exchanges ≡ left.exchanges }
        ensures right_exchanges { result.1.exchanges ≡ right.exchanges }
    {
        let (left, right) = self.inner.meet(left.inner, right.inner);
        (Pass { inner: left }, Pass { inner: right })
    }
}
