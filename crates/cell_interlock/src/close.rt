//! The end of an interlock.
ghost use Rattle.cell_interlock.specs.Ends.{ArePassesOf, IsEnd};
ghost use Rattle.cell_interlock.specs.Timing.{IsRun};

use crate::interlock::Interlock;
use crate::pass::Passes;
use cell_rules::State;
use word_interlock as engine;

/// What an interlock leaves.
#[derive(Clone, Copy)]
pub struct Ended {
    /// The state after all calls of the seven passes.
    pub state: State,
}

impl Interlock {
    /// Ends an interlock. Its seven passes have come back, so nobody calls any more. The state that
    /// it leaves is the one after one legal history, which begins with what each pass has seen, and
    /// has no other event of that pass's machine (`end`). There is one list of moments, with each
    /// pass's own, whose events are such a history, each after the beginning of its call (`run`; what
    /// follows for calls that don't overlap: `laws::runs_keep_order`).
    ///
    /// The passes were made with this interlock, and each is in its machine's field.
    pub fn close(self, passes: Passes) -> Ended
        requires own { ArePassesOf self passes }
        ensures end { IsEnd self.opening passes result.state }
        ensures run { IsRun self.opening passes result.state }
    {
        let Interlock { inner } = self;
        let Passes {
            feed,
            table,
            robot,
            press,
            deposit,
            crane,
            watch,
        } = passes;
        let mut all = engine::Passes::of(watch.inner);
        inner.give_back(&mut all, crane.inner);
        inner.give_back(&mut all, deposit.inner);
        inner.give_back(&mut all, press.inner);
        inner.give_back(&mut all, robot.inner);
        inner.give_back(&mut all, table.inner);
        inner.give_back(&mut all, feed.inner);
        Ended {
            state: inner.close(all),
        }
    }
}
