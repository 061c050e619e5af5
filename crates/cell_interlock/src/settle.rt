//! A call that is made again until it is answered.
ghost use Rattle.std.specs.Prelude.{◌≡◌};
ghost use Rattle.cell_interlock.specs.Seen.{IsSettled};
ghost use Rattle.cell_interlock.specs.Settling.{IsAskedUntilAnswered};

use crate::interlock::Interlock;
use crate::pass::Pass;
use cell_types::{Answer, Call};

impl Interlock {
    /// Makes a call, and makes it again while it is Busy. It ends, without waiting, since each Busy
    /// ask has raised the stamp (`laws::busy_is_paid`): it gives the answer and the stamp. `Worn` is an
    /// answer, too; that the call is Done, nobody promises.
    ///
    /// The pass was made with this interlock. Whatever other threads do with the other passes
    /// meanwhile:
    /// - the call was answered once, and all holds that holds of such a call of `ask` (`settled`);
    /// - each ask took one load, and all together at most `tries` exchanges for each; each that was Busy
    ///   left a beginning, and the stamp has risen by at least `tries` for each of these; the last one
    ///   began after all that its pass had seen, and its event came with its last step (`asked`).
    pub fn settle(&self, pass: &mut Pass, call: Call) -> (Answer, u32)
        requires same_interlock { pass.old.table ≡ self.now.table }
        ensures settled { IsSettled pass.old call result.0 result.1 pass.new }
        ensures asked { IsAskedUntilAnswered
            self.now.tries pass.old call result.0 result.1 pass.new }
    {
        self.inner.settle(&mut pass.inner, call)
    }
}
