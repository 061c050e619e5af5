//! A call that is made again until it is answered.
ghost use Rattle.std.specs.Prelude.{◌≡◌};
ghost use Rattle.word_interlock.specs.Seen.{IsSettled};
ghost use Rattle.word_interlock.specs.Settling.{IsAskedUntilAnswered};

use crate::interlock::Interlock;
use crate::pass::Pass;
use crate::reply::Reply;
use crate::rules::Rules;

// A stamp is a u32, and each Busy call has raised it by at least one.
const STAMPS: u64 = 1 << 32;

impl<R: Rules> Interlock<R> {
    /// Makes a call, and makes it again while it is Busy. It ends, without waiting, since each Busy
    /// ask has raised the stamp (`laws::busy_is_paid`): it gives the answer and the stamp.
    ///
    /// The pass was made with this interlock. Whatever other threads do with the other passes
    /// meanwhile:
    /// - the call was answered once, and all holds that holds of such a call of `ask` (`settled`);
    /// - each ask took one load, and all together at most `tries` exchanges for each; each that was Busy
    ///   left a beginning, and the stamp has risen by at least `tries` for each of these; the last one
    ///   began after all that its pass had seen, and its event came with its last step (`asked`).
    pub fn settle(&self, pass: &mut Pass<R>, call: R::Call) -> (R::Answer, u32)
        requires same_interlock { pass.old.table ≡ self.now.table }
        ensures settled { IsSettled (R.book self.now.rules)
            pass.old call result.0 result.1 pass.new }
        ensures asked { IsAskedUntilAnswered (R.book self.now.rules)
            self.now.tries pass.old call result.0 result.1 pass.new }
    {
        // Reading the limit shows that it isn't 0.
        let _ = &self.tries;
        for _busy in 0..STAMPS {
            match self.ask(pass, call) {
                Reply::Settled(answer, stamp) => return (answer, stamp),
                Reply::Busy { .. } => {}
            }
        }
        unreachable!()
    }
}
