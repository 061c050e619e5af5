//! The whole state at one moment.
ghost use Rattle.std.specs.Prelude.{◌≡◌, ◌+◌};
ghost use Rattle.word_interlock.specs.History.{after};
ghost use Rattle.word_interlock.specs.Seen.{HasSeenMore};

use crate::interlock::Interlock;
use crate::pass::Pass;
use crate::rules::Rules;

impl<R: Rules> Interlock<R> {
    /// The whole state at one moment. It is the state after all that the pass has now seen. That
    /// begins with what the pass had seen, and has no new event of its own actor. The pass's moments
    /// stay (`moments`). No call is made, and no memory is allocated: this is one load.
    ///
    /// The pass was made with this interlock.
    pub fn survey(&self, pass: &mut Pass<R>) -> R::State
        requires same_interlock { pass.old.table ≡ self.now.table }
        ensures more { HasSeenMore (R.book self.now.rules) pass.old pass.new }
        ensures state { result ≡ after (R.book self.now.rules) pass.new.opening pass.new.seen }
        ensures moments { pass.new.moments ≡ pass.old.moments }
        ensures one_load { pass.new.loads ≡ pass.old.loads + 1 }
        ensures no_exchange { pass.new.exchanges ≡ pass.old.exchanges }
    {
        let word = self.sync(&mut pass.seat);
        self.rules.unpack(word)
    }
}
