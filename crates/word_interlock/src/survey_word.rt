//! The word at one moment.
ghost use Rattle.std.specs.Prelude.{◌≡◌, ◌+◌};
ghost use Rattle.word_interlock.specs.History.{after};
ghost use Rattle.word_interlock.specs.Seen.{HasSeenMore};

use crate::interlock::Interlock;
use crate::pass::Pass;
use crate::rules::Rules;

impl<R: Rules> Interlock<R> {
    /// The word at one moment: a survey whose state isn't unpacked, for who looks at some bits alone.
    /// It is the word of the state after all that the pass has now seen.
    ///
    /// The pass was made with this interlock.
    pub fn survey_word(&self, pass: &mut Pass<R>) -> u64
        requires same_interlock { pass.old.table ≡ self.now.table }
        ensures more { HasSeenMore (R.book self.now.rules) pass.old pass.new }
        ensures word { result ≡ (R.book self.now.rules).packed
            (after (R.book self.now.rules) pass.new.opening pass.new.seen) }
        ensures moments { pass.new.moments ≡ pass.old.moments }
        ensures one_load { pass.new.loads ≡ pass.old.loads + 1 }
        ensures no_exchange { pass.new.exchanges ≡ pass.old.exchanges }
    {
        self.sync(&mut pass.seat)
    }
}
