//! The whole state at one moment.
ghost use Rattle.std.specs.Prelude.{◌≡◌, ◌+◌};
ghost use Rattle.cell_rules.specs.History.{after};
ghost use Rattle.cell_interlock.specs.Seen.{HasSeenMore};

use crate::interlock::Interlock;
use crate::pass::Pass;
use cell_rules::State;

impl Interlock {
    /// The whole state at one moment. It is the state after all that the pass has now seen. That
    /// begins with what the pass had seen, and has no new event of its own machine. No call is
    /// made, and no memory is allocated: this is one load.
    ///
    /// The pass was made with this interlock.
    pub fn survey(&self, pass: &mut Pass) -> State
        requires same_interlock { pass.old.table ≡ self.now.table }
        ensures more { HasSeenMore pass.old pass.new }
        ensures state { result ≡ after pass.new.opening pass.new.seen }
        ensures moments { pass.new.moments ≡ pass.old.moments }
        ensures one_load { pass.new.loads ≡ pass.old.loads + 1 }
        ensures no_exchange { pass.new.exchanges ≡ pass.old.exchanges }
    {
        self.inner.survey(&mut pass.inner)
    }
}
