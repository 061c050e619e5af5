//! The end of an interlock.
ghost use Rattle.std.specs.Prelude.{◌≡◌};
ghost use Rattle.word_interlock.specs.Bunches.{IsEnd};
ghost use Rattle.word_interlock.specs.Run.{IsRun};

use crate::interlock::Interlock;
use crate::passes::Passes;
use crate::rules::Rules;

impl<R: Rules + Drop> Interlock<R> {
    /// Ends an interlock, and gives the state that it leaves. It is the one after one legal history,
    /// which begins with what each of these passes has seen, and has no other event of that pass's
    /// actor (`end`). There is one list of moments, with each pass's own, whose events are such a
    /// history, each after the beginning of its call (`run`; what follows for calls that don't overlap:
    /// `laws::runs_keep_order`). If all passes have come back, nobody calls any more.
    ///
    /// The passes were made with this interlock.
    pub fn close(self, passes: Passes<R>) -> R::State
        requires same_interlock { passes.table ≡ self.table }
        ensures end { IsEnd (R.book self.rules) self.opening passes.actors result }
        ensures run { IsRun (R.book self.rules) self.opening passes.actors result }
    {
        let Passes { seat } = passes;
        let Interlock { table, rules, .. } = self;
        let closed = table.close_with(seat);
        let word = closed.word(0);
        closed.free();
        rules.unpack(word)
    }
}
