//! How many turns a machine had, and how its calls ended.
ghost use Rattle.std.specs.Prelude.{◌≡◌};
ghost use Rattle.cell_notes.specs.Notes.{no_counts, counts_with, HasRoom};

use crate::turn_call::TurnCall;
use cell_types::{Answer, Reply};

/// A machine's turns and calls in a run, counted.
#[derive(Clone, Copy, Debug, PartialEq, Eq, Default)]
pub struct Counts {
    /// The turns of its controller, including one that ends in an error.
    pub turns: u64,
    /// The calls that were answered Done.
    pub done: u64,
    /// The inquiries that were answered.
    pub read: u64,
    /// The calls that were refused, for any cause.
    pub refused: u64,
    /// The calls that found the interlock busy.
    pub busy: u64,
}

impl Counts {
    /// The counts of a machine without a turn: all 0.
    pub fn none() -> Counts
        ensures { result ≡ no_counts }
    {
        Counts {
            turns: 0,
            done: 0,
            read: 0,
            refused: 0,
            busy: 0,
        }
    }

    /// The counts after another turn, in which this was asked.
    pub fn with(self, asked: TurnCall) -> Counts
        requires { HasRoom self }
        ensures { result ≡ counts_with self asked }
    {
        let mut counts = self;
        counts.add(asked);
        counts
    }

    // Counts another turn, in which this was asked. In place, so that no turn copies five counts.
    #[inline(always)]
    pub(crate) fn add(&mut self, asked: TurnCall)
        requires { HasRoom self.old }
        ensures { self.new ≡ counts_with self.old asked }
    {
        self.turns += 1;
        match asked {
            Some((_, Ok(Reply::Settled(Answer::Done, _)))) => self.done += 1,
            Some((_, Ok(Reply::Settled(Answer::Shown { .. }, _)))) => self.read += 1,
            Some((_, Ok(Reply::Settled(Answer::Refused(_), _)))) => self.refused += 1,
            Some((_, Ok(Reply::Busy { .. }))) => self.busy += 1,
            Some((_, Err(_))) | None => {}
        }
    }
}
