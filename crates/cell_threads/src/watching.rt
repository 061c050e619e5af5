//! The watch of six workers: it may look at their interlock, stop the cell and resume it meanwhile.

use crate::worker_result::WorkerResult;
use cell_interlock::{Interlock, Pass};
use std::alloc::Global;

/// The watch of six workers. While they take their turns it may look at their interlock, stop the
/// cell and resume it.
///
/// For a watch of your own make a `PassLine` of the pass, and ask by it, or survey. The line gives
/// back the pass and the journal, and its contract says what is asked here of both.
pub trait Watching: Drop {
    ghost use Rattle.std.specs.Prelude.{◌≡◌, ℕ, [], ⊤};
    ghost use Rattle.cell_types.specs.declared.machine.Machine.TheVariants.{Watch};
    ghost use Rattle.cell_interlock.specs.Views.{PassView};
    ghost use Rattle.cell_threads.specs.Workers.{IsGivenBack};
    ghost use Rattle.cell_threads.specs.declared.worker_result.WorkerResult.{WorkerResult};

    // The watch before, its pass when it begins, the tries of a call, its pass afterwards, and the
    // watch afterwards. The default is anything.
    ghost watches: { Self → PassView → ℕ → PassView → Self → Type 0 } = { λ _ _ _ _ _. ⊤ };

    /// Watches by its pass, in the thread that has started the six, until it has seen enough. The six
    /// are joined after that. Gives back the pass that it got, a journal with an entry for each call
    /// that was settled by it, and itself.
    fn watch(self, alloc: Global, interlock: &Interlock, pass: Pass) -> WorkerResult<Self>
        requires table { pass.table ≡ interlock.now.table }
        requires fresh { pass.seen ≡ [] }
        requires own { pass.machine ≡ Watch }
        ensures given { IsGivenBack pass result.pass result.journal.items }
        ensures watches { watches self pass interlock.now.tries result.pass result.output };
}

/// The watch that does nothing.
#[derive(Clone, Copy, Debug, PartialEq, Eq)]
pub struct NoWatch;

impl Watching for NoWatch {
    ghost use Rattle.std.specs.Prelude.{◌≡◌};

    ghost watches = { λ _ got _ kept _. kept ≡ got };

    fn watch(self, alloc: Global, _interlock: &Interlock, pass: Pass) -> WorkerResult<NoWatch> {
        WorkerResult {
            pass,
            journal: Vec::new(alloc),
            output: self,
        }
    }
}
