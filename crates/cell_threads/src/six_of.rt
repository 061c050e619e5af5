//! A value for each of the six machines, and what six workers gave back.
ghost use Rattle.std.specs.Prelude.{◌≡◌, IfSome};
ghost use Rattle.cell_types.specs.declared.machine.Machine.{Machine};
ghost use Rattle.cell_types.specs.Journals.{journal_of};
ghost use Rattle.cell_threads.specs.Promises.{six_of};
ghost use Rattle.cell_threads.specs.Results.{AreAllThere, outputs_in, passes_in};
ghost use Rattle.cell_threads.specs.Watching.{journal_with};

use crate::worker_result::WorkerResult;
use cell_interlock::{Pass, Passes};
use cell_types::{Entry, Journals};

/// A value for each of the six machines.
#[derive(Drop)]
pub struct SixOf<A, B, C, D, E, F> {
    /// The feed belt's.
    pub feed: A,
    /// The table's.
    pub table: B,
    /// The robot's.
    pub robot: C,
    /// The press's.
    pub press: D,
    /// The deposit belt's.
    pub deposit: E,
    /// The crane's.
    pub crane: F,
}

/// The pass of each.
pub(crate) type SixPasses = SixOf<Pass, Pass, Pass, Pass, Pass, Pass>;

/// What each worker gave back.
pub(crate) type SixResults<A, B, C, D, E, F> = SixOf<
    WorkerResult<A>,
    WorkerResult<B>,
    WorkerResult<C>,
    WorkerResult<D>,
    WorkerResult<E>,
    WorkerResult<F>,
>;

/// The passes of the six, and the watch's.
pub(crate) fn six_and_watch(passes: Passes) -> (SixPasses, Pass)
    ensures six { result.0 ≡ six_of passes }
    ensures watch { result.1 ≡ passes.watch }
{
    let Passes {
        feed,
        table,
        robot,
        press,
        deposit,
        crane,
        watch,
    } = passes;
    let six = SixOf {
        feed,
        table,
        robot,
        press,
        deposit,
        crane,
    };
    (six, watch)
}

/// All six, if none is missing.
pub(crate) fn all_six<A, B, C, D, E, F>(
    each: SixOf<Option<A>, Option<B>, Option<C>, Option<D>, Option<E>, Option<F>>,
) -> Option<SixOf<A, B, C, D, E, F>>
where
    A: Drop,
    B: Drop,
    C: Drop,
    D: Drop,
    E: Drop,
    F: Drop,
    ensures { IfSome result (AreAllThere each) }
{
    let belts = each.feed.zip(each.deposit);
    let tables = each.table.zip(each.press);
    let arms = each.robot.zip(each.crane);
    let (((feed, deposit), (table, press)), (robot, crane)) = belts.zip(tables).zip(arms)?;
    Some(SixOf {
        feed,
        table,
        robot,
        press,
        deposit,
        crane,
    })
}

/// Each machine's journal and pass, with the watch's, and what else its worker gave.
pub(crate) fn into_parts<A, B, C, D, E, F>(
    results: SixResults<A, B, C, D, E, F>,
    watch: Pass,
    journal: Vec<Entry>,
) -> (Journals, Passes, SixOf<A, B, C, D, E, F>)
    ensures journals { (m : Machine) → journal_of result.0 m ≡ journal_with results journal.items m }
    ensures passes { result.1 ≡ passes_in results watch }
    ensures outputs { result.2 ≡ outputs_in results }
{
    let SixOf {
        feed,
        table,
        robot,
        press,
        deposit,
        crane,
    } = results;
    let journals = Journals {
        feed: feed.journal,
        table: table.journal,
        robot: robot.journal,
        press: press.journal,
        deposit: deposit.journal,
        crane: crane.journal,
        watch: journal,
    };
    let passes = Passes {
        feed: feed.pass,
        table: table.pass,
        robot: robot.pass,
        press: press.pass,
        deposit: deposit.pass,
        crane: crane.pass,
        watch,
    };
    let outputs = SixOf {
        feed: feed.output,
        table: table.output,
        robot: robot.output,
        press: press.output,
        deposit: deposit.output,
        crane: crane.output,
    };
    (journals, passes, outputs)
}
