//! Six workers over one interlock, whose machines are those of a cell.
ghost use Rattle.std.specs.Prelude.{◌≡◌, ◌<◌, ◌⊎◌, ◌↔◌, IfOk, Err, Some, [], ◌∷◌};
ghost use Rattle.cell_rules.specs.Start.{IsStartState};
ghost use Rattle.cell_notes.specs.declared.status.Status.{Status};
ghost use Rattle.cell_notes.specs.Notes.{no_counts};
ghost use Rattle.cell_parts.specs.Axes.{AreCellScales};
ghost use Rattle.cell_plant.specs.Cells.{IsMadeFor, cell_gauges, cell_scales};
ghost use Rattle.cell_plant.specs.Records.{NoneRefused, positions_in};
ghost use Rattle.cell_workers.specs.Records.{TellsWork};
ghost use Rattle.cell_workers.specs.Results.{parts_in};

use cell_notes::{Counts, RunRecord, Status};
use cell_parts::{CranePart, DepositPart, FeedPart, PressPart, RobotPart, TablePart};
use cell_plant::Cell;
use cell_rules::State;
use cell_sensors::Gauge;
use cell_threads::{Gate, RunFault, SixOf, SixRecord, UnitOutput, run_workers};
use std::alloc::Global;
use std::sync::Wait;
use std::thread::Threads;

// What is left of the machines of a cell.
type CellOutputs = SixOf<
    UnitOutput<FeedPart>,
    UnitOutput<TablePart>,
    UnitOutput<RobotPart>,
    UnitOutput<PressPart>,
    UnitOutput<DepositPart>,
    UnitOutput<CranePart>,
>;

// The record of six workers that are a cell's machines.
type CellRecord = SixRecord<
    UnitOutput<FeedPart>,
    UnitOutput<TablePart>,
    UnitOutput<RobotPart>,
    UnitOutput<PressPart>,
    UnitOutput<DepositPart>,
    UnitOutput<CranePart>,
>;

/// Runs a cell that was made for a start. Each machine takes up to `turns` turns in a thread of its
/// own. All six share one interlock, which opens with that start and on which a call may lose
/// `tries` exchanges. After joining all six it closes the interlock, whose last state is the
/// record's end.
///
/// Before its turn k, from 0, a worker asks the gate; if that says no, it ends with
/// `Status::GateLimit`. It also ends once its machine has stopped.
///
/// Errors:
/// - `Tries` if `tries` isn't 1 to 64; it is checked first;
/// - `Memory` if there is no memory for the interlock;
/// - `Spawn` if a thread couldn't be started; the workers that had begun have ended, and nothing is
///   closed.
///
/// If there is no memory for a call's entry, only that machine stops, with `Status::Memory`.
pub fn run_cell<R, F1, F2, F3, F4, F5, G>(
    rt: &R,
    alloc: Global,
    cell: Cell<F1, F2, F3, F4, F5>,
    opening: State,
    tries: u8,
    turns: u32,
    gate: &G,
) -> Result<RunRecord, RunFault>
where
    R: Threads + Wait + Sync,
    F1: Gauge + Send,
    F2: Gauge + Send,
    F3: Gauge + Send,
    F4: Gauge + Send,
    F5: Gauge + Send,
    G: Gate + Sync,
    requires start { IsStartState opening }
    requires made { IsMadeFor opening cell }
    requires scales { AreCellScales (cell_scales cell) }
    ensures tries { (result ≡ Err RunFault.Tries) ↔ ((tries < 1) ⊎ (64 < tries)) }
    ensures work { IfOk result (TellsWork (cell_scales cell) (cell_gauges cell) opening tries turns
        (G.may_answer gate.now)) }
    ensures none_refused { IfOk result NoneRefused }
{
    let workers = SixOf {
        feed: cell.feed,
        table: cell.table,
        robot: cell.robot,
        press: cell.press,
        deposit: cell.deposit,
        crane: cell.crane,
    };
    match run_workers(rt, alloc, workers, opening, tries, turns, gate) {
        Ok(six) => Ok(run_record_of(six)),
        Err(fault) => Err(fault),
    }
}

// The record of a run, by that of its six workers.
fn run_record_of(six: CellRecord) -> RunRecord
    ensures start { result.start ≡ six.start }
    ensures counts { result.counts ≡ six.outputs.feed.counts ∷ six.outputs.table.counts ∷ six.outputs.robot.counts
        ∷ six.outputs.press.counts ∷ six.outputs.deposit.counts ∷ six.outputs.crane.counts ∷ no_counts ∷ [] }
    ensures status { result.status ≡ six.outputs.feed.status ∷ six.outputs.table.status ∷ six.outputs.robot.status
        ∷ six.outputs.press.status ∷ six.outputs.deposit.status ∷ six.outputs.crane.status ∷ Status.Fine ∷ [] }
    ensures journals { result.journals ≡ six.journals }
    ensures end { result.end ≡ Some six.end }
    ensures axes { result.axes ≡ positions_in (parts_in six.outputs) }
{
    RunRecord {
        start: six.start,
        counts: counts_of(&six.outputs),
        status: status_of(&six.outputs),
        axes: axes_of(&six.outputs),
        end: Some(six.end),
        journals: six.journals,
    }
}

// The counts of each machine, in the order of `Machine::ALL`.
fn counts_of(each: &CellOutputs) -> [Counts; 7]
    ensures { result ≡ each.now.feed.counts ∷ each.now.table.counts ∷ each.now.robot.counts ∷ each.now.press.counts
        ∷ each.now.deposit.counts ∷ each.now.crane.counts ∷ no_counts ∷ [] }
{
    [
        each.feed.counts,
        each.table.counts,
        each.robot.counts,
        each.press.counts,
        each.deposit.counts,
        each.crane.counts,
        Counts::none(),
    ]
}

// The status of each machine, in the same order.
fn status_of(each: &CellOutputs) -> [Status; 7]
    ensures { result ≡ each.now.feed.status ∷ each.now.table.status ∷ each.now.robot.status ∷ each.now.press.status
        ∷ each.now.deposit.status ∷ each.now.crane.status ∷ Status.Fine ∷ [] }
{
    [
        each.feed.status,
        each.table.status,
        each.robot.status,
        each.press.status,
        each.deposit.status,
        each.crane.status,
        Status::Fine,
    ]
}

// The positions of the axes, in the order of reports.
fn axes_of(each: &CellOutputs) -> [i32; 8]
    ensures { result ≡ positions_in (parts_in each.now) }
{
    [
        each.press.part.position(),
        each.robot.part.arm1(),
        each.robot.part.arm2(),
        each.robot.part.rotation(),
        each.table.part.lift(),
        each.table.part.turn(),
        each.crane.part.travel(),
        each.crane.part.gripper(),
    ]
}
