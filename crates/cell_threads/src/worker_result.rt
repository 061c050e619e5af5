//! A machine's turns by its pass, and what its worker gives back: a plain struct.
ghost use Rattle.std.specs.Prelude.{◌≡◌, []};
ghost use Rattle.cell_notes.specs.Notes.{no_counts};
ghost use Rattle.cell_unit.specs.Sides.{UnitIsReady, unit_rig, unit_side, unit_table};
ghost use Rattle.cell_threads.specs.Workers.{IsWorkerResult, worker_moment};

use crate::gate::Gate;
use crate::take_turns::take_turns;
use cell_control::{Part, Program};
use cell_interlock::{Interlock, Pass, PassLine};
use cell_notes::{Counts, Status};
use cell_types::Entry;
use cell_unit::MachineUnit;
use std::alloc::Global;

/// What a worker gives back. It borrows nothing.
#[derive(Drop)]
pub struct WorkerResult<T> {
    /// The machine's pass.
    pub pass: Pass,
    /// An entry for each call that was settled by the pass, the oldest first.
    pub journal: Vec<Entry>,
    /// What else the worker has to give.
    pub output: T,
}

/// What is left of a machine of a `Cell` after its turns.
#[derive(Drop)]
pub struct UnitOutput<B> {
    /// Its counts of turns and replies.
    pub counts: Counts,
    /// Its status at the end.
    pub status: Status,
    /// Its part, as it was at the end.
    pub part: B,
}

/// Takes a machine's turns by its pass over an interlock.
pub(crate) fn take_turns_by_pass<P: Program, B: Part<Sense = P::Sense, Act = P::Act>, G: Gate>(
    alloc: Global,
    interlock: &Interlock,
    pass: Pass,
    unit: MachineUnit<P, B>,
    gate: &G,
    turns: u32,
) -> WorkerResult<UnitOutput<B>>
    requires table { pass.table ≡ interlock.now.table }
    requires fresh { pass.seen ≡ [] }
    requires own { pass.machine ≡ (unit_table P.steps unit).machine }
    requires ready { UnitIsReady P.steps unit pass.opening pass.seen }
    ensures { IsWorkerResult interlock.now.tries (unit_table P.steps unit) (unit_rig B.rig B.make unit)
        (G.may_answer gate.now pass.machine) turns
        (worker_moment pass (unit_side B.state unit) no_counts) result.pass result.journal.items result.output.counts
        result.output.status (B.state result.output.part) }
{
    let mut unit = unit;
    let mut line = PassLine::new(alloc, interlock, pass);
    let ending = take_turns(&mut unit, &mut line, gate, turns);
    let (pass, journal) = line.into_parts();
    WorkerResult {
        pass,
        journal,
        output: UnitOutput {
            counts: ending.counts,
            status: ending.status,
            part: unit.part,
        },
    }
}
