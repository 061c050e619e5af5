//! What a thread gets: a machine that takes its turns by a pass over an interlock.

use crate::gate::Gate;
use crate::worker_result::{UnitOutput, WorkerResult, take_turns_by_pass};
use cell_control::{Part, Program};
use cell_interlock::{Interlock, Pass};
use cell_unit::MachineUnit;
use std::alloc::Global;

/// A machine that takes its turns in a thread of its own, by a pass over an interlock.
///
/// The machines of a `Cell` are workers. For parts of your own, implement it: make a `PassLine` of
/// the pass, and take turns by it. The line gives back the pass and the journal, and its contract
/// says what is asked here of both.
///
/// A thread can take a value of a type parameter, but no struct whose fields have bounds of their
/// own. So a thread takes turns through this trait, and not with a unit itself.
pub trait Worker: Drop {
    ghost use Rattle.std.specs.Prelude.{◌≡◌, ℕ, [], ⊤};
    ghost use Rattle.cell_interlock.specs.Views.{PassView};
    ghost use Rattle.cell_threads.specs.Workers.{GateOf, IsGivenBack};
    ghost use Rattle.cell_threads.specs.declared.worker_result.WorkerResult.{WorkerResult};

    /// What it gives back besides its pass and its journal.
    type Output: Drop;

    // It may begin by this pass.
    ghost is_ready: { Self → PassView → Type 0 };

    // What it gives back after its turns by this pass. Given are the number of tries of a call,
    // its gate, and the greatest number of turns. The default is anything.
    ghost gives_back: { Self → PassView → ℕ → GateOf → ℕ → WorkerResult Self.Output → Type 0 } = { λ _ _ _ _ _ _. ⊤ };

    /// Takes its turns, at most `turns`, each once the gate lets it begin. Gives back the pass that
    /// it got, and a journal with an entry for each call that was settled by it.
    fn take_turns<G: Gate>(
        self,
        alloc: Global,
        interlock: &Interlock,
        pass: Pass,
        gate: &G,
        turns: u32,
    ) -> WorkerResult<Self::Output>
        requires table { pass.table ≡ interlock.now.table }
        requires fresh { pass.seen ≡ [] }
        requires ready { is_ready self pass }
        ensures given { IsGivenBack pass result.pass result.journal.items }
        ensures gives { gives_back self pass interlock.now.tries (G.may_answer gate.now pass.machine) turns result };
}

impl<P: Program, B: Part<Sense = P::Sense, Act = P::Act>> Worker for MachineUnit<P, B> {
    ghost use Rattle.std.specs.Prelude.{◌≡◌};
    ghost use Rattle.cell_notes.specs.Notes.{no_counts};
    ghost use Rattle.cell_unit.specs.Sides.{UnitIsReady, unit_rig, unit_side, unit_table};
    ghost use Rattle.cell_threads.specs.Workers.{IsWorkerResult, worker_moment};

    type Output = UnitOutput<B>;

    ghost is_ready = { λ unit pass. (pass.machine ≡ (unit_table P.steps unit).machine)
        × UnitIsReady P.steps unit pass.opening pass.seen };

    ghost gives_back = { λ unit pass tries gate limit r. IsWorkerResult tries (unit_table P.steps unit)
        (unit_rig B.rig B.make unit) gate limit
        (worker_moment pass (unit_side B.state unit) no_counts) r.pass r.journal.items r.output.counts
        r.output.status (B.state r.output.part) };

    fn take_turns<G: Gate>(
        self,
        alloc: Global,
        interlock: &Interlock,
        pass: Pass,
        gate: &G,
        turns: u32,
    ) -> WorkerResult<UnitOutput<B>> {
        take_turns_by_pass(alloc, interlock, pass, self, gate, turns)
    }
}
