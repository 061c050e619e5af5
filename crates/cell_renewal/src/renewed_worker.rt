//! A worker whose machine goes on over the next interlock.

use cell_notes::Status;
use cell_rules::State;
use cell_threads::{Gate, Worker};

/// A worker that leaves its machine so that it can go on, by a worker of the same kind, over the
/// next interlock.
pub trait RenewedWorker: Worker {
    ghost use Rattle.std.specs.Prelude.{◌≡◌, ℕ};
    ghost use Rattle.cell_types.specs.declared.machine.Machine.{Machine};
    ghost use Rattle.cell_rules.specs.ModelState.{ModelState};
    ghost use Rattle.cell_rules.specs.Restamping.{IsSameFor};
    ghost use Rattle.cell_interlock.specs.Views.{PassView};
    ghost use Rattle.cell_notes.specs.declared.status.Status.{Status};
    ghost use Rattle.cell_renewal.specs.Renewing.{Leaves};
    ghost use Rattle.cell_threads.specs.declared.worker_result.WorkerResult.{WorkerResult};

    // Of what it leaves: the machine, the state that this machine has left, and how it ended.
    ghost machine: { Self.Output → Machine };

    ghost left: { Self.Output → ModelState };

    ghost ended: { Self.Output → Status };

    // The worker that goes on with what was left where an interlock opens with this state.
    ghost goes_on: { Self.Output → ModelState → Self → Type 0 };

    /// What it gives back leaves its pass's machine, with the state after what its pass has seen. It
    /// does nothing.
    fn leaves<G: Gate>(gate: &G)
        ensures { (w : Self) (pass : PassView) (tries limit : ℕ) (r : WorkerResult Self.Output)
            → Self.is_ready w pass
            → Self.gives_back w pass tries (G.may_answer gate.now pass.machine) limit r
            → Leaves (machine r.output) (left r.output) pass r.pass };

    /// How the worker ended that left this.
    fn status(output: &Self::Output) -> Status
        ensures { result ≡ ended output.now };

    /// The worker that goes on where an interlock opens with this state. What the machine knows of
    /// the state that it has left is so in this one.
    fn go_on(output: Self::Output, opening: &State) -> Self
        requires same { IsSameFor (machine output) (left output) opening.now }
        ensures goes_on { goes_on output opening.now result }
        ensures ready { (pass : PassView) → pass.machine ≡ machine output → pass.opening ≡ opening.now
            → Self.is_ready result pass };
}
