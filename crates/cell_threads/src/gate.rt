//! A gate lets machines begin their turns.

use cell_types::Machine;

/// Lets a machine begin a turn, or refuses: then that machine's worker ends.
pub trait Gate {
    ghost use Rattle.std.specs.Prelude.{⊤, ℕ, Bool};
    ghost use Rattle.cell_types.specs.declared.machine.Machine.{Machine};

    // What it may answer a machine, by the number of the turn. The default is anything.
    ghost may_answer: { Self → Machine → ℕ → Bool → Type 0 } = { λ _ _ _ _. ⊤ };

    /// Whether the machine may begin its turn of this number, from 0. The machine's own thread asks
    /// once for each turn, in order.
    fn pass(&self, machine: Machine, turn: u32) -> bool
        ensures { may_answer self.now machine turn result };

    /// Told by `run_renewed` of `cell_renewal` that a round begins, before any of its six workers has
    /// begun. `run_workers` and `run_watched` don't tell it.
    fn begin(&self) {}

    /// Told that the machine takes no more turns: its worker has ended, or couldn't be started.
    fn end(&self, _machine: Machine) {}
}

/// The gate that lets every machine begin every turn.
#[derive(Clone, Copy, Debug, PartialEq, Eq)]
pub struct OpenGate;

impl Gate for OpenGate {
    ghost use Rattle.std.specs.Prelude.{◌≡◌, true};

    ghost may_answer = { λ _ _ _ answer. answer ≡ true };

    fn pass(&self, _machine: Machine, _turn: u32) -> bool {
        true
    }
}
