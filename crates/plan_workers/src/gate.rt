//! A gate lets machines begin their turns.

/// Lets a machine begin a turn, or ends its work. It may wait, as for the next tick of a clock, or for other machines
/// ([`crate::PacedPlanGate`]).
pub trait PlanGate {
    ghost use Rattle.std.specs.Prelude.{⊤, ℕ, Bool};

    // What it may answer a machine, by the number of the turn. The default is anything.
    ghost may_answer: { Self → ℕ → ℕ → Bool → Type 0 } = { λ _ _ _ _. ⊤ };

    /// Whether the machine may begin its turn of this number, from 0. It is asked once before each turn.
    fn pass(&self, machine: u8, turn: u32) -> bool
        ensures { may_answer self.now machine turn result };

    /// Told that machines begin a round ([`crate::work_renewed`]), before any of them has begun.
    fn begin(&self) {}
}

/// The gate that lets every machine begin every turn.
#[derive(Clone, Copy, Debug, PartialEq, Eq)]
pub struct OpenPlanGate;

impl PlanGate for OpenPlanGate {
    ghost use Rattle.std.specs.Prelude.{◌≡◌, true};

    ghost may_answer = { λ _ _ _ answer. answer ≡ true };

    fn pass(&self, _machine: u8, _turn: u32) -> bool {
        true
    }
}
