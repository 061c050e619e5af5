//! The fault of a simulation.

use std::alloc::AllocError;

/// Why a cell wasn't simulated.
#[derive(Clone, Copy, Debug, PartialEq, Eq)]
pub enum SimFault {
    /// Out of memory for a journal's entry.
    Memory,
}

impl From<AllocError> for SimFault {
    ghost use Rattle.std.specs.Prelude.{◌≡◌};
    ghost use Rattle.cell_unit.specs.declared.fault.SimFault.TheVariants.{Memory};

    ghost from_gives = { λ _ fault. fault ≡ Memory };

    fn from(_: AllocError) -> SimFault {
        SimFault::Memory
    }
}
