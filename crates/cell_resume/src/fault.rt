//! Why a cell can't go on from what was stored.

use cell_types::Machine;

/// Why a cell can't go on from what was stored.
#[derive(Clone, Copy, Debug, PartialEq, Eq)]
pub enum ResumeFault {
    /// The word is no state's.
    NoState,
    /// The machine's number is no step's.
    NoStep(Machine),
    /// The machine's step isn't in step with the state: one of its zones or places isn't as the
    /// step has it.
    NotInStep(Machine),
}
