//! What is wrong with a plant's rows, and which word is no plan.
ghost use Rattle.std.specs.Prelude.{◌≡◌};
ghost use Rattle.plan_words.specs.declared.fault.PlantFault.TheVariants.{OutOfMemory};

use plan_types::PlanFault;
use std::alloc::{AllocError, AllocFailed};

/// Of what a plant has more than it may have.
#[derive(Clone, Copy, Debug, PartialEq, Eq)]
pub enum Limit {
    /// More than 30 machines.
    Machines,
    /// More than 40 zones.
    Zones,
    /// More than 255 poses.
    Poses,
    /// More than 255 places; of `PlantTables::cut_at`: more than 64, or more than 144 with the exits.
    Places,
    /// More than 16 words.
    Words,
}

/// The first fault of a plant, in this order: its limits, the rows by the rules of plans, the groups in their order,
/// and how many words there are.
#[derive(Clone, Copy, Debug, PartialEq, Eq)]
pub enum PlantFault {
    /// The plant has more than it may have.
    TooMany(Limit),
    /// A row breaks a rule of plans. The fault has the plant's numbers.
    OfRow(PlanFault),
    /// A group doesn't fit a word of its own: it has too many rows, or is too wide. `zone` is its first zone; the poses
    /// and places that need no zone have none.
    OfWord {
        zone: Option<usize>,
        fault: PlanFault,
    },
    /// Memory ran out.
    OutOfMemory,
}

impl From<AllocError> for PlantFault {
    ghost from_gives = { λ _ fault. fault ≡ OutOfMemory };

    fn from(_error: AllocError) -> PlantFault {
        PlantFault::OutOfMemory
    }
}

impl<T: Drop> From<AllocFailed<T>> for PlantFault {
    ghost from_gives = { λ _ fault. fault ≡ OutOfMemory };

    fn from(_error: AllocFailed<T>) -> PlantFault {
        PlantFault::OutOfMemory
    }
}
