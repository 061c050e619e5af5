//! Why an audit refuses journals.
ghost use Rattle.std.specs.Prelude.{◌≡◌};
ghost use Rattle.plan_workers.specs.declared.audit_fault.PlanAuditFault.TheVariants.{Memory};

use std::alloc::{AllocError, AllocFailed};
use thiserror::Error;

/// Why an audit refuses journals.
#[derive(Clone, Copy, Debug, PartialEq, Eq, Error)]
pub enum PlanAuditFault {
    /// The journal of this number has entries, but no machine has a number above 30.
    #[error("journal {journal}: no machine has this number")]
    NoMachine { journal: usize },
    /// Entries are left, but no journal goes on from the state with this stamp: a stamp is missing, or stands twice, or
    /// an entry is too early or too late in its journal.
    #[error("stamp {stamp}: no entry comes next")]
    OutOfTurn { stamp: u32 },
    /// The next entry, of this machine and with this stamp, has another answer than the interlock gives there.
    #[error("machine {machine}, stamp {stamp}: another answer")]
    Differs { machine: u8, stamp: u32 },
    /// The given end isn't the state reached.
    #[error("the end isn't the state reached")]
    End,
    /// Memory ran out, which says nothing of the journals.
    #[error("no memory")]
    Memory,
}

impl From<AllocError> for PlanAuditFault {
    ghost from_gives = { λ _ e. e ≡ Memory };

    fn from(_e: AllocError) -> PlanAuditFault {
        PlanAuditFault::Memory
    }
}

impl<T: Drop> From<AllocFailed<T>> for PlanAuditFault {
    ghost from_gives = { λ _ e. e ≡ Memory };

    fn from(_e: AllocFailed<T>) -> PlanAuditFault {
        PlanAuditFault::Memory
    }
}
