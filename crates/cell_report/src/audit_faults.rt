//! The faults of audits, with their texts.
ghost use Rattle.std.specs.Prelude.{◌≡◌, Some};
ghost use Rattle.cell_report.specs.declared.audit_faults.AuditFault.TheVariants.{Memory};
ghost use Rattle.cell_report.specs.Report.{audit_fault_text};

use std::alloc::{AllocError, AllocFailed};
use std::fmt;

/// Why an audit refuses journals.
#[derive(Clone, Copy, Debug, PartialEq, Eq)]
pub enum AuditFault {
    /// Two Done entries have this stamp, the least such stamp.
    Twice(u32),
    /// No Done entry has this stamp, the least such stamp after the start's, up to the greatest
    /// stamp of the entries and the end.
    Gap(u32),
    /// The stamp of the first entry that isn't in turn, is too early for the start, or has another
    /// answer than the interlock gives at that point.
    Differs(u32),
    /// The given end isn't the state reached.
    End,
    /// Memory ran out, which says nothing about the journals.
    Memory,
}

impl From<AllocError> for AuditFault {
    ghost from_gives = { λ _ e. e ≡ Memory };

    fn from(_e: AllocError) -> AuditFault {
        AuditFault::Memory
    }
}

impl<T: Drop> From<AllocFailed<T>> for AuditFault {
    ghost from_gives = { λ _ e. e ≡ Memory };

    fn from(_e: AllocFailed<T>) -> AuditFault {
        AuditFault::Memory
    }
}

impl fmt::Display for AuditFault {
    ghost output = { λ fault. Some (audit_fault_text fault) };

    fn fmt<W: fmt::Write>(&self, f: &mut fmt::Formatter<W>) -> fmt::Result {
        match self {
            AuditFault::Twice(stamp) => write!(f, "twice {stamp}"),
            AuditFault::Gap(stamp) => write!(f, "gap {stamp}"),
            AuditFault::Differs(stamp) => write!(f, "differs {stamp}"),
            AuditFault::End => f.write_str("end"),
            AuditFault::Memory => f.write_str("memory"),
        }
    }
}
