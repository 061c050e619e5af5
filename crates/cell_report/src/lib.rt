//! Audits and reports of runs: `audit` finds the one history that explains the journals of the
//! machines, `find_fault` only whether there is one, and `write_report` writes the report.
#![tactic(auto)]

pub mod audit_faults;
pub mod audits;
pub mod laws;
mod merged;
mod ordered;
pub mod report;
mod rests;
mod same;
mod sinks;
mod stamps;
mod traces;

pub use audit_faults::AuditFault;
pub use audits::{audit, find_fault};
pub use report::write_report;
pub use text_io::WriteFault;
