//! Reports runs for the program.

ghost use Rattle.std.specs.Prelude.{◌≡◌, ◌≢◌, ◌↔◌, IsTrue, None};
ghost use Rattle.cell_app.specs.Reported.{AreFine, ReportTold};

use cell_notes::{RunRecord, Status};
use cell_report::{AuditFault, find_fault, write_report};
use program_shell::Exit;
use std::alloc::Global;
use std::io::Write;

/// Audits what the machines noted in a run, and writes its report. Returns `Well` if no machine
/// was stopped, the audit found a history and the report was written, `Failed` otherwise.
pub fn report<W: Write>(alloc: Global, run: &RunRecord, writer: &mut W) -> Exit
    ensures status { result ≢ Exit.Refused }
    ensures told { ReportTold result run.now (W.contents writer.old) (W.contents writer.new) }
{
    let audited = find_fault(alloc, &run.journals, &run.start, run.end.as_ref());
    match write_report(run, audited, writer) {
        Ok(()) if is_well(run, audited) => Exit::Well,
        Ok(()) | Err(_) => Exit::Failed,
    }
}

/// Whether no machine was stopped, and the audit found a history.
fn is_well(run: &RunRecord, audited: Option<AuditFault>) -> bool
    ensures { IsTrue result ↔ ((audited ≡ None) × AreFine run.now.status) }
{
    audited.is_none() && are_fine(&run.status)
}

/// Whether no machine was stopped.
pub fn are_fine(status: &[Status]) -> bool
    ensures { IsTrue result ↔ AreFine status.now }
{
    status.iter().all(|status| matches!(status, Status::Fine))
}
