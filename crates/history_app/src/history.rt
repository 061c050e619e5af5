//! Tells a run as a script.

ghost use Rattle.std.specs.Prelude.{◌≢◌, List};
ghost use Rattle.cell_types.specs.declared.answer.Event.{Event};
ghost use Rattle.history_app.specs.Recorded.{IsHistoryOf, IsTold, IsWritten};

use crate::script_of;
use cell_app::reporting::are_fine;
use cell_notes::RunRecord;
use cell_replay::MAX_RECORDS;
use cell_report::{AuditFault, audit};
use program_shell::{Exit, fail};
use std::alloc::Global;
use std::io::Write;
use text_io::write_text;

/// The most events of a script.
const MAX_EVENTS: usize = MAX_RECORDS as usize;

/// Finds the history of a run in its journals, and writes the history's script, with a stopped
/// machine too. Returns `Well` if no machine was stopped and the script was written, `Failed`
/// otherwise.
///
/// Prints a fault's line if memory runs out, or if a script has no room for all events. The audit
/// has no other cause to reject the journals, since some history gives them.
pub fn write_history<W: Write>(alloc: Global, run: &RunRecord, writer: &mut W) -> Exit
    requires history { (history : List Event) × IsHistoryOf run.now history }
    ensures status { result ≢ Exit.Refused }
    ensures told { IsTold run.now result (W.contents writer.old) (W.contents writer.new) }
{
    let events = match audit(alloc, &run.journals, &run.start, run.end.as_ref()) {
        Ok(events) => events,
        Err(AuditFault::Memory) => return fail(writer, "memory"),
        Err(_) => unreachable!(),
    };
    if events.len() > MAX_EVENTS {
        return fail(writer, "long");
    }
    let Ok(script) = script_of(alloc, &run.start, &events) else {
        return fail(writer, "memory");
    };
    write_script(writer, script.as_bytes(), are_fine(&run.status))
}

/// Writes the script of a run whose machines are fine, or aren't.
fn write_script<W: Write>(writer: &mut W, script: &[u8], fine: bool) -> Exit
    ensures status { result ≢ Exit.Refused }
    ensures written { IsWritten script.now fine result (W.contents writer.old) (W.contents writer.new) }
{
    match write_text(writer, script) {
        Ok(()) if fine => Exit::Well,
        Ok(()) | Err(_) => Exit::Failed,
    }
}
