//! Replays a script for the program.

ghost use Rattle.std.specs.Prelude.{◌≡◌, ◌≢◌, IfSome};
ghost use Rattle.text_io.specs.Input.{TakesAtMost};
ghost use Rattle.cell_replay.specs.Script.{max_bytes_read};
ghost use Rattle.cell_app.specs.Served.{ReplayFails, WasReplayed};

use cell_replay::{Outcome, ReplayFault, replay};
use program_shell::{Exit, fail};
use std::alloc::Global;
use std::io::{Read, Write};

/// Replays a script. Prints the fault's line if a read failed or memory ran out; after a failed
/// write it prints nothing more. Returns `Well` if all went well, `Failed` otherwise.
pub fn serve_replay<R: Read, W: Write>(alloc: Global, reader: &mut R, writer: &mut W) -> Exit
    ensures status { result ≢ Exit.Refused }
    ensures well { result ≡ Exit.Well →
        WasReplayed (R.remaining reader.old) (W.contents writer.old) (W.contents writer.new) }
    ensures failed { result ≡ Exit.Failed →
        IfSome (R.remaining reader.old) (λ bytes.
        ReplayFails bytes (W.contents writer.old) (W.contents writer.new)) }
    ensures read { TakesAtMost (R.remaining reader.old) (R.remaining reader.new) max_bytes_read }
{
    match replay(alloc, reader, writer) {
        Ok(Outcome::Clean) => Exit::Well,
        Ok(Outcome::Refused(_)) | Err(ReplayFault::Write) => Exit::Failed,
        Err(ReplayFault::Read) => fail(writer, "read"),
        Err(ReplayFault::Memory) => fail(writer, "memory"),
    }
}
