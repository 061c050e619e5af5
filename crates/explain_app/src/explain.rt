//! Explains a script or a configuration.

ghost use Rattle.std.specs.Prelude.{◌≡◌, ◌≢◌, ℕ, List, Err, IfErr, IfOk, IfSome};
ghost use Rattle.text_io.specs.Input.{TakesAtMost};
ghost use Rattle.cell_replay.specs.Script.{max_bytes_read, script_outcome};
ghost use Rattle.cell_replay.specs.declared.fault.ReplayFault.TheVariants.{Write};
ghost use Rattle.cell_config.specs.Configured.{Refuses};
ghost use Rattle.cell_config.specs.Settings.{max_bytes_read as config_bytes_read, settings_of};
ghost use Rattle.explain_app.specs.Explained.{IsTextOfConfig, IsTextOfOutcome, IsTextOfScript};
ghost use Rattle.explain_app.specs.Explained.{IsTextOfSettings, LeavesUnsaid, SaysOfConfig, SaysOfScript};

use crate::report::{report_configuration, report_script};
use crate::sink::Sink;
use crate::verdict::Verdict;
use cell_config::{ConfigFault, MAX_BYTES as MAX_CONFIG_BYTES, read_config};
use cell_replay::{MAX_BYTES as MAX_SCRIPT_BYTES, Outcome, ReplayFault, replay};
use std::alloc::Global;
use std::io::{Read, Write};
use text_io::{read_up_to, write_text};

/// Reads a script as `replay` does. Where that isn't refused, it writes nothing; else it writes
/// which record is refused, and why.
///
/// After `Read` or `Memory` nothing was written. At most 4,194,305 bytes are taken from the reader.
pub fn explain_script<R: Read, W: Write>(
    alloc: Global,
    reader: &mut R,
    writer: &mut W,
) -> Result<Verdict, ReplayFault>
    ensures says { IfOk result (λ verdict. IfSome (R.remaining reader.old) (λ bytes. SaysOfScript
        (script_outcome bytes) verdict (W.contents writer.old) (W.contents writer.new))) }
    ensures failed { IfErr result (λ fault. LeavesUnsaid (IsTextOfScript (R.remaining reader.old))
        fault (W.contents writer.old) (W.contents writer.new)) }
    ensures taken { TakesAtMost (R.remaining reader.old) (R.remaining reader.new) max_bytes_read }
{
    // (one byte more shows whether there are more than are used)
    let bytes = read_up_to(alloc, reader, MAX_SCRIPT_BYTES + 1)?;
    explain_script_bytes(alloc, bytes.as_slice(), writer)
}

/// Explains the bytes of a script.
fn explain_script_bytes<W: Write>(
    alloc: Global,
    script: &[u8],
    writer: &mut W,
) -> Result<Verdict, ReplayFault>
    ensures says { IfOk result (λ verdict. SaysOfScript (script_outcome script.now) verdict
        (W.contents writer.old) (W.contents writer.new)) }
    ensures failed { IfErr result
        (λ fault. LeavesUnsaid (IsTextOfOutcome (script_outcome script.now)) fault
        (W.contents writer.old) (W.contents writer.new)) }
{
    let mut reader = script;
    let fault = match replay(alloc, &mut reader, &mut Sink) {
        Ok(Outcome::Clean) => return Ok(Verdict::Taken),
        Ok(Outcome::Refused(fault)) => fault,
        Err(ReplayFault::Read) => return Err(ReplayFault::Read),
        // (a `Sink` takes all that it is given, so this is never `Write`)
        Err(ReplayFault::Memory | ReplayFault::Write) => return Err(ReplayFault::Memory),
    };
    let text = report_script(alloc, script, fault)?;
    match write_text(writer, text.as_str().as_bytes()) {
        Ok(()) => Ok(Verdict::Refused),
        Err(_) => Err(ReplayFault::Write),
    }
}

/// Reads a configuration as `read_config` does. Where that isn't refused, it writes nothing; else
/// it writes the first fault, where it is, and what is wrong.
///
/// After `Read` or `Memory` nothing was written. At most 2,097,153 bytes are taken from the reader.
pub fn explain_configuration<R: Read, W: Write>(
    alloc: Global,
    reader: &mut R,
    writer: &mut W,
) -> Result<Verdict, ReplayFault>
    ensures says { IfOk result (λ verdict. IfSome (R.remaining reader.old) (λ bytes. SaysOfConfig
        (settings_of bytes) verdict (W.contents writer.old) (W.contents writer.new))) }
    ensures failed { IfErr result (λ fault. LeavesUnsaid (IsTextOfConfig (R.remaining reader.old))
        fault (W.contents writer.old) (W.contents writer.new)) }
    ensures taken { TakesAtMost (R.remaining reader.old) (R.remaining reader.new)
        config_bytes_read }
{
    let bytes = read_up_to(alloc, reader, MAX_CONFIG_BYTES + 1)?;
    explain_configuration_bytes(alloc, bytes.as_slice(), writer)
}

/// Explains the bytes of a configuration.
#[tactic(auto, using(crate::proofs::Unsaid::left_unsaid))]
fn explain_configuration_bytes<W: Write>(
    alloc: Global,
    bytes: &[u8],
    writer: &mut W,
) -> Result<Verdict, ReplayFault>
    ensures says { IfOk result (λ verdict. SaysOfConfig (settings_of bytes.now) verdict
        (W.contents writer.old) (W.contents writer.new)) }
    ensures failed { IfErr result
        (λ fault. LeavesUnsaid (IsTextOfSettings (settings_of bytes.now)) fault
        (W.contents writer.old) (W.contents writer.new)) }
{
    let mut reader = bytes;
    let fault = match read_config(alloc, &mut reader) {
        Ok(_) => return Ok(Verdict::Taken),
        Err(fault) => fault_of_bytes(fault)?,
    };
    let text = report_configuration(alloc, bytes, fault)?;
    match write_text(writer, text.as_str().as_bytes()) {
        Ok(()) => Ok(Verdict::Refused),
        Err(_) => Err(ReplayFault::Write),
    }
}

/// The fault, if it is one of the bytes; the error, if reading failed or memory ran out.
fn fault_of_bytes(fault: ConfigFault) -> Result<ConfigFault, ReplayFault>
    ensures first { IfOk result (λ first. (bytes : List ℕ) → Refuses bytes fault →
        settings_of bytes ≡ Err first) }
    ensures unsaid { IfErr result (λ fault. fault ≢ Write) }
{
    match fault {
        ConfigFault::Read => Err(ReplayFault::Read),
        ConfigFault::Memory => Err(ReplayFault::Memory),
        fault => Ok(fault),
    }
}
