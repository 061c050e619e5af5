//! Simulates the cell for the program.

ghost use Rattle.std.specs.Prelude.{◌≡◌, ◌≢◌, IfSome};
ghost use Rattle.text_io.specs.Input.{TakesAtMost};
ghost use Rattle.cell_config.specs.Settings.{max_bytes_read};
ghost use Rattle.cell_app.specs.Served.{SimFails, WasSimulated};

use crate::laws::reports_are_one;
use crate::reporting::report;
use cell_config::read_config;
use cell_configured::simulate_configured;
use cell_plant::SimFault;
use program_shell::{Exit, fail};
use std::alloc::Global;
use std::io::{Read, Write};

/// Simulates the cell by the configuration that it reads, audits what the machines noted, and
/// writes the report, or prints a fault. Returns `Well` if all went well, `Failed` otherwise.
pub fn serve_sim<R: Read, W: Write>(alloc: Global, reader: &mut R, writer: &mut W) -> Exit
    ensures status { result ≢ Exit.Refused }
    ensures well { result ≡ Exit.Well →
        WasSimulated (R.remaining reader.old) (W.contents writer.old) (W.contents writer.new) }
    ensures failed { result ≡ Exit.Failed →
        IfSome (R.remaining reader.old) (λ bytes.
        SimFails bytes (W.contents writer.old) (W.contents writer.new)) }
    ensures read { TakesAtMost (R.remaining reader.old) (R.remaining reader.new) max_bytes_read }
{
    reports_are_one();
    let config = match read_config(alloc, reader) {
        Ok(config) => config,
        Err(fault) => return fail(writer, fault.text()),
    };
    match simulate_configured(alloc, &config) {
        Ok(run) => report(alloc, &run, writer),
        Err(SimFault::Memory) => fail(writer, "memory"),
    }
}
