//! Reads configurations: texts in TOML with the start of a run, its schedule, and the calibrations
//! of the five potentiometers.

ghost use Rattle.std.specs.Prelude.{◌≡◌, ◌≢◌, Ok, Err, IfOk, IfSome, MatchResult};
ghost use Rattle.toml.specs.View.{table_view};
ghost use Rattle.text_io.specs.Input.{TakesAtMost};
ghost use Rattle.cell_rules.specs.Start.{IsStartState};
ghost use Rattle.cell_config.specs.Configured.{AreAxisScales, AreCurvesOf, Says, shown};
ghost use Rattle.cell_config.specs.Settings.{max_bytes_read, settings_in, settings_of};
ghost use Rattle.cell_config.specs.declared.fault.ConfigFault.TheVariants.{Memory};

use crate::fault::ConfigFault;
use crate::keys::is_known;
use crate::schedules::schedule_at;
use crate::sections::{curves_at, points_of_curves};
use crate::starts::start_at;
use cell_notes::Turn;
use cell_rules::State;
use cell_sensors::{Curve, Points};
use std::alloc::Global;
use std::io::Read;
use text_io::{InputFault, read_up_to};
use toml::Table;

/// The most bytes of a configuration.
pub const MAX_BYTES: usize = 2_097_152;

/// What a run begins with.
#[derive(PartialEq, Eq, Drop)]
pub struct Config {
    /// The state of the interlock at the start.
    pub start: State,
    /// The turns, in order.
    pub schedule: Vec<Turn>,
    /// The calibrations of the potentiometers arm1, arm2, rotation, turn and gripper. Each goes
    /// from 0 to the end of its axis, and has at least as many raw values as the axis has
    /// positions.
    pub points: [Points; 5],
    /// The curves of the same potentiometers: those of their lines, unless the text has others.
    pub curves: [Curve; 5],
}

/// Reads a configuration from the bytes that the reader has left; `docs/FORMATS.md` has the
/// format.
///
/// The error is the first fault in the order of `ConfigFault`; from `Kind` to `Letter` it is the
/// first key with a fault. `Read` if the reader fails; `Memory` may come from any allocation. At
/// most 2,097,153 bytes are taken from the reader, after an error too.
pub fn read_config<R: Read>(alloc: Global, reader: &mut R) -> Result<Config, ConfigFault>
    ensures says { IfSome (R.remaining reader.old) (λ bytes. Says bytes result) }
    ensures start { IfOk result (λ config. IsStartState config.start) }
    ensures points { IfOk result (λ config. AreAxisScales config.points) }
    ensures curves { IfOk result (λ config. AreCurvesOf config.points config.curves) }
    ensures taken { TakesAtMost (R.remaining reader.old) (R.remaining reader.new) max_bytes_read }
{
    let bytes = match read_up_to(alloc, reader, MAX_BYTES + 1) {
        Ok(bytes) => bytes,
        Err(InputFault::Read) => return Err(ConfigFault::Read),
        Err(InputFault::Memory) => return Err(ConfigFault::Memory),
    };
    config_of(alloc, bytes.as_slice())
}

/// The configuration in some bytes, or their first fault.
fn config_of(alloc: Global, bytes: &[u8]) -> Result<Config, ConfigFault>
    ensures says { MatchResult result
        (λ config. settings_of bytes.now ≡ Ok (shown config))
        (λ fault. fault ≢ Memory → settings_of bytes.now ≡ Err fault) }
    ensures start { IfOk result (λ config. IsStartState config.start) }
    ensures points { IfOk result (λ config. AreAxisScales config.points) }
    ensures curves { IfOk result (λ config. AreCurvesOf config.points config.curves) }
{
    if bytes.len() > MAX_BYTES {
        return Err(ConfigFault::Long);
    }
    match toml::table_from_slice(alloc, bytes) {
        Ok(table) => config_in(alloc, &table),
        Err(error) if error.is_memory() => Err(ConfigFault::Memory),
        Err(_) => Err(ConfigFault::Text),
    }
}

/// The configuration in a table, or its first fault.
fn config_in(alloc: Global, table: &Table) -> Result<Config, ConfigFault>
    ensures says { MatchResult result
        (λ config. settings_in (table_view table.now) ≡ Ok (shown config))
        (λ fault. fault ≢ Memory → settings_in (table_view table.now) ≡ Err fault) }
    ensures start { IfOk result (λ config. IsStartState config.start) }
    ensures points { IfOk result (λ config. AreAxisScales config.points) }
    ensures curves { IfOk result (λ config. AreCurvesOf config.points config.curves) }
{
    if !is_known(table) {
        return Err(ConfigFault::Unknown);
    }
    let start = start_at(table)?;
    let schedule = schedule_at(alloc, table)?;
    let curves = curves_at(table)?;
    Ok(Config {
        start,
        schedule,
        points: points_of_curves(&curves),
        curves,
    })
}
