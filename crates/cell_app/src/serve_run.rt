//! Runs the cell by six workers for the program.

ghost use Rattle.std.specs.Prelude.{◌≡◌, ◌≢◌, ◌≤◌, map, IfOk, IfSome, Err};
ghost use Rattle.cell_sensors.specs.Curve.{pairs_of};
ghost use Rattle.cell_plant.specs.Machines.{on_curves};
ghost use Rattle.cell_rules.specs.Start.{IsStartState};
ghost use Rattle.cell_parts.specs.Axes.{AreCellScales, CellScales};
ghost use Rattle.text_io.specs.Input.{TakesAtMost};
ghost use Rattle.cell_config.specs.Configured.{AreAxisScales, AreCurvesOf, in_order};
ghost use Rattle.cell_config.specs.Settings.{max_bytes_read};
ghost use Rattle.cell_app.specs.Served.{RunFails, WasRun};
ghost use Rattle.cell_workers.specs.Records.{TellsWork};

use crate::reporting::report;
use cell_config::{Config, read_config};
use cell_configured::{cell_with_gauges, gauges_on};
use cell_notes::RunRecord;
use cell_rules::State;
use cell_sensors::{ByPotentiometer, Gauge, Points};
use cell_workers::{Gate, OpenGate, RunFault, run_cell};
use program_shell::{Exit, fail};
use std::alloc::Global;
use std::io::{Read, Write};
use std::sync::Wait;
use std::thread::Threads;

/// Runs the cell by the configuration that it reads, each machine by its own worker, audits what
/// they noted, and writes the report, or prints a fault. Returns `Well` if all went well,
/// `Failed` otherwise.
pub fn serve_run<T, R: Read, W: Write>(
    rt: &T,
    alloc: Global,
    turns: u32,
    tries: u8,
    reader: &mut R,
    writer: &mut W,
) -> Exit
where
    T: Threads + Wait + Sync,
    requires few { tries ≤ 64 }
    requires some { 1 ≤ tries }
    ensures status { result ≢ Exit.Refused }
    ensures well { result ≡ Exit.Well →
        WasRun turns tries (R.remaining reader.old)
        (W.contents writer.old) (W.contents writer.new) }
    ensures failed { result ≡ Exit.Failed →
        IfSome (R.remaining reader.old) (λ bytes.
        RunFails turns tries bytes (W.contents writer.old) (W.contents writer.new)) }
    ensures read { TakesAtMost (R.remaining reader.old) (R.remaining reader.new) max_bytes_read }
{
    let config = match read_config(alloc, reader) {
        Ok(config) => config,
        Err(fault) => return fail(writer, fault.text()),
    };
    match run_configured(rt, alloc, &config, turns, tries, &OpenGate) {
        Ok(run) => report(alloc, &run, writer),
        Err(fault) => fail(writer, fault.text()),
    }
}

/// Runs a configuration by six workers, with a closure over each of its curves. So each reading is the
/// one on the curve. The gate lets them begin their turns. The configuration's schedule isn't used.
pub fn run_configured<T, G: Gate + Sync>(
    rt: &T,
    alloc: Global,
    config: &Config,
    turns: u32,
    tries: u8,
    gate: &G,
) -> Result<RunRecord, RunFault>
where
    T: Threads + Wait + Sync,
    requires start { IsStartState config.now.start }
    requires points { AreAxisScales config.now.points }
    requires curves { AreCurvesOf config.now.points config.now.curves }
    requires few { tries ≤ 64 }
    requires some { 1 ≤ tries }
    ensures work { IfOk result (λ r. (c : CellScales) × (config.now.points ≡ in_order c)
        × TellsWork c (on_curves (map pairs_of config.now.curves))
        config.now.start tries turns (G.may_answer gate.now) r) }
    ensures tries { result ≢ Err RunFault.Tries }
{
    let (points, gauges) = gauges_on!(config.curves);
    run_with_gauges(rt, alloc, gauges, points, config.start, turns, tries, gate)
}

/// A run by six workers with these closures.
fn run_with_gauges<T, F1, F2, F3, F4, F5, G>(
    rt: &T,
    alloc: Global,
    gauges: (F1, F2, F3, F4, F5),
    points: ByPotentiometer<Points>,
    start: State,
    turns: u32,
    tries: u8,
    gate: &G,
) -> Result<RunRecord, RunFault>
where
    T: Threads + Wait + Sync,
    F1: Gauge + Send,
    F2: Gauge + Send,
    F3: Gauge + Send,
    F4: Gauge + Send,
    F5: Gauge + Send,
    G: Gate + Sync,
    requires start { IsStartState start }
    requires arm1 { F1.keeps gauges.0 points.arm1 }
    requires arm2 { F2.keeps gauges.1 points.arm2 }
    requires rotation { F3.keeps gauges.2 points.rotation }
    requires turn { F4.keeps gauges.3 points.turn }
    requires gripper { F5.keeps gauges.4 points.gripper }
    requires scales { AreCellScales points }
    requires few { tries ≤ 64 }
    requires some { 1 ≤ tries }
    ensures work { IfOk result
        (TellsWork points
        (record {
          arm1 = F1.gives gauges.0;
          arm2 = F2.gives gauges.1;
          rotation = F3.gives gauges.2;
          turn = F4.gives gauges.3;
          gripper = F5.gives gauges.4;
        })
        start tries turns (G.may_answer gate.now)) }
    ensures tries { result ≢ Err RunFault.Tries }
{
    let cell = cell_with_gauges(gauges, points, &start);
    run_cell(rt, alloc, cell, start, tries, turns, gate)
}
