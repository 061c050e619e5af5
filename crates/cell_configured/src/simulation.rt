//! The simulation of a configured cell.

ghost use Rattle.std.specs.Prelude.{◌≡◌, map, IfErr, IfOk};
ghost use Rattle.cell_sensors.specs.Curve.{pairs_of};
ghost use Rattle.cell_rules.specs.Start.{IsStartState};
ghost use Rattle.cell_parts.specs.Axes.{AreCellScales, CellScales};
ghost use Rattle.cell_plant.specs.Cells.{TellsRun};
ghost use Rattle.cell_plant.specs.Frames.{SeesBeginning, SeesRun};
ghost use Rattle.cell_plant.specs.Machines.{on_curves};
ghost use Rattle.cell_config.specs.Configured.{AreAxisScales, AreCurvesOf, in_order};
ghost use Rattle.cell_configured.specs.Gauges.{gauges_by};
ghost use Rattle.cell_configured.specs.Seen.{SeesConfigured, SeesItsBeginning};

use crate::gauges::cell_with_gauges;
use crate::gauges_on;
use cell_config::Config;
use cell_plant::{NoObserver, Observer, RunRecord, SeenFault, SimFault, Turn, simulate_observed};
use cell_rules::State;
use cell_sensors::{ByPotentiometer, Gauge, Points};
use std::alloc::Global;

/// Simulates a configuration's schedule, with a closure over each of its curves. So each reading is
/// the one on the curve.
pub fn simulate_configured(alloc: Global, config: &Config) -> Result<RunRecord, SimFault>
    requires start { IsStartState config.now.start }
    requires points { AreAxisScales config.now.points }
    requires curves { AreCurvesOf config.now.points config.now.curves }
    ensures run { IfOk result (λ r. (c : CellScales) × (config.now.points ≡ in_order c)
        × TellsRun c (on_curves (map pairs_of config.now.curves))
        config.now.start config.now.schedule.items r) }
{
    match simulate_configured_observed(alloc, config, config.schedule.as_slice(), &mut NoObserver) {
        Ok(record) => Ok(record),
        Err(SeenFault::Memory) => Err(SimFault::Memory),
        Err(SeenFault::Observer(never)) => match never {},
    }
}

/// Simulates a schedule on a configuration's cell, with a closure over each of its curves, and shows
/// it to an observer. The configuration's own schedule isn't used. The errors are those of
/// `simulate_observed`.
pub fn simulate_configured_observed<W: Observer>(
    alloc: Global,
    config: &Config,
    schedule: &[Turn],
    observer: &mut W,
) -> Result<RunRecord, SeenFault<W::Fault>>
    requires start { IsStartState config.now.start }
    requires points { AreAxisScales config.now.points }
    requires curves { AreCurvesOf config.now.points config.now.curves }
    ensures run { IfOk result (SeesConfigured W.sees config.now schedule.now observer.old observer.new) }
    ensures ended { IfErr result (SeesItsBeginning W.sees config.now schedule.now observer.old observer.new) }
{
    let (points, gauges) = gauges_on!(config.curves);
    show_with_gauges(alloc, gauges, points, config.start, schedule, observer)
}

/// Simulates a schedule, with these closures, and shows it to an observer.
fn show_with_gauges<F1: Gauge, F2: Gauge, F3: Gauge, F4: Gauge, F5: Gauge, W: Observer>(
    alloc: Global,
    gauges: (F1, F2, F3, F4, F5),
    points: ByPotentiometer<Points>,
    start: State,
    schedule: &[Turn],
    observer: &mut W,
) -> Result<RunRecord, SeenFault<W::Fault>>
    requires start { IsStartState start }
    requires arm1 { F1.keeps gauges.0 points.arm1 }
    requires arm2 { F2.keeps gauges.1 points.arm2 }
    requires rotation { F3.keeps gauges.2 points.rotation }
    requires turn { F4.keeps gauges.3 points.turn }
    requires gripper { F5.keeps gauges.4 points.gripper }
    requires scales { AreCellScales points }
    ensures run { IfOk result (SeesRun W.sees points
        (gauges_by (F1.gives gauges.0) (F2.gives gauges.1) (F3.gives gauges.2)
        (F4.gives gauges.3) (F5.gives gauges.4))
        start schedule.now observer.old observer.new) }
    ensures ended { IfErr result (SeesBeginning W.sees points
        (gauges_by (F1.gives gauges.0) (F2.gives gauges.1) (F3.gives gauges.2)
        (F4.gives gauges.3) (F5.gives gauges.4))
        start schedule.now observer.old observer.new) }
{
    let cell = cell_with_gauges(gauges, points, &start);
    simulate_observed(alloc, cell, start, schedule, observer)
}
