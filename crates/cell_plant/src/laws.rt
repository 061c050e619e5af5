//! Laws of every run of the cell, and examples of safe runs. Each is a function that does nothing:
//! its contract is the law.
ghost use Rattle.cell_notes.specs.declared.run_record.RunRecord.{RunRecord};
ghost use Rattle.cell_parts.specs.Axes.{CellScales};
ghost use Rattle.cell_plant.specs.Cells.{cell_gauges, cell_scales};
ghost use Rattle.cell_plant.specs.FrameExamples.{FrameExamples};
ghost use Rattle.cell_plant.specs.Frames.{FilmsAreSafe};
ghost use Rattle.cell_plant.specs.GaugeExamples.{OneRunIsTold};
ghost use Rattle.cell_plant.specs.GaugeLaws.{RunsAreByGauges, RunsAreOne};
ghost use Rattle.cell_plant.specs.NoteExamples.{NotesAreTold};
ghost use Rattle.cell_plant.specs.RecordExamples.{RecordExamples};
ghost use Rattle.cell_plant.specs.RestExamples.{RestIsTold};
ghost use Rattle.cell_plant.specs.Resting.{StoppedMachinesRest};
ghost use Rattle.cell_plant.specs.RunExamples.{RunExamples};
ghost use Rattle.cell_plant.specs.RunLaws.{EndsSafely, RunsAreTold, RunsGrow};
ghost use Rattle.cell_plant.specs.Safety.{EveryRunIsSafe};
ghost use Rattle.cell_plant.specs.SafetyExamples.{SafetyExamples};
ghost use Rattle.cell_plant.specs.WatchExamples.{WatchRowsAreMet};
ghost use Rattle.cell_plant.specs.WatchLaws.{WatchNotesTheMark};

use crate::cell::Cell;
use cell_sensors::Gauge;

/// Nothing collides in any run of any schedule, neither once motors are set nor once a part has
/// moved. Each axis stays within its ends, and the interlock meets what positions and motors
/// demand, also for motors that an earlier turn left on. A run may have busy turns and failed
/// allocations anywhere, and any reading that a calibration may give.
#[tactic(auto, using(crate::proofs::SafeRuns::every_run))]
pub fn every_run_is_safe()
    ensures { EveryRunIsSafe }
{}

/// A run by what the calibrations' closures give is one by readings near the lines, so it is safe.
/// Each machine reads by its own closures. Closures over five curves are in the order of the curves.
pub fn runs_are_by_gauges<F1: Gauge, F2: Gauge, F3: Gauge, F4: Gauge, F5: Gauge>(
    _cell: &Cell<F1, F2, F3, F4, F5>,
)
    ensures { RunsAreByGauges (cell_scales _cell.now) (cell_gauges _cell.now) }
{}

/// By closures that give one position at a raw value, a schedule has one run from a state: two runs
/// have the same steps, if none of their calls is out of memory. None is, if no machine is stopped at
/// the end. Then their records say the same.
pub fn runs_are_one<F1: Gauge, F2: Gauge, F3: Gauge, F4: Gauge, F5: Gauge>(
    _cell: &Cell<F1, F2, F3, F4, F5>,
)
    ensures { RunsAreOne (cell_scales _cell.now) (cell_gauges _cell.now) }
{}

/// A run's last state tells each field of its record, whatever the schedule. A machine that hasn't
/// stopped has had all the turns that the schedule gives it, and none has had more. Another turn adds
/// a step to a run, its events, its count and its frame. Wherever a run has come, it is safe.
pub fn runs_are_told<F1: Gauge, F2: Gauge, F3: Gauge, F4: Gauge, F5: Gauge>(
    _cell: &Cell<F1, F2, F3, F4, F5>,
)
    ensures told { RunsAreTold (cell_scales _cell.now) (cell_gauges _cell.now) }
    ensures grow { RunsGrow (cell_scales _cell.now) (cell_gauges _cell.now) }
    ensures safe { (c : CellScales) → EndsSafely c }
{}

/// No frame of a run shows a collision, whatever the schedule, the start and the calibrations. In
/// each frame every axis is within its ends, and the interlock meets what positions and motors
/// demand.
pub fn films_are_safe()
    ensures { FilmsAreSafe }
{}

/// Examples of safe states, steps and runs, and of unsafe ones. Most of these are wrong in one
/// thing: a collision, an axis past an end, one demand of a position or a motor (once a part has
/// moved, or only once motors are set), a magnet that drops its plate, or an axis that is driven on
/// at its end.
#[tactic(auto, using(crate::proofs::SafetyRows::safety_examples))]
pub fn unsafe_runs_are_refused()
    ensures { SafetyExamples }
{}

/// Examples of turns and of runs, over any scales, and of what isn't one. These are wrong in one
/// thing: a step that isn't a turn of its machine, a turn left out or added, two turns or their
/// steps swapped, a step with another machine's name, a step that begins elsewhere, or a stopped
/// machine that goes on. The watch stops the cell and resumes it, in turn.
pub fn wrong_runs_are_refused()
    ensures { (c : CellScales) → RunExamples c }
{}

/// A turn that an error ends leaves the motors and the belt of its machine off, and its magnets as
/// they were switched last: once its actuators are set, and once its part has moved. Later turns of
/// that machine change nothing.
#[tactic(auto, using(crate::proofs::lemmas::Resting::stopped_machines_rest))]
pub fn stopped_machines_rest()
    ensures { (c : CellScales) → StoppedMachinesRest c }
{}

/// Examples of the record of one literal run, and of wrong records: a count, a status, the start,
/// the end, an axis or a journal is wrong, a turn was made up or left out, or the run begins
/// unsafely. No turn has one record, and a crane that can't be read stops by its sensors. The
/// record of any run keeps a legal history, which leads to its end.
pub fn wrong_records_are_refused()
    ensures { (c : CellScales) (r : RunRecord) → RecordExamples c r }
{}

/// Examples of the frames of one literal run, and of wrong films: a frame shows the state or the
/// step before the turn, it shows nothing of the call, a busy turn is shown as refused or as not
/// busy, a frame is left out, shown twice or too early, or two machines' axes are swapped. An observer
/// that keeps what it is shown has these frames; one that fails is shown no more.
#[tactic(auto, using(crate::proofs::FrameRows::frame_examples))]
pub fn wrong_films_are_refused()
    ensures { FrameExamples }
{}

/// The rows of the watch's program, by examples: it begins with a stop, resumes after it, and stops
/// again. No refusal but `Stopped` makes it wait.
#[tactic(auto, using(crate::proofs::WatchRows::watch_rows))]
pub fn watch_rows_are_met()
    ensures { WatchRowsAreMet }
{}

/// In each state of a run from a start, once the actuators are set as well, the watch has noted a
/// stop exactly while the cell is stopped. So no call of the watch is refused except as worn.
#[tactic(auto, using(crate::proofs::WatchRight::watch_notes))]
pub fn watch_notes_the_mark()
    ensures { WatchNotesTheMark }
{}

/// Examples of what that law says: it speaks of both states of each step, and of each call. A note
/// that isn't the mark is refused, and so is a call of the watch that is refused as stopped.
#[tactic(auto, using(crate::proofs::NoteRows::notes_are_told))]
pub fn notes_are_told()
    ensures { NotesAreTold }
{}

/// Examples of what isn't at rest: each belt, motor and magnet.
#[tactic(auto, using(crate::proofs::RestRows::rest_is_told))]
pub fn rest_is_told()
    ensures { RestIsTold }
{}

/// Examples of gauges that give one position, and of one that doesn't; of calls that had memory; of
/// records that don't say the same, each by one thing; and of one in which a machine was refused.
#[tactic(auto, using(crate::proofs::GaugeRows::one_run_is_told))]
pub fn one_run_is_told()
    ensures { OneRunIsTold }
{}
