//! Laws of six workers that go on over one interlock after another, each by its machine's program. Each
//! is a clause of a function that does nothing.
ghost use Rattle.cell_renewal.specs.RenewalExamples.{RenewalIsTold};
ghost use Rattle.cell_renewal.specs.RenewedRecords.{NoneIsRefusedThrough, NoneIsWornThrough};
ghost use Rattle.cell_renewal.specs.RoundExamples.{RoundsAreTold};
ghost use Rattle.cell_renewal.specs.RoundsByNumber.{RoundsByNumber};
ghost use Rattle.std.specs.Prelude.{ℕ};

use crate::going_worker::GoingWorker;
use crate::rounds::RoundSink;
use crate::wired_worker::Devices;
use cell_belts_crane::{CraneProgram, DepositProgram, FeedProgram};
use cell_devices::{CraneAct, DepositAct, FeedAct, PressAct, RobotAct, TableAct};
use cell_robot::RobotProgram;
use cell_sensors::{
    CraneSense, DepositSense, FeedSense, Gauge, PressSense, RobotSense, TableSense,
};
use cell_table_press::{PressProgram, TableProgram};
use cell_threads::{Gate, SixOf, Watching};

/// What `run_renewed` says of six `GoingWorker`s by the six programs, whatever else it says. From a
/// start none ends as refused, in any round. None ends as worn, if all six run at first, the first
/// interlock opens with a stamp up to the mark, and the mark leaves room: for one change in each of
/// the six machines' turns of a round, and for the calls of the watch.
pub fn renewed_records_tell<F1, F2, F3, F4, F5, D1, D2, D3, D4, D5, D6, H, G, S>(
    _workers: &SixOf<
        GoingWorker<FeedProgram, D1>,
        GoingWorker<TableProgram<F4>, D2>,
        GoingWorker<RobotProgram<F1, F2, F3>, D3>,
        GoingWorker<PressProgram, D4>,
        GoingWorker<DepositProgram, D5>,
        GoingWorker<CraneProgram<F5>, D6>,
    >,
    _watch: &H,
    _gate: &G,
    _sink: &S,
)
where
    F1: Gauge,
    F2: Gauge,
    F3: Gauge,
    F4: Gauge,
    F5: Gauge,
    D1: Devices<Sense = FeedSense, Act = FeedAct>,
    D2: Devices<Sense = TableSense, Act = TableAct>,
    D3: Devices<Sense = RobotSense, Act = RobotAct>,
    D4: Devices<Sense = PressSense, Act = PressAct>,
    D5: Devices<Sense = DepositSense, Act = DepositAct>,
    D6: Devices<Sense = CraneSense, Act = CraneAct>,
    H: Watching,
    G: Gate,
    S: RoundSink,
    ensures none_refused { NoneIsRefusedThrough D1.shows D1.sets D2.shows D2.sets D3.shows D3.sets
        D4.shows D4.sets D5.shows D5.sets D6.shows D6.sets H.watches S.takes (G.may_answer _gate.now) _workers.now }
    ensures none_worn { NoneIsWornThrough D1.shows D1.sets D2.shows D2.sets D3.shows D3.sets
        D4.shows D4.sets D5.shows D5.sets D6.shows D6.sets H.watches S.takes (G.may_answer _gate.now) _workers.now }
{}

/// Examples: a stamp that goes on or begins again, by the mark; a mark that leaves room, and one that
/// doesn't; six workers of which one isn't fine, or doesn't go on; a machine that goes on elsewhere.
#[tactic(auto, using(crate::proofs::RenewalRows::renewal_is_told))]
pub fn renewal_is_told()
    ensures { RenewalIsTold }
{}

/// Examples of what isn't a round: the sink hasn't taken what was noted, the watch hasn't watched, or
/// the next round begins with another; and all six ended fine in the last one.
#[tactic(auto, using(crate::proofs::RoundRows::rounds_are_told))]
pub fn rounds_are_told()
    ensures { RoundsAreTold }
{}

/// Rounds of six workers and a watch, whatever the tries, the turns and the mark are: each is told
/// them, what each gave back is left, the next interlock opens with a stamp up to the mark, and each
/// round but the last leaves all six fine.
pub fn rounds_by_number()
    ensures { (tries limit mark : ℕ) → RoundsByNumber tries limit mark }
{}
