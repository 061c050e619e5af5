//! Runs a schedule on a cell over a bench.

ghost use Rattle.std.specs.Prelude.{◌≡◌, [], IsOk, IfOk, IfErr};
ghost use Rattle.cell_types.specs.declared.machine.Machine.{Machine};
ghost use Rattle.cell_rules.specs.Start.{IsStartState};
ghost use Rattle.cell_notes.specs.Notes.{HasRoom};
ghost use Rattle.cell_parts.specs.Axes.{AreCellScales};
ghost use Rattle.cell_plant.specs.Cells.{IsMadeFor, TellsRun, cell_gauges, cell_scales, five_gauges};
ghost use Rattle.cell_plant.specs.CellStates.{plant_of, statuses_in};
ghost use Rattle.cell_plant.specs.Frames.{SeesRun, SeesBeginning, frame_of};
ghost use Rattle.cell_plant.specs.Moments.{IsRecordSoFar, StepsOn, first_moment, state_at};
ghost use Rattle.cell_notes.specs.ByMachine.{at_machine};
ghost use Rattle.cell_plant.specs.Records.{NoneRefused, positions_in};
ghost use Rattle.cell_plant.specs.Simulations.{given_by};

use crate::cell::Cell;
use crate::frame::{Frame, MachineSteps};
use crate::notebooks::{Notebooks, counts_in, empty_notebooks, journals_of};
use crate::observer::{NoObserver, Observer, SeenFault};
use crate::watch::{WatchUnit, watch_at_start};
use cell_notes::{ByMachine, RunRecord, Status, Turn, TurnCall};
use cell_parts::PlantState;
use cell_rules::{Bench, State};
use cell_sensors::Gauge;
use cell_types::Machine;
use cell_unit::{SimFault, take_bench_turn};
use std::alloc::Global;
use std::marker::Model;
use std::mem;

/// Runs a schedule on a cell that was made for a start, over a bench that opens with this start. In
/// a turn the controller of the turn's machine takes a step, and then its part moves for a tick;
/// the other parts rest.
///
/// A turn whose `busy` is set finds the bench busy. In its turns the watch stops the cell and
/// resumes it, and moves nothing. A turn of a machine that has stopped does nothing and isn't
/// counted. If the bench has no room for a machine's call, that machine stops with
/// `Status::Memory`, and the run goes on.
///
/// `Memory` if there is no memory for a journal's next entry, which is allocated before each turn.
/// A run of no turn succeeds.
pub fn simulate<F1: Gauge, F2: Gauge, F3: Gauge, F4: Gauge, F5: Gauge>(
    alloc: Global,
    cell: Cell<F1, F2, F3, F4, F5>,
    opening: State,
    turns: &[Turn],
) -> Result<RunRecord, SimFault>
    requires start { IsStartState opening }
    requires made { IsMadeFor opening cell }
    requires scales { AreCellScales (cell_scales cell) }
    ensures run { IfOk result (TellsRun (cell_scales cell) (cell_gauges cell) opening turns.now) }
    ensures none_refused { IfOk result NoneRefused }
    ensures no_turn { turns.now ≡ [] → IsOk result }
{
    match simulate_observed(alloc, cell, opening, turns, &mut NoObserver) {
        Ok(record) => Ok(record),
        Err(SeenFault::Memory) => Err(SimFault::Memory),
        Err(SeenFault::Observer(never)) => match never {},
    }
}

/// Does what `simulate` does, and shows it to an observer: a frame of the start, and then one after
/// each turn, also after a turn that isn't taken.
///
/// Errors:
/// - `Memory` as in `simulate`; the observer has seen the turns before.
/// - `Observer` if the observer fails; it is shown nothing more.
pub fn simulate_observed<F1: Gauge, F2: Gauge, F3: Gauge, F4: Gauge, F5: Gauge, W: Observer>(
    alloc: Global,
    cell: Cell<F1, F2, F3, F4, F5>,
    opening: State,
    turns: &[Turn],
    observer: &mut W,
) -> Result<RunRecord, SeenFault<W::Fault>>
    requires start { IsStartState opening }
    requires made { IsMadeFor opening cell }
    requires scales { AreCellScales (cell_scales cell) }
    ensures run { IfOk result (SeesRun W.sees (cell_scales cell)
        (cell_gauges cell) opening turns.now observer.old observer.new) }
    ensures ended { IfErr result (SeesBeginning W.sees (cell_scales cell)
        (cell_gauges cell) opening turns.now observer.old observer.new) }
{
    let mut simulation = Simulation::new(alloc, cell, opening);
    simulation.run(alloc, opening, turns, observer)
}

// A cell that runs over a bench under its watch, and what the machines note. As a value it is a
// moment of a run: the controllers' progress follows from their events.
#[derive(Drop)]
struct Simulation<F1: Gauge, F2: Gauge, F3: Gauge, F4: Gauge, F5: Gauge> {
    cell: Cell<F1, F2, F3, F4, F5>,
    watch: WatchUnit,
    bench: Bench,
    notebooks: Notebooks,
}

impl<F1: Gauge, F2: Gauge, F3: Gauge, F4: Gauge, F5: Gauge> Model
    for Simulation<F1, F2, F3, F4, F5> {
    ghost use Rattle.cell_plant.specs.Moments.{RunMoment};
    ghost use Rattle.cell_plant.specs.Cells.{FiveGauges};

    ghost Value = { RunMoment (FiveGauges F1 F2 F3 F4 F5) };

    ghost use Rattle.cell_plant.specs.Simulations.{moment_of, AreReady};

    ghost view = { λ s. moment_of s };

    ghost invariant = { λ s. AreReady
        (record { arm1 = F1.gives; arm2 = F2.gives; rotation = F3.gives; turn = F4.gives; gripper = F5.gives }) s };
}

impl<F1: Gauge, F2: Gauge, F3: Gauge, F4: Gauge, F5: Gauge> Simulation<F1, F2, F3, F4, F5> {
    // A simulation before its first turn. It allocates nothing.
    fn new(alloc: Global, cell: Cell<F1, F2, F3, F4, F5>, opening: State) -> Self
        requires made { IsMadeFor opening cell }
        ensures { result ≡ first_moment (cell_scales cell) (five_gauges cell) opening }
    {
        Simulation {
            cell,
            watch: watch_at_start(&opening),
            bench: Bench::new(alloc, opening),
            notebooks: empty_notebooks(alloc),
        }
    }

    // Takes the turns of a schedule before an observer, which sees the start first. Returns the record
    // of the run.
    #[inline(always)]
    fn run<W: Observer>(
        &mut self,
        alloc: Global,
        opening: State,
        turns: &[Turn],
        observer: &mut W,
    ) -> Result<RunRecord, SeenFault<W::Fault>>
        requires begins { self.old ≡ first_moment self.old.scales self.old.gauges opening }
        requires start { IsStartState opening }
        requires scales { AreCellScales self.old.scales }
        ensures run { IfOk result (SeesRun W.sees self.old.scales (given_by
            (record { arm1 = F1.gives; arm2 = F2.gives; rotation = F3.gives; turn = F4.gives; gripper = F5.gives })
            self.old.gauges) opening turns.now observer.old observer.new) }
        ensures ended { IfErr result (SeesBeginning W.sees self.old.scales (given_by
            (record { arm1 = F1.gives; arm2 = F2.gives; rotation = F3.gives; turn = F4.gives; gripper = F5.gives })
            self.old.gauges) opening turns.now observer.old observer.new) }
    {
        if let Err(fault) = self.show(None, None, observer) {
            return Err(SeenFault::Observer(fault));
        }
        'turns: for turn in turns {
            let Ok(asked) = self.turn(*turn) else {
                return Err(SeenFault::Memory);
            };
            if let Err(fault) = self.show(Some(*turn), asked, observer) {
                return Err(SeenFault::Observer(fault));
            }
        }
        Ok(self.take_record(alloc, opening))
    }

    // One turn of the schedule: what was asked. It is called in one loop, and inlined there.
    #[inline(always)]
    fn turn(&mut self, turn: Turn) -> Result<TurnCall, SimFault>
        requires room { (m : Machine) → HasRoom (at_machine self.old.notes m).counts }
        ensures { IfOk result (StepsOn
            (given_by (record {
              arm1 = F1.gives;
              arm2 = F2.gives;
              rotation = F3.gives;
              turn = F4.gives;
              gripper = F5.gives;
            }))
            turn self.old self.new) }
    {
        let bench = &mut self.bench;
        let notes = &mut self.notebooks;
        let Turn { machine, busy } = turn;
        match machine {
            Machine::Feed => {
                take_bench_turn(bench, &mut notes.feed, &mut self.cell.feed, machine, busy)
            }
            Machine::Table => {
                take_bench_turn(bench, &mut notes.table, &mut self.cell.table, machine, busy)
            }
            Machine::Robot => {
                take_bench_turn(bench, &mut notes.robot, &mut self.cell.robot, machine, busy)
            }
            Machine::Press => {
                take_bench_turn(bench, &mut notes.press, &mut self.cell.press, machine, busy)
            }
            Machine::Deposit => {
                take_bench_turn(
                    bench,
                    &mut notes.deposit,
                    &mut self.cell.deposit,
                    machine,
                    busy,
                )
            }
            Machine::Crane => {
                take_bench_turn(bench, &mut notes.crane, &mut self.cell.crane, machine, busy)
            }
            Machine::Watch => {
                take_bench_turn(bench, &mut notes.watch, &mut self.watch, machine, busy)
            }
        }
    }

    // Shows an observer the state after this turn. For one that doesn't look, no frame is made.
    #[inline(always)]
    fn show<W: Observer>(
        &self,
        turn: Option<Turn>,
        asked: TurnCall,
        observer: &mut W,
    ) -> Result<(), W::Fault>
        ensures { W.sees observer.old (frame_of turn asked (state_at self.now)) result observer.new }
    {
        if W::LOOKS {
            observer.see(&self.frame(turn, asked))
        } else {
            Ok(())
        }
    }

    // The frame after this turn.
    fn frame(&self, turn: Option<Turn>, asked: TurnCall) -> Frame
        ensures { result ≡ frame_of turn asked (state_at self.now) }
    {
        let cell = &self.cell;
        Frame {
            turn,
            asked,
            steps: MachineSteps {
                feed: cell.feed.controller.progress().step,
                table: cell.table.controller.progress().step,
                robot: cell.robot.controller.progress().step,
                press: cell.press.controller.progress().step,
                deposit: cell.deposit.controller.progress().step,
                crane: cell.crane.controller.progress().step,
            },
            status: self.status(),
            state: self.bench.state(),
            plant: self.plant(),
        }
    }

    // The parts of the six machines.
    fn plant(&self) -> PlantState
        ensures { result ≡ plant_of (state_at self.now) }
    {
        PlantState {
            feed: self.cell.feed.part.belt,
            table: self.cell.table.part.plant(),
            robot: self.cell.robot.part.plant(),
            press: self.cell.press.part.plant(),
            deposit: self.cell.deposit.part.belt,
            crane: self.cell.crane.part.plant(),
        }
    }

    // The record of the run so far. It takes the journals: no notebook has one after that.
    fn take_record(&mut self, alloc: Global, start: State) -> RunRecord
        ensures { IsRecordSoFar self.old start result }
    {
        let status = self.status().in_order();
        let axes = axes_of(&self.plant());
        let counts = counts_in(&self.notebooks);
        let notebooks = mem::replace(&mut self.notebooks, empty_notebooks(alloc));
        RunRecord {
            start,
            counts,
            status,
            end: Some(self.bench.state()),
            axes,
            journals: journals_of(notebooks),
        }
    }

    // The status of each machine.
    fn status(&self) -> ByMachine<Status>
        ensures { result ≡ statuses_in (state_at self.now) }
    {
        ByMachine {
            feed: self.cell.feed.status(),
            table: self.cell.table.status(),
            robot: self.cell.robot.status(),
            press: self.cell.press.status(),
            deposit: self.cell.deposit.status(),
            crane: self.cell.crane.status(),
            watch: self.watch.status(),
        }
    }
}

// The positions of the axes, in the order of reports.
fn axes_of(plant: &PlantState) -> [i32; 8]
    ensures { result ≡ positions_in plant.now }
{
    [
        plant.press.position,
        plant.robot.arm1.position,
        plant.robot.arm2.position,
        plant.robot.rotation.position,
        plant.table.lift.position,
        plant.table.turn.position,
        plant.crane.travel.position,
        plant.crane.gripper.position,
    ]
}
