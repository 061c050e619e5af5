//! Six machines, one after another, each of which begins where 14 bytes say.
ghost use Rattle.std.specs.Prelude.{◌≡◌};

use crate::resume::plant::Plant;
use cell_belts_crane::CraneProgram;
use cell_control::{Controller, Program};
use cell_resume::{Checkpoint, CheckpointBytes, ResumedCell, Team, resume_at};
use cell_robot::RobotProgram;
use cell_rules::{Bench, Line, State};
use cell_sensors::{Calibration, Gauge, Points, position_on_line};
use cell_table_press::TableProgram;
use cell_types::Machine;
use std::alloc::Global;

/// One turn of the machine with this number, in the order of reports, which goes on from these bytes: what is stored
/// after it. A potentiometer's raw value is the position. `None` if the bytes are refused, or the machine stops.
pub fn go_on(
    alloc: Global,
    bytes: CheckpointBytes,
    plant: &mut Plant,
    machine: usize,
) -> Option<CheckpointBytes> {
    let points = Points::new(0, 2000, 0, 2000, 5).ok()?;
    let gauge = move |raw: u16| position_on_line(&points, raw);
    match resume_at(bytes) {
        Ok(cell) => go_on_by(alloc, &cell, gauge, points, plant, machine),
        Err(_) => None,
    }
}

fn go_on_by<F: Gauge + Copy>(
    alloc: Global,
    cell: &ResumedCell,
    gauge: F,
    points: Points,
    plant: &mut Plant,
    machine: usize,
) -> Option<CheckpointBytes>
    requires { F.keeps gauge points }
{
    let mut team = cell.team();
    let after = match machine {
        0 => feed_turn(alloc, cell, &mut team, plant),
        1 => table_turn(alloc, cell, gauge, points, &mut team, plant),
        2 => robot_turn(alloc, cell, gauge, points, &mut team, plant),
        3 => press_turn(alloc, cell, &mut team, plant),
        4 => deposit_turn(alloc, cell, &mut team, plant),
        _ => crane_turn(alloc, cell, gauge, points, &mut team, plant),
    };
    match after {
        Some(state) => Some(Checkpoint::of(&state, &team).to_bytes()),
        None => None,
    }
}

// A turn of each machine: the state after it. `None` if it stops.
fn feed_turn(
    alloc: Global,
    cell: &ResumedCell,
    team: &mut Team,
    plant: &mut Plant,
) -> Option<State> {
    let program = cell.feed();
    let sense = plant.feed_sense();
    let (act, step, state) = turn_of(alloc, cell.state(), Machine::Feed, program, sense)?;
    plant.set_feed(act);
    team.feed = step;
    Some(state)
}

fn table_turn<F: Gauge + Copy>(
    alloc: Global,
    cell: &ResumedCell,
    gauge: F,
    points: Points,
    team: &mut Team,
    plant: &mut Plant,
) -> Option<State>
    requires { F.keeps gauge points }
{
    let program = cell.table(TableProgram::new(Calibration::new(gauge, points)));
    let sense = plant.table_sense();
    let (act, step, state) = turn_of(alloc, cell.state(), Machine::Table, program, sense)?;
    plant.set_table(act);
    team.table = step;
    Some(state)
}

fn robot_turn<F: Gauge + Copy>(
    alloc: Global,
    cell: &ResumedCell,
    gauge: F,
    points: Points,
    team: &mut Team,
    plant: &mut Plant,
) -> Option<State>
    requires { F.keeps gauge points }
{
    let program = cell.robot(RobotProgram::new(
        Calibration::new(gauge, points),
        Calibration::new(gauge, points),
        Calibration::new(gauge, points),
    ));
    let sense = plant.robot_sense();
    let (act, step, state) = turn_of(alloc, cell.state(), Machine::Robot, program, sense)?;
    plant.set_robot(act);
    team.robot = step;
    Some(state)
}

fn press_turn(
    alloc: Global,
    cell: &ResumedCell,
    team: &mut Team,
    plant: &mut Plant,
) -> Option<State> {
    let program = cell.press();
    let sense = plant.press_sense();
    let (act, step, state) = turn_of(alloc, cell.state(), Machine::Press, program, sense)?;
    plant.set_press(act);
    team.press = step;
    Some(state)
}

fn deposit_turn(
    alloc: Global,
    cell: &ResumedCell,
    team: &mut Team,
    plant: &mut Plant,
) -> Option<State> {
    let program = cell.deposit();
    let sense = plant.deposit_sense();
    let (act, step, state) = turn_of(alloc, cell.state(), Machine::Deposit, program, sense)?;
    plant.set_deposit(act);
    team.deposit = step;
    Some(state)
}

fn crane_turn<F: Gauge + Copy>(
    alloc: Global,
    cell: &ResumedCell,
    gauge: F,
    points: Points,
    team: &mut Team,
    plant: &mut Plant,
) -> Option<State>
    requires { F.keeps gauge points }
{
    let program = cell.crane(CraneProgram::new(Calibration::new(gauge, points)));
    let sense = plant.crane_sense();
    let (act, step, state) = turn_of(alloc, cell.state(), Machine::Crane, program, sense)?;
    plant.set_crane(act);
    team.crane = step;
    Some(state)
}

// One turn of a machine over a bench that opens with a state: what its actuators are told, its step, and the state
// after it. `None` if it stops. It has no clauses, so the six machines don't carry those of a turn.
fn turn_of<P: Program>(
    alloc: Global,
    state: State,
    machine: Machine,
    program: P,
    sense: P::Sense,
) -> Option<(P::Act, P::Progress, State)>
    requires { machine ≡ (P.steps program).machine }
{
    let mut controller = Controller::new(&state, program);
    let mut bench = Bench::new(alloc, state);
    bench.seat(machine, false);
    match controller.turn(&mut bench, &sense) {
        Ok(act) => Some((act, controller.progress(), bench.state())),
        Err(_) => None,
    }
}
