//! The parts of the machines, as texts.

ghost use Rattle.std.specs.Prelude.{◌≡◌, Some, IfOk, string_bytes};
ghost use Rattle.cell_types.specs.Answers.{flag_word};
ghost use Rattle.film_app.specs.Fields as fields;

use cell_devices::Motor;
use cell_parts::{Axis, Belt, CranePlant, PlantState, RobotPlant, TablePlant};
use cell_types::Machine;
use std::alloc::{AllocError, Global};
use std::fmt;

/// A part of the plant, formatted for a film's line.
#[derive(Clone, Copy)]
struct Shown<T>(T);

/// Which way a motor drives: nothing while it is off.
fn motor_text(motor: Motor) -> &'static str
    ensures { result.now ≡ fields.motor_text motor }
{
    match motor {
        Motor::Off => "",
        Motor::Plus => "+",
        Motor::Minus => "-",
    }
}

/// A switch: 1 if it is on.
fn switch_text(on: bool) -> &'static str
    ensures { result.now ≡ flag_word on }
{
    if on { "1" } else { "0" }
}

impl fmt::Display for Shown<Axis> {
    ghost output = { λ axis. Some (fields.axis_text axis.0) };

    fn fmt<W: fmt::Write>(&self, f: &mut fmt::Formatter<W>) -> fmt::Result {
        let position = self.0.position;
        let motor = motor_text(self.0.motor);
        write!(f, "{position}{motor}")
    }
}

// The position of a plate, if there is one.
impl fmt::Display for Shown<Option<i32>> {
    ghost output = { λ plate. Some (fields.plate_text plate.0) };

    fn fmt<W: fmt::Write>(&self, f: &mut fmt::Formatter<W>) -> fmt::Result {
        match self.0 {
            None => f.write_str(""),
            Some(position) => write!(f, "{position}"),
        }
    }
}

impl fmt::Display for Shown<Belt> {
    ghost output = { λ belt. Some (fields.belt_text belt.0) };

    fn fmt<W: fmt::Write>(&self, f: &mut fmt::Formatter<W>) -> fmt::Result {
        let entry = Shown(self.0.entry);
        let last = Shown(self.0.last);
        let runs = switch_text(self.0.runs);
        write!(f, "{entry},{last},{runs}")
    }
}

impl fmt::Display for Shown<TablePlant> {
    ghost output = { λ table. Some (fields.table_text table.0) };

    fn fmt<W: fmt::Write>(&self, f: &mut fmt::Formatter<W>) -> fmt::Result {
        let lift = Shown(self.0.lift);
        let turn = Shown(self.0.turn);
        write!(f, "{lift},{turn}")
    }
}

impl fmt::Display for Shown<RobotPlant> {
    ghost output = { λ robot. Some (fields.robot_text robot.0) };

    fn fmt<W: fmt::Write>(&self, f: &mut fmt::Formatter<W>) -> fmt::Result {
        let arm1 = Shown(self.0.arm1);
        let arm2 = Shown(self.0.arm2);
        let rotation = Shown(self.0.rotation);
        let magnet1 = switch_text(self.0.magnet1);
        let magnet2 = switch_text(self.0.magnet2);
        write!(f, "{arm1},{arm2},{rotation},{magnet1},{magnet2}")
    }
}

impl fmt::Display for Shown<CranePlant> {
    ghost output = { λ crane. Some (fields.crane_text crane.0) };

    fn fmt<W: fmt::Write>(&self, f: &mut fmt::Formatter<W>) -> fmt::Result {
        let travel = Shown(self.0.travel);
        let gripper = Shown(self.0.gripper);
        let magnet = switch_text(self.0.magnet);
        write!(f, "{travel},{gripper},{magnet}")
    }
}

/// The text of a machine's part. The watch has none.
pub(crate) fn part_text(
    alloc: Global,
    machine: Machine,
    plant: &PlantState,
) -> Result<String, AllocError>
    ensures { IfOk result (λ text. string_bytes text ≡ fields.part_text machine plant.now) }
{
    match machine {
        Machine::Feed => belt_text(alloc, plant.feed),
        Machine::Table => table_text(alloc, plant.table),
        Machine::Robot => robot_text(alloc, plant.robot),
        Machine::Press => axis_text(alloc, plant.press),
        Machine::Deposit => belt_text(alloc, plant.deposit),
        Machine::Crane => crane_text(alloc, plant.crane),
        Machine::Watch => Ok(String::new(alloc)),
    }
}

/// The text of a belt.
fn belt_text(alloc: Global, belt: Belt) -> Result<String, AllocError>
    ensures { IfOk result (λ text. string_bytes text ≡ fields.belt_text belt) }
{
    let shown = Shown(belt);
    format!(in alloc; "{shown}")
}

/// The text of the table.
fn table_text(alloc: Global, table: TablePlant) -> Result<String, AllocError>
    ensures { IfOk result (λ text. string_bytes text ≡ fields.table_text table) }
{
    let shown = Shown(table);
    format!(in alloc; "{shown}")
}

/// The text of the robot.
fn robot_text(alloc: Global, robot: RobotPlant) -> Result<String, AllocError>
    ensures { IfOk result (λ text. string_bytes text ≡ fields.robot_text robot) }
{
    let shown = Shown(robot);
    format!(in alloc; "{shown}")
}

/// The text of an axis.
fn axis_text(alloc: Global, axis: Axis) -> Result<String, AllocError>
    ensures { IfOk result (λ text. string_bytes text ≡ fields.axis_text axis) }
{
    let shown = Shown(axis);
    format!(in alloc; "{shown}")
}

/// The text of the crane.
fn crane_text(alloc: Global, crane: CranePlant) -> Result<String, AllocError>
    ensures { IfOk result (λ text. string_bytes text ≡ fields.crane_text crane) }
{
    let shown = Shown(crane);
    format!(in alloc; "{shown}")
}
