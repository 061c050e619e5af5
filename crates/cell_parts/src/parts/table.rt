//! The table as a part: height and rotation, and what its sensors show.
ghost use Rattle.std.specs.Prelude.{◌≡◌};
ghost use Rattle.cell_parts.specs.Axes.{IsWithin, lift_end, turn_end};
ghost use Rattle.cell_parts.specs.Plant.{table_at_start};

use crate::axis::Axis;
use crate::plant::TablePlant;
use crate::potentiometer::MeasuredAxis;
use cell_control::Part;
use cell_devices::TableAct;
use cell_sensors::{Points, TableSense};
use cell_types::Event;
use std::marker::Model;

/// The table's greatest height; the least is 0.
pub const LIFT_END: i32 = 600;

/// The table's greatest rotation; the least is 0.
pub const TURN_END: i32 = 500;

/// The greatest height at which the switch at the bottom is on.
pub const TABLE_BOTTOM_TO: i32 = 10;

/// The least height at which the switch at the top is on.
pub const TABLE_TOP_FROM: i32 = 590;

/// The table. Its height goes from 0 to 600, with a switch at each end; its rotation goes from 0 to
/// 500, with a potentiometer.
#[derive(Drop)]
pub struct TablePart {
    lift: Axis,
    turn: MeasuredAxis,
}

impl Model for TablePart {
    ghost use Rattle.cell_sensors.specs.Scale.{Scale};
    ghost use Rattle.cell_parts.specs.Axes.{IsWithin, lift_end, turn_end};
    ghost use Rattle.cell_parts.specs.declared.plant.TablePlant.{TablePlant};
    ghost use Rattle.cell_parts.specs.Plant.{Scaled};

    ghost Value = { Scaled TablePlant Scale };

    ghost view = { λ t. record { plant = record { lift = t.lift; turn = t.turn.axis }; scale = t.turn.points } };

    ghost invariant = { λ t. IsWithin lift_end t.lift.position × IsWithin turn_end t.turn.axis.position };
}

impl TablePart {
    /// The table at the start: at its bottom, rotated to its loading place. These are the points of
    /// its potentiometer.
    pub fn start(points: Points) -> TablePart
        ensures plant { result.plant ≡ table_at_start }
        ensures scale { result.scale ≡ points }
    {
        TablePart {
            lift: Axis::at_rest(0),
            turn: MeasuredAxis::at_rest(0, points),
        }
    }

    /// Its axes, with their motors.
    pub fn plant(&self) -> TablePlant
        ensures { result ≡ self.now.plant }
    {
        TablePlant {
            lift: self.lift,
            turn: self.turn.axis,
        }
    }

    /// Its height, in tenths of a millimetre.
    pub fn lift(&self) -> i32
        ensures value { result ≡ self.now.plant.lift.position }
        ensures within { IsWithin lift_end result }
    {
        self.lift.position
    }

    /// Its rotation, in tenths of a degree.
    pub fn turn(&self) -> i32
        ensures value { result ≡ self.now.plant.turn.position }
        ensures within { IsWithin turn_end result }
    {
        self.turn.axis.position
    }
}

impl Part for TablePart {
    ghost use Rattle.cell_sensors.specs.Scale.{Scale};
    ghost use Rattle.cell_parts.specs.declared.plant.TablePlant.{TablePlant};
    ghost use Rattle.cell_parts.specs.Rigs.{table_rig};

    type Sense = TableSense;

    type Act = TableAct;

    ghost State = { TablePlant };

    ghost Make = { Scale };

    ghost rig = { table_rig };

    ghost make = { λ p. p.scale };

    ghost state = { λ p. p.plant };

    fn sensors(&self) -> TableSense {
        let height = self.lift.position;
        TableSense {
            bottom: height <= TABLE_BOTTOM_TO,
            top: TABLE_TOP_FROM <= height,
            turn: self.turn.raw(),
        }
    }

    fn note(&mut self, _event: &Event) {}

    fn tick(&mut self, act: &TableAct) {
        self.lift = self.lift.set(act.height).after_tick(LIFT_END);
        self.turn.tick(act.rotation, TURN_END);
    }
}
