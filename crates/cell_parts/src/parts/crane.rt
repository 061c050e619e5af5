//! The crane as a part: travel, gripper and magnet, and what its sensors show.
ghost use Rattle.std.specs.Prelude.{◌≡◌};
ghost use Rattle.cell_parts.specs.Axes.{IsWithin, crane_end, gripper_end};
ghost use Rattle.cell_parts.specs.Plant.{crane_at_start};

use crate::axis::Axis;
use crate::plant::CranePlant;
use crate::potentiometer::MeasuredAxis;
use cell_control::Part;
use cell_devices::CraneAct;
use cell_rules::State;
use cell_sensors::{CraneSense, Points};
use cell_types::{Event, Place};
use std::marker::Model;

/// The end of the crane's travel, over the feed belt; 0 is over the deposit belt.
pub const CRANE_END: i32 = 2000;

/// The gripper's greatest height; the least is 0.
pub const GRIPPER_END: i32 = 1000;

/// The gripper's height at the start.
pub const GRIPPER_START: i32 = 900;

/// The last travel at which the switch over the deposit belt is on.
pub const CRANE_DEPOSIT_TO: i32 = 10;

/// The first travel at which the switch over the feed belt is on.
pub const CRANE_FEED_FROM: i32 = 1990;

/// The crane. Its travel goes from 0, over the deposit belt, to 2000, over the feed belt, with a
/// switch at each end. Its gripper's height goes from 0 to 1000, with a potentiometer. Its gripper
/// has a magnet.
#[derive(Drop)]
pub struct CranePart {
    travel: Axis,
    gripper: MeasuredAxis,
    magnet: bool,
}

impl Model for CranePart {
    ghost use Rattle.cell_sensors.specs.Scale.{Scale};
    ghost use Rattle.cell_parts.specs.Axes.{IsWithin, crane_end, gripper_end};
    ghost use Rattle.cell_parts.specs.declared.plant.CranePlant.{CranePlant};
    ghost use Rattle.cell_parts.specs.Plant.{Scaled};

    ghost Value = { Scaled CranePlant Scale };

    ghost view = { λ c. record {
      plant = record { travel = c.travel; gripper = c.gripper.axis; magnet = c.magnet };
      scale = c.gripper.points;
    } };

    ghost invariant = { λ c. IsWithin crane_end c.travel.position × IsWithin gripper_end c.gripper.axis.position };
}

impl CranePart {
    /// The crane at the start: over the deposit belt, with its gripper high. Its magnet is on if it
    /// has a plate. These are the points of its potentiometer.
    pub fn start(state: &State, points: Points) -> CranePart
        ensures plant { result.plant ≡ crane_at_start state.now }
        ensures scale { result.scale ≡ points }
    {
        CranePart {
            travel: Axis::at_rest(0),
            gripper: MeasuredAxis::at_rest(GRIPPER_START, points),
            magnet: state.is_full(Place::Crane),
        }
    }

    /// Its axes, with their motors, and its magnet.
    pub fn plant(&self) -> CranePlant
        ensures { result ≡ self.now.plant }
    {
        CranePlant {
            travel: self.travel,
            gripper: self.gripper.axis,
            magnet: self.magnet,
        }
    }

    /// Its distance from the deposit belt, in tenths of a millimetre.
    pub fn travel(&self) -> i32
        ensures value { result ≡ self.now.plant.travel.position }
        ensures within { IsWithin crane_end result }
    {
        self.travel.position
    }

    /// Its gripper's height, in tenths of a millimetre.
    pub fn gripper(&self) -> i32
        ensures value { result ≡ self.now.plant.gripper.position }
        ensures within { IsWithin gripper_end result }
    {
        self.gripper.axis.position
    }
}

impl Part for CranePart {
    ghost use Rattle.cell_sensors.specs.Scale.{Scale};
    ghost use Rattle.cell_parts.specs.declared.plant.CranePlant.{CranePlant};
    ghost use Rattle.cell_parts.specs.Rigs.{crane_rig};

    type Sense = CraneSense;

    type Act = CraneAct;

    ghost State = { CranePlant };

    ghost Make = { Scale };

    ghost rig = { crane_rig };

    ghost make = { λ p. p.scale };

    ghost state = { λ p. p.plant };

    fn sensors(&self) -> CraneSense {
        let travel = self.travel.position;
        CraneSense {
            deposit: travel <= CRANE_DEPOSIT_TO,
            feed: CRANE_FEED_FROM <= travel,
            gripper: self.gripper.raw(),
        }
    }

    fn note(&mut self, _event: &Event) {}

    fn tick(&mut self, act: &CraneAct) {
        self.travel = self.travel.set(act.travel).after_tick(CRANE_END);
        self.gripper.tick(act.height, GRIPPER_END);
        self.magnet = act.magnet;
    }
}
