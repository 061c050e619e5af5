//! The robot as a part: arms, rotation and magnets, and what its potentiometers show.
ghost use Rattle.std.specs.Prelude.{◌≡◌};
ghost use Rattle.cell_parts.specs.Axes.{IsWithin, arm_end, rotation_end};
ghost use Rattle.cell_parts.specs.Plant.{robot_at_start};

use crate::plant::RobotPlant;
use crate::potentiometer::MeasuredAxis;
use cell_control::Part;
use cell_devices::RobotAct;
use cell_rules::State;
use cell_sensors::{RobotPoints, RobotSense};
use cell_types::{Event, Place};
use std::marker::Model;

/// The greatest extension of either arm; the least is 0.
pub const ARM_END: i32 = 1000;

/// The robot's greatest rotation; the least is 0.
pub const ROTATION_END: i32 = 2000;

/// The robot's rotation at the start.
pub const ROTATION_START: i32 = 300;

/// The robot. Its arms go from 0 to 1000, its rotation from 0 to 2000, each with a potentiometer.
/// Each arm has a magnet.
#[derive(Drop)]
pub struct RobotPart {
    arm1: MeasuredAxis,
    arm2: MeasuredAxis,
    rotation: MeasuredAxis,
    magnet1: bool,
    magnet2: bool,
}

impl Model for RobotPart {
    ghost use Rattle.cell_sensors.specs.Potentiometers.{RobotScales};
    ghost use Rattle.cell_parts.specs.Axes.{IsWithin, arm_end, rotation_end};
    ghost use Rattle.cell_parts.specs.declared.plant.RobotPlant.{RobotPlant};
    ghost use Rattle.cell_parts.specs.Plant.{Scaled};

    ghost Value = { Scaled RobotPlant RobotScales };

    ghost view = { λ r. record {
      plant = record {
        arm1 = r.arm1.axis;
        arm2 = r.arm2.axis;
        rotation = r.rotation.axis;
        magnet1 = r.magnet1;
        magnet2 = r.magnet2;
      };
      scale = record { arm1 = r.arm1.points; arm2 = r.arm2.points; rotation = r.rotation.points };
    } };

    ghost invariant = { λ r. IsWithin arm_end r.arm1.axis.position
        × (IsWithin arm_end r.arm2.axis.position × IsWithin rotation_end r.rotation.axis.position) };
}

impl RobotPart {
    /// The robot at the start: both arms are in, and the magnet of an arm with a plate is on. These
    /// are the points of its potentiometers.
    pub fn start(state: &State, points: RobotPoints) -> RobotPart
        ensures plant { result.plant ≡ robot_at_start state.now }
        ensures scale { result.scale ≡ record { arm1 = points.arm1; arm2 = points.arm2; rotation = points.rotation } }
    {
        RobotPart {
            arm1: MeasuredAxis::at_rest(0, points.arm1),
            arm2: MeasuredAxis::at_rest(0, points.arm2),
            rotation: MeasuredAxis::at_rest(ROTATION_START, points.rotation),
            magnet1: state.is_full(Place::Arm1),
            magnet2: state.is_full(Place::Arm2),
        }
    }

    /// Its axes, with their motors, and its magnets.
    pub fn plant(&self) -> RobotPlant
        ensures { result ≡ self.now.plant }
    {
        RobotPlant {
            arm1: self.arm1.axis,
            arm2: self.arm2.axis,
            rotation: self.rotation.axis,
            magnet1: self.magnet1,
            magnet2: self.magnet2,
        }
    }

    /// The first arm's extension, in tenths of a millimetre.
    pub fn arm1(&self) -> i32
        ensures value { result ≡ self.now.plant.arm1.position }
        ensures within { IsWithin arm_end result }
    {
        self.arm1.axis.position
    }

    /// The second arm's extension, in tenths of a millimetre.
    pub fn arm2(&self) -> i32
        ensures value { result ≡ self.now.plant.arm2.position }
        ensures within { IsWithin arm_end result }
    {
        self.arm2.axis.position
    }

    /// Its rotation, in tenths of a degree.
    pub fn rotation(&self) -> i32
        ensures value { result ≡ self.now.plant.rotation.position }
        ensures within { IsWithin rotation_end result }
    {
        self.rotation.axis.position
    }
}

impl Part for RobotPart {
    ghost use Rattle.cell_sensors.specs.Potentiometers.{RobotScales};
    ghost use Rattle.cell_parts.specs.declared.plant.RobotPlant.{RobotPlant};
    ghost use Rattle.cell_parts.specs.Rigs.{robot_rig};

    type Sense = RobotSense;

    type Act = RobotAct;

    ghost State = { RobotPlant };

    ghost Make = { RobotScales };

    ghost rig = { robot_rig };

    ghost make = { λ p. p.scale };

    ghost state = { λ p. p.plant };

    fn sensors(&self) -> RobotSense {
        RobotSense {
            arm1: self.arm1.raw(),
            arm2: self.arm2.raw(),
            rotation: self.rotation.raw(),
        }
    }

    fn note(&mut self, _event: &Event) {}

    fn tick(&mut self, act: &RobotAct) {
        self.arm1.tick(act.arm1, ARM_END);
        self.arm2.tick(act.arm2, ARM_END);
        self.rotation.tick(act.rotation, ROTATION_END);
        self.magnet1 = act.magnet1;
        self.magnet2 = act.magnet2;
    }
}
