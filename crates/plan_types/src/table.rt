//! The rows of a plan's tables. Machines, zones, poses and places are numbers: their places in these tables, from 0.

ghost use Rattle.std.specs.Prelude.{◌≡◌};
ghost use Rattle.plan_types.specs.Table as table;

use crate::posture::Posture;
use std::marker::Model;

/// The most machines that a plan has.
pub const MAX_MACHINES: u8 = 30;

/// The most zones.
pub const MAX_ZONES: usize = 10;

/// The most poses, those of all machines together.
pub const MAX_POSES: usize = 64;

/// The most places.
pub const MAX_PLACES: usize = 16;

/// The number of the watch, which is no machine: it inquires, stops the plant and resumes it.
pub const WATCH: u8 = 30;

/// From which place a plate goes to which.
#[derive(Clone, Copy, Debug, PartialEq, Eq)]
pub struct Way {
    /// The place that it leaves.
    pub from: u8,
    /// The place that it comes to.
    pub to: u8,
}

/// A zone: a space that two machines share. Zones that join are one space, with several guests, one at a time.
#[derive(Clone, Copy, Debug, PartialEq, Eq)]
pub struct PlanZone {
    /// The machine to which it belongs, and which sets its posture.
    pub host: u8,
    /// The other machine.
    pub guest: u8,
    /// Whether it is of one space with the zone before it: the same host, and one owner.
    pub joins: bool,
    /// The way of a plate that the guest gives the host while the zone is `OpenIn`, if there is one.
    pub inward: Option<Way>,
    /// The way of a plate that the host gives the guest while the zone is `OpenOut`, if there is one.
    pub outward: Option<Way>,
}

/// A pose of a machine. It moves if it gives a zone the posture `Moving`.
#[derive(Clone, Copy, Debug, PartialEq, Eq)]
pub struct PlanPose {
    /// The machine that takes it.
    pub machine: u8,
    /// Whether it can be taken only while all zones that the machine hosts are `Moving`.
    pub after_moving: bool,
    /// The posture that it gives each zone, by the zone's number: `None` for those that it leaves.
    pub gives: [Option<Posture>; MAX_ZONES],
}

/// A place of plates, for one plate.
#[repr(C)]
#[derive(Clone, Copy, Debug, PartialEq, Eq)]
pub struct PlanPlace {
    /// The machine that keeps it.
    pub keeper: u8,
    /// Whether the machine fills it from outside.
    pub source: bool,
    /// Whether the machine empties it to outside.
    pub sink: bool,
}

impl PlanPlace {
    /// A place that no plate comes to from outside, and that none leaves for it.
    pub const fn kept_by(keeper: u8) -> PlanPlace
        ensures { result ≡ table.kept_by keeper }
    {
        PlanPlace {
            keeper,
            source: false,
            sink: false,
        }
    }
}

/// How a plate passes through a zone: who gives it, who receives it, and from which place to which.
#[derive(Clone, Copy, Debug, PartialEq, Eq)]
pub struct Transfer {
    /// The machine that gives the plate.
    pub giver: u8,
    /// The machine that receives it.
    pub receiver: u8,
    /// The place that it leaves.
    pub from: u8,
    /// The place that it comes to.
    pub to: u8,
}

/// The tables of a plan, before they are checked.
#[derive(Debug, Drop)]
pub struct Tables {
    /// How many machines there are: their numbers are those below it.
    pub machines: u8,
    /// The zones.
    pub zones: Vec<PlanZone>,
    /// The poses of all machines.
    pub poses: Vec<PlanPose>,
    /// The places of plates.
    pub places: Vec<PlanPlace>,
}

impl Model for Tables {
    ghost use Rattle.plan_types.specs.Table.{PlanTable, whole_table};

    ghost Value = { PlanTable };

    ghost view = { λ a. whole_table a.machines a.zones.items a.poses.items a.places.items };
}
