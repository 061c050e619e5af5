//! The rows of a plant, before they are laid out on words. Machines, zones, poses and places are numbers: their places
//! in these tables, from 0.
ghost use Rattle.std.specs.Prelude.{◌≡◌, get_or, length, None};
ghost use Rattle.std.specs.List.{list_any};
ghost use Rattle.plan_types.specs.Table as table;
ghost use Rattle.plan_types.specs.Table.{is_moving};

use plan_types::{PlanPlace, PlanZone, Posture};
use std::marker::Model;

/// The most machines of a plant.
pub const MAX_PLANT_MACHINES: u8 = 30;

/// The most zones of a plant.
pub const MAX_PLANT_ZONES: usize = 40;

/// The most poses of a plant, those of all machines together.
pub const MAX_PLANT_POSES: usize = 255;

/// The most places of a plant, those that a cut adds too.
pub const MAX_PLANT_PLACES: usize = 255;

/// The most words of a plant.
pub const MAX_WORDS: usize = 16;

const NO_ZONE: PlanZone = PlanZone {
    host: 0,
    guest: 0,
    joins: false,
    inward: None,
    outward: None,
};

const NO_PLACE: PlanPlace = PlanPlace {
    keeper: 0,
    source: false,
    sink: false,
};

/// A pose of a machine. It moves if it gives a zone the posture `Moving`.
#[derive(Clone, Copy, Debug)]
pub struct PlantPose {
    /// The machine that takes it.
    pub machine: u8,
    /// Whether it can be taken only while all zones that the machine hosts are `Moving`.
    pub after_moving: bool,
    /// The posture that it gives each zone, by the zone's number: `None` for those that it leaves.
    pub gives: [Option<Posture>; MAX_PLANT_ZONES],
}

impl Model for PlantPose {
    ghost use Rattle.plan_types.specs.declared.table.PlanPose.{PlanPose};

    ghost Value = { PlanPose };

    ghost view = { λ a.
        record { machine = a.machine; after_moving = a.after_moving; gives = a.gives } };

    ghost use Rattle.std.specs.Prelude.{◌≡◌, length};

    ghost invariant = { λ a. length a.gives ≡ 40 };

    ghost inverse = { λ v.
        record { machine = v.machine; after_moving = v.after_moving; gives = v.gives } };
}

impl PlantPose {
    /// The posture that it gives a zone, if it gives it one.
    pub(crate) fn posture(&self, zone: usize) -> Option<Posture>
        ensures { result ≡ get_or self.now.gives zone None }
    {
        match self.gives.get(zone) {
            Some(given) => *given,
            None => None,
        }
    }

    /// Whether it gives some zone the posture `Moving`.
    fn is_moving(&self) -> bool
        ensures { result ≡ list_any is_moving self.now.gives }
    {
        self.gives
            .iter()
            .any(|given| *given == Some(Posture::Moving))
    }

    /// How many zones its row has.
    pub(crate) fn width(&self) -> usize
        ensures { result ≡ length self.now.gives }
    {
        let _ = &self.machine;
        self.gives.len()
    }
}

/// The tables of a plant, before they are checked.
#[derive(Debug, Drop)]
pub struct PlantTables {
    /// How many machines there are: their numbers are those below it.
    pub machines: u8,
    /// The zones. Those of one space come one after the other.
    pub zones: Vec<PlanZone>,
    /// The poses of all machines.
    pub poses: Vec<PlantPose>,
    /// The places of plates.
    pub places: Vec<PlanPlace>,
}

impl Model for PlantTables {
    ghost use Rattle.plan_types.specs.Table.{PlanTable, whole_table};

    ghost Value = { PlanTable };

    ghost view = { λ a. whole_table a.machines a.zones.items a.poses.items a.places.items };
}

impl PlantTables {
    /// How many zones there are.
    pub(crate) fn zone_count(&self) -> usize
        ensures { result ≡ table.zone_count self.now }
    {
        self.zones.len()
    }

    /// How many poses there are.
    pub(crate) fn pose_count(&self) -> usize
        ensures { result ≡ table.pose_count self.now }
    {
        self.poses.len()
    }

    /// How many places there are.
    pub(crate) fn place_count(&self) -> usize
        ensures { result ≡ table.place_count self.now }
    {
        self.places.len()
    }

    /// How many machines there are.
    pub(crate) fn machine_count(&self) -> u8
        ensures { result ≡ self.now.machines }
    {
        self.machines
    }

    /// The row of a zone, or one that says nothing if there is no such zone.
    pub(crate) fn zone(&self, zone: usize) -> PlanZone
        ensures { result ≡ table.zone_row self.now zone }
    {
        match self.zones.get(zone) {
            Some(row) => *row,
            None => NO_ZONE,
        }
    }

    /// The row of a place, or one that says nothing if there is no such place.
    pub(crate) fn place(&self, place: usize) -> PlanPlace
        ensures { result ≡ table.place_row self.now place }
    {
        match self.places.get(place) {
            Some(row) => *row,
            None => NO_PLACE,
        }
    }

    /// The machine that has a pose; the first where there is no such pose.
    pub(crate) fn machine(&self, pose: usize) -> u8
        ensures { result ≡ table.machine_of self.now pose }
    {
        match self.poses.get(pose) {
            Some(row) => row.machine,
            None => 0,
        }
    }

    /// Whether a pose can be taken only after moving; no where there is no such pose.
    pub(crate) fn is_after_moving(&self, pose: usize) -> bool
        ensures { result ≡ (table.pose_row self.now pose).after_moving }
    {
        match self.poses.get(pose) {
            Some(row) => row.after_moving,
            None => false,
        }
    }

    /// Whether a pose gives some zone the posture `Moving`.
    pub(crate) fn is_moving_pose(&self, pose: usize) -> bool
        ensures { result ≡ table.is_moving_pose self.now pose }
    {
        match self.poses.get(pose) {
            Some(row) => row.is_moving(),
            None => false,
        }
    }

    /// The posture that a pose gives a zone, if it gives it one.
    pub(crate) fn posture(&self, pose: usize, zone: usize) -> Option<Posture>
        ensures { result ≡ table.posture_of self.now pose zone }
    {
        match self.poses.get(pose) {
            Some(row) => row.posture(zone),
            None => None,
        }
    }

    /// Whether a zone is of one space with the zone before it.
    pub(crate) fn joins(&self, zone: usize) -> bool
        ensures { result ≡ table.joins self.now zone }
    {
        self.zone(zone).joins
    }

    /// The machine to which a zone belongs; the first where there is no such zone.
    pub(crate) fn host(&self, zone: usize) -> u8
        ensures { result ≡ table.host_of self.now zone }
    {
        self.zone(zone).host
    }

    /// The other machine of a zone; the first where there is no such zone.
    pub(crate) fn guest(&self, zone: usize) -> u8
        ensures { result ≡ table.guest_of self.now zone }
    {
        self.zone(zone).guest
    }
}
