//! The tables of one word: the rows of its zones, poses and places, by the word's own numbers.
ghost use Rattle.std.specs.Prelude.{◌≡◌, ◌≤◌, length, map, IfOk, None, option_map};
ghost use Rattle.plan_types.specs.Kept.{filled};
ghost use Rattle.plan_types.specs.Table as table;
ghost use Rattle.plan_words.specs.Groups as groups;
ghost use Rattle.plan_words.specs.Groups.{table_of};

use crate::members::{Members, number_in};
use crate::plant::PlantTables;
use plan_types::{MAX_ZONES, PlanPlace, PlanPose, PlanZone, Posture, Tables, Way};
use std::alloc::{AllocError, Global};

#[tactic(auto, using(crate::proofs::Loops::number_at_most))]
fn way_in(members: &Members, way: Way) -> Way
    requires { length members.now.places ≤ 16 }
    ensures { result ≡ groups.way_in members.now way }
{
    Way {
        from: number_in(members.places(), usize::from(way.from)) as u8,
        to: number_in(members.places(), usize::from(way.to)) as u8,
    }
}

fn any_way_in(members: &Members, way: Option<Way>) -> Option<Way>
    requires { length members.now.places ≤ 16 }
    ensures { result ≡ option_map (groups.way_in members.now) way }
{
    match way {
        Some(way) => Some(way_in(members, way)),
        None => None,
    }
}

impl PlantTables {
    fn zone_in(&self, members: &Members, zone: usize) -> PlanZone
        requires { length members.now.places ≤ 16 }
        ensures { result ≡ groups.zone_in self.now members.now zone }
    {
        let row = self.zone(zone);
        PlanZone {
            host: row.host,
            guest: row.guest,
            joins: row.joins,
            inward: any_way_in(members, row.inward),
            outward: any_way_in(members, row.outward),
        }
    }

    #[tactic(auto, using(crate::proofs::Loops::filled_more))]
    fn given_in(&self, members: &Members, pose: usize) -> [Option<Posture>; MAX_ZONES]
        requires { length members.now.zones ≤ 10 }
        ensures { result ≡ filled (map (table.posture_of self.now pose) members.now.zones) None 10 }
    {
        let mut gives = [None; MAX_ZONES];
        let zones = members.zones();
        for (number, zone) in zones.iter().enumerate() {
            gives[number] = self.posture(pose, *zone);
        }
        gives
    }

    fn pose_in(&self, members: &Members, pose: usize) -> PlanPose
        requires { length members.now.zones ≤ 10 }
        ensures { result ≡ groups.pose_in self.now members.now pose }
    {
        PlanPose {
            machine: self.machine(pose),
            after_moving: self.is_after_moving(pose),
            gives: self.given_in(members, pose),
        }
    }

    fn zones_in(&self, members: &Members, alloc: Global) -> Result<Vec<PlanZone>, AllocError>
        requires { length members.now.places ≤ 16 }
        ensures { let row = groups.zone_in self.now members.now in
            IfOk result (λ rows. rows.items ≡ map row members.now.zones) }
    {
        members
            .zones()
            .iter()
            .map(|zone| self.zone_in(members, *zone))
            .collect(alloc)
    }

    fn poses_in(&self, members: &Members, alloc: Global) -> Result<Vec<PlanPose>, AllocError>
        requires { length members.now.zones ≤ 10 }
        ensures { let row = groups.pose_in self.now members.now in
            IfOk result (λ rows. rows.items ≡ map row members.now.poses) }
    {
        members
            .poses()
            .iter()
            .map(|pose| self.pose_in(members, *pose))
            .collect(alloc)
    }

    fn places_in(&self, members: &Members, alloc: Global) -> Result<Vec<PlanPlace>, AllocError>
        ensures { let row = table.place_row self.now in
            IfOk result (λ rows. rows.items ≡ map row members.now.places) }
    {
        members
            .places()
            .iter()
            .map(|place| self.place(*place))
            .collect(alloc)
    }

    /// The tables of a word alone.
    pub(crate) fn tables_of(&self, members: &Members, alloc: Global) -> Result<Tables, AllocError>
        requires zones { length members.now.zones ≤ 10 }
        requires places { length members.now.places ≤ 16 }
        ensures { IfOk result (λ tables. tables ≡ table_of self.now members.now) }
    {
        Ok(Tables {
            machines: self.machine_count(),
            zones: self.zones_in(members, alloc)?,
            poses: self.poses_in(members, alloc)?,
            places: self.places_in(members, alloc)?,
        })
    }
}
