//! The rules of a plant's rows: those of a plan, of any number of rows.
ghost use Rattle.std.specs.Prelude.{◌≡◌, ◌+◌, ◌↔◌, ◌≤◌, ◌<◌, ◌^◌, length, IsNone};
ghost use Rattle.plan_types.specs.Below.{first_below, any_below};
ghost use Rattle.plan_types.specs.Table as table;
ghost use Rattle.plan_types.specs.Plan as plan;
ghost use Rattle.plan_types.specs.Faults as faults;
ghost use Rattle.plan_words.specs.Groups.{IsLargePlan};
ghost use Rattle.plan_words.specs.Plant as plant;

use crate::plant::PlantTables;
use plan_types::{PlanFault, Posture, Way};

fn unless(holds: bool, fault: PlanFault) -> Option<PlanFault>
    ensures { result ≡ faults.unless holds fault }
{
    (!holds).then_some(fault)
}

/// Whether a pose may give two zones of one space these postures: neither, or both are Moving, or neither is.
fn is_alike(first: Option<Posture>, other: Option<Posture>) -> bool
    ensures { result ≡ plan.is_alike first other }
{
    match (first, other) {
        (None, None) => true,
        (Some(Posture::Moving), Some(other)) => other == Posture::Moving,
        (Some(_), Some(other)) => other != Posture::Moving,
        _ => false,
    }
}

impl PlantTables {
    fn is_hosted(&self, zone: usize, machine: u8) -> bool
        ensures { result ≡ table.is_hosted self.now zone machine }
    {
        zone < self.zone_count() && self.host(zone) == machine
    }

    fn is_place_of(&self, place: u8, machine: u8) -> bool
        ensures { result ≡ table.is_place_of self.now place machine }
    {
        let place = usize::from(place);
        place < self.place_count() && self.place(place).keeper == machine
    }

    fn leads(&self, giver: u8, receiver: u8, way: Option<Way>) -> bool
        ensures { result ≡ plan.leads self.now giver receiver way }
    {
        match way {
            Some(way) => self.is_place_of(way.from, giver) && self.is_place_of(way.to, receiver),
            None => true,
        }
    }

    #[tactic(auto, using(plan_types::proofs::lemmas::Spaces::space_more))]
    /// The first zone of the space of the zone after this one, by the first zone of this one's space.
    fn next_space(&self, zone: usize, space: usize) -> usize
        requires zone { zone < 2 ^ 63 }
        requires space { space ≡ table.space_of self.now zone }
        ensures { result ≡ table.space_of self.now (zone + 1) }
    {
        if self.joins(zone + 1) {
            space
        } else {
            zone + 1
        }
    }

    /// The first zone of a zone's space.
    pub(crate) fn space(&self, zone: usize) -> usize
        requires { zone < 2 ^ 63 }
        ensures { result ≡ table.space_of self.now zone }
    {
        let mut space = 0;
        for before in 0..zone {
            space = self.next_space(before, space);
        }
        space
    }

    #[tactic(auto, using(plan_types::proofs::lemmas::Below::first_below_more))]
    fn keepers_fault(&self) -> Option<PlanFault>
        ensures { result ≡ first_below (faults.keeper_fault self.now) (table.place_count self.now) }
    {
        let mut first = None;
        for place in 0..self.place_count() {
            let known = self.place(place).keeper < self.machine_count();
            first = first.or(unless(known, PlanFault::NoSuchKeeper { place }));
        }
        first
    }

    fn zone_fault(&self, zone: usize) -> Option<PlanFault>
        ensures { result ≡ faults.zone_fault self.now zone }
    {
        let row = self.zone(zone);
        let inward = self.leads(row.guest, row.host, row.inward);
        let outward = self.leads(row.host, row.guest, row.outward);
        unless(
            row.host < self.machine_count(),
            PlanFault::NoSuchHost { zone },
        )
        .or(unless(
            row.guest < self.machine_count(),
            PlanFault::NoSuchGuest { zone },
        ))
        .or(unless(row.host != row.guest, PlanFault::HostIsGuest { zone }))
        .or(unless(inward, PlanFault::InwardAstray { zone }))
        .or(unless(outward, PlanFault::OutwardAstray { zone }))
    }

    #[tactic(auto, using(plan_types::proofs::lemmas::Below::first_below_more))]
    fn zones_fault(&self) -> Option<PlanFault>
        ensures { result ≡ first_below (faults.zone_fault self.now) (table.zone_count self.now) }
    {
        let mut first = None;
        for zone in 0..self.zone_count() {
            first = first.or(self.zone_fault(zone));
        }
        first
    }

    fn foreign_fault(&self, pose: usize, zone: usize) -> Option<PlanFault>
        ensures { result ≡ faults.foreign_fault self.now pose zone }
    {
        let foreign = self.posture(pose, zone).is_some()
            && !self.is_hosted(zone, self.machine(pose));
        foreign.then_some(PlanFault::ForeignZone { pose, zone })
    }

    /// How many zones the row of a pose has.
    fn width(&self, pose: usize) -> usize
        ensures { result ≡ length (table.pose_row self.now pose).gives }
    {
        match self.poses.get(pose) {
            Some(row) => row.width(),
            None => 10,
        }
    }

    #[tactic(auto, using(plan_types::proofs::lemmas::Below::first_below_more))]
    fn foreign_zone_fault(&self, pose: usize) -> Option<PlanFault>
        ensures { let width = length (table.pose_row self.now pose).gives in
            result ≡ first_below (faults.foreign_fault self.now pose) width }
    {
        let mut first = None;
        for zone in 0..self.width(pose) {
            first = first.or(self.foreign_fault(pose, zone));
        }
        first
    }

    fn pose_fault(&self, pose: usize) -> Option<PlanFault>
        ensures { result ≡ plant.pose_fault self.now pose }
    {
        let known = self.machine(pose) < self.machine_count();
        unless(known, PlanFault::NoSuchMachine { pose }).or(self.foreign_zone_fault(pose))
    }

    #[tactic(auto, using(plan_types::proofs::lemmas::Below::first_below_more))]
    fn poses_fault(&self) -> Option<PlanFault>
        ensures { result ≡ first_below (plant.pose_fault self.now) (table.pose_count self.now) }
    {
        let mut first = None;
        for pose in 0..self.pose_count() {
            first = first.or(self.pose_fault(pose));
        }
        first
    }

    fn has_guest_of(&self, zone: usize, other: usize) -> bool
        requires zone { zone < 2 ^ 63 }
        requires other { other < 2 ^ 63 }
        ensures { result ≡ faults.has_guest_of self.now zone other }
    {
        self.space(other) == self.space(zone) && self.guest(other) == self.guest(zone)
    }

    /// Whether an earlier zone of a zone's space has the same guest.
    #[tactic(auto, using(plan_types::proofs::lemmas::Below::any_below_more))]
    fn is_guest_again(&self, zone: usize) -> bool
        requires { zone < 2 ^ 63 }
        ensures { result ≡ any_below (faults.has_guest_of self.now zone) zone }
    {
        let mut again = false;
        for other in 0..zone {
            again = again || self.has_guest_of(zone, other);
        }
        again
    }

    /// What is wrong with the space of a zone.
    fn space_fault(&self, zone: usize) -> Option<PlanFault>
        requires { zone < 2 ^ 63 }
        ensures { result ≡ faults.space_fault self.now zone }
    {
        let one_host = self.host(self.space(zone)) == self.host(zone);
        unless(one_host, PlanFault::TwoHosts { zone }).or(unless(
            !self.is_guest_again(zone),
            PlanFault::GuestTwice { zone },
        ))
    }

    #[tactic(auto, using(plan_types::proofs::lemmas::Below::first_below_more))]
    fn spaces_fault(&self) -> Option<PlanFault>
        requires { table.zone_count self.now ≤ 40 }
        ensures { result ≡ first_below (faults.space_fault self.now) (table.zone_count self.now) }
    {
        let mut first = None;
        for zone in 0..self.zone_count() {
            first = first.or(self.space_fault(zone));
        }
        first
    }

    fn half_fault(&self, pose: usize, zone: usize) -> Option<PlanFault>
        requires { zone < 2 ^ 63 }
        ensures { result ≡ faults.half_fault self.now pose zone }
    {
        let first = self.posture(pose, self.space(zone));
        let alike = is_alike(first, self.posture(pose, zone));
        unless(alike, PlanFault::HalfSpace { pose, zone })
    }

    #[tactic(auto, using(plan_types::proofs::lemmas::Below::first_below_more))]
    fn halves_fault(&self, pose: usize) -> Option<PlanFault>
        requires { table.zone_count self.now ≤ 40 }
        ensures { result ≡ faults.halves_fault self.now pose }
    {
        let mut first = None;
        for zone in 0..self.zone_count() {
            first = first.or(self.half_fault(pose, zone));
        }
        first
    }

    #[tactic(auto, using(plan_types::proofs::lemmas::Below::first_below_more))]
    fn half_spaces_fault(&self) -> Option<PlanFault>
        requires { table.zone_count self.now ≤ 40 }
        ensures { result ≡ first_below (faults.halves_fault self.now) (table.pose_count self.now) }
    {
        let mut first = None;
        for pose in 0..self.pose_count() {
            first = first.or(self.halves_fault(pose));
        }
        first
    }

    /// The first rule that a row breaks, by the rows' numbers in the plant, or `None` if all keep the rules of plans.
    pub(crate) fn row_fault(&self) -> Option<PlanFault>
        requires { table.zone_count self.now ≤ 40 }
        ensures first { result ≡ plant.row_fault self.now }
        ensures none { IsNone result ↔ IsLargePlan self.now }
    {
        self.keepers_fault()
            .or(self.zones_fault())
            .or(self.poses_fault())
            .or(self.spaces_fault())
            .or(self.half_spaces_fault())
    }
}
