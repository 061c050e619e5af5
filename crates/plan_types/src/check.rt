//! The faults of a plan's tables.
ghost use Rattle.std.specs.Prelude.{◌≡◌, ◌<◌, ◌↔◌, Some, IfErr, IfOk, IsErr, IsNone};
ghost use Rattle.plan_types.specs.Below.{first_below, any_below};
ghost use Rattle.plan_types.specs.Table as table;
ghost use Rattle.plan_types.specs.Plan as plan;
ghost use Rattle.plan_types.specs.Plan.{IsPlan};
ghost use Rattle.plan_types.specs.Faults as faults;
ghost use Rattle.plan_types.specs.Kept.{FitsSheet};

use crate::fault::PlanFault;
use crate::posture::Posture;
use crate::sheet::{Sheet, sheet_of};
use crate::table::{MAX_MACHINES, MAX_PLACES, MAX_POSES, MAX_ZONES, Tables, Way};

fn unless(holds: bool, fault: PlanFault) -> Option<PlanFault>
    ensures { result ≡ faults.unless holds fault }
{
    (!holds).then_some(fault)
}

/// Whether a pose may give two zones of one space these postures: neither, or both are Moving, or neither is.
fn is_alike(first: Option<Posture>, other: Option<Posture>) -> bool
    ensures { result ≡ plan.is_alike first other }
{
    match (first, other) {
        (None, None) => true,
        (Some(Posture::Moving), Some(other)) => other == Posture::Moving,
        (Some(_), Some(other)) => other != Posture::Moving,
        _ => false,
    }
}

impl Tables {
    fn count_fault(&self) -> Option<PlanFault>
        ensures fault { result ≡ faults.count_fault self.now }
        ensures fits { IsNone result → FitsSheet self.now }
    {
        unless(self.machines <= MAX_MACHINES, PlanFault::TooManyMachines)
            .or(unless(self.zones.len() <= MAX_ZONES, PlanFault::TooManyZones))
            .or(unless(self.poses.len() <= MAX_POSES, PlanFault::TooManyPoses))
            .or(unless(self.places.len() <= MAX_PLACES, PlanFault::TooManyPlaces))
    }

    #[tactic(auto, using(crate::proofs::lemmas::Checked::count_fault_first, crate::proofs::lemmas::Checked::no_plan_with_fault))]
    /// These tables as a sheet, or their first fault if they have more rows than a plan may have.
    pub(crate) fn sheet(&self) -> Result<Sheet, PlanFault>
        ensures sheet { IfOk result (λ sheet. sheet ≡ self.now) }
        ensures fault { IfErr result (λ fault. faults.plan_fault self.now ≡ Some fault) }
        ensures no_plan { IsErr result → ¬ IsPlan self.now }
    {
        match self.count_fault() {
            Some(fault) => Err(fault),
            None => Ok(sheet_of(self)),
        }
    }

    #[tactic(auto, using(crate::proofs::lemmas::Checked::no_plan_with_fault))]
    /// The first fault of the tables, or `None` if they are a plan.
    pub fn fault(&self) -> Option<PlanFault>
        ensures first { result ≡ faults.plan_fault self.now }
        ensures none { IsNone result ↔ IsPlan self.now }
    {
        match self.sheet() {
            Ok(sheet) => sheet.fault(),
            Err(fault) => Some(fault),
        }
    }
}

impl Sheet {
    /// Whether a machine hosts a zone of these.
    pub(crate) fn is_hosted(&self, zone: usize, machine: u8) -> bool
        ensures { result ≡ table.is_hosted self.now zone machine }
    {
        zone < usize::from(self.zone_count()) && self.zone(zone).host == machine
    }

    fn is_place_of(&self, place: u8, machine: u8) -> bool
        ensures { result ≡ table.is_place_of self.now place machine }
    {
        let place = usize::from(place);
        place < usize::from(self.place_count()) && self.keeper(place) == machine
    }

    fn leads(&self, giver: u8, receiver: u8, way: Option<Way>) -> bool
        ensures { result ≡ plan.leads self.now giver receiver way }
    {
        match way {
            Some(way) => self.is_place_of(way.from, giver) && self.is_place_of(way.to, receiver),
            None => true,
        }
    }

    fn count_fault(&self) -> Option<PlanFault>
        ensures { result ≡ faults.count_fault self.now }
    {
        unless(self.machines() <= MAX_MACHINES, PlanFault::TooManyMachines)
    }

    fn width_fault(&self) -> Option<PlanFault>
        ensures { result ≡ faults.width_fault self.now }
    {
        let width = self.word_width();
        if width <= 64 {
            None
        } else {
            Some(PlanFault::TooWide {
                missing: width - 64,
            })
        }
    }

    #[tactic(auto, using(crate::proofs::lemmas::Below::first_below_more))]
    fn keepers_fault(&self) -> Option<PlanFault>
        ensures { result ≡ first_below (faults.keeper_fault self.now) (table.place_count self.now) }
    {
        let mut first = None;
        for place in 0..usize::from(self.place_count()) {
            let known = self.keeper(place) < self.machines();
            first = first.or(unless(known, PlanFault::NoSuchKeeper { place }));
        }
        first
    }

    fn has_guest_of(&self, zone: u8, other: u8) -> bool
        ensures { result ≡ faults.has_guest_of self.now zone other }
    {
        self.space(other) == self.space(zone)
            && self.guest(usize::from(other)) == self.guest(usize::from(zone))
    }

    /// Whether an earlier zone of a zone's space has the same guest.
    #[tactic(auto, using(crate::proofs::lemmas::Below::any_below_more))]
    fn is_guest_again(&self, zone: u8) -> bool
        ensures { result ≡ any_below (faults.has_guest_of self.now zone) zone }
    {
        let mut again = false;
        for other in 0..zone {
            again = again || self.has_guest_of(zone, other);
        }
        again
    }

    /// What is wrong with the space of a zone.
    fn space_fault(&self, zone: u8) -> Option<PlanFault>
        ensures { result ≡ faults.space_fault self.now zone }
    {
        let number = usize::from(zone);
        let first = usize::from(self.space(zone));
        let one_host = self.host(first) == self.host(number);
        unless(one_host, PlanFault::TwoHosts { zone: number }).or(unless(
            !self.is_guest_again(zone),
            PlanFault::GuestTwice { zone: number },
        ))
    }

    fn zone_fault(&self, zone: usize) -> Option<PlanFault>
        ensures { result ≡ faults.zone_fault self.now zone }
    {
        let row = self.zone(zone);
        let inward = self.leads(row.guest, row.host, row.inward);
        let outward = self.leads(row.host, row.guest, row.outward);
        unless(row.host < self.machines(), PlanFault::NoSuchHost { zone })
            .or(unless(row.guest < self.machines(), PlanFault::NoSuchGuest { zone }))
            .or(unless(row.host != row.guest, PlanFault::HostIsGuest { zone }))
            .or(unless(inward, PlanFault::InwardAstray { zone }))
            .or(unless(outward, PlanFault::OutwardAstray { zone }))
    }

    #[tactic(auto, using(crate::proofs::lemmas::Below::first_below_more))]
    fn zones_fault(&self) -> Option<PlanFault>
        ensures { result ≡ first_below (faults.zone_fault self.now) (table.zone_count self.now) }
    {
        let mut first = None;
        for zone in 0..usize::from(self.zone_count()) {
            first = first.or(self.zone_fault(zone));
        }
        first
    }

    #[tactic(auto, using(crate::proofs::lemmas::Below::first_below_more))]
    fn spaces_fault(&self) -> Option<PlanFault>
        ensures { result ≡ first_below (faults.space_fault self.now) (table.zone_count self.now) }
    {
        let mut first = None;
        for zone in 0..self.zone_count() {
            first = first.or(self.space_fault(zone));
        }
        first
    }

    fn foreign_fault(&self, pose: usize, zone: usize) -> Option<PlanFault>
        requires { zone < 10 }
        ensures { result ≡ faults.foreign_fault self.now pose zone }
    {
        let row = self.pose(pose);
        let foreign = row.gives[zone].is_some() && !self.is_hosted(zone, row.machine);
        foreign.then_some(PlanFault::ForeignZone { pose, zone })
    }

    #[tactic(auto, using(crate::proofs::lemmas::Below::first_below_more))]
    fn foreign_zone_fault(&self, pose: usize) -> Option<PlanFault>
        ensures { result ≡ first_below (faults.foreign_fault self.now pose) 10 }
    {
        let mut first = None;
        for zone in 0..MAX_ZONES {
            first = first.or(self.foreign_fault(pose, zone));
        }
        first
    }

    fn half_fault(&self, pose: usize, zone: u8) -> Option<PlanFault>
        ensures { result ≡ faults.half_fault self.now pose zone }
    {
        let first = usize::from(self.space(zone));
        let number = usize::from(zone);
        let alike = is_alike(self.posture(pose, first), self.posture(pose, number));
        unless(alike, PlanFault::HalfSpace { pose, zone: number })
    }

    #[tactic(auto, using(crate::proofs::lemmas::Below::first_below_more))]
    fn halves_fault(&self, pose: usize) -> Option<PlanFault>
        ensures { result ≡ faults.halves_fault self.now pose }
    {
        let mut first = None;
        for zone in 0..self.zone_count() {
            first = first.or(self.half_fault(pose, zone));
        }
        first
    }

    fn pose_fault(&self, pose: usize) -> Option<PlanFault>
        ensures { result ≡ faults.pose_fault self.now pose }
    {
        let known = self.pose(pose).machine < self.machines();
        unless(known, PlanFault::NoSuchMachine { pose }).or(self.foreign_zone_fault(pose))
    }

    #[tactic(auto, using(crate::proofs::lemmas::Below::first_below_more))]
    fn poses_fault(&self) -> Option<PlanFault>
        ensures { result ≡ first_below (faults.pose_fault self.now) (table.pose_count self.now) }
    {
        let mut first = None;
        for pose in 0..usize::from(self.pose_count()) {
            first = first.or(self.pose_fault(pose));
        }
        first
    }

    #[tactic(auto, using(crate::proofs::lemmas::Below::first_below_more))]
    fn half_spaces_fault(&self) -> Option<PlanFault>
        ensures { result ≡ first_below (faults.halves_fault self.now) (table.pose_count self.now) }
    {
        let mut first = None;
        for pose in 0..usize::from(self.pose_count()) {
            first = first.or(self.halves_fault(pose));
        }
        first
    }

    /// The first fault of the tables, or `None` if they are a plan.
    pub(crate) fn fault(&self) -> Option<PlanFault>
        ensures first { result ≡ faults.plan_fault self.now }
        ensures none { IsNone result ↔ IsPlan self.now }
    {
        self.count_fault()
            .or(self.width_fault())
            .or(self.keepers_fault())
            .or(self.zones_fault())
            .or(self.poses_fault())
            .or(self.spaces_fault())
            .or(self.half_spaces_fault())
    }
}
