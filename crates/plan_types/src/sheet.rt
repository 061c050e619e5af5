//! The tables of a plan in memory of a fixed size: each row as its bytes, and blank rows after the last.
ghost use Rattle.std.specs.Prelude.{◌≡◌, ◌+◌, ◌≤◌, ◌<◌, ◌∷◌, ◌++◌, [], length};
ghost use mir.Val.{bool_byte};
ghost use Rattle.plan_types.specs.Below.{any_below, sum_below};
ghost use Rattle.plan_types.specs.Table as table;
ghost use Rattle.plan_types.specs.Table.{whole_table};
ghost use Rattle.plan_types.specs.Kept as kept;

use crate::posture::Posture;
use crate::rows::{
    POSE_BYTES, ZONE_BYTES, gives_moving, pose_row, pose_told, posture_in_row, zone_row, zone_told,
};
use crate::shape::ZoneShape;
use crate::table::{MAX_PLACES, MAX_POSES, MAX_ZONES, PlanPlace, PlanPose, PlanZone, Tables};
use std::marker::Model;

const NO_ZONE: PlanZone = PlanZone {
    host: 0,
    guest: 0,
    joins: false,
    inward: None,
    outward: None,
};

const NO_POSE: PlanPose = PlanPose {
    machine: 0,
    after_moving: false,
    gives: [None; MAX_ZONES],
};

const NO_PLACE: PlanPlace = PlanPlace {
    keeper: 0,
    source: false,
    sink: false,
};

/// Tables, plan or not. It takes no memory beyond itself, and C can keep it.
#[repr(C)]
#[derive(Clone, Copy, Debug)]
pub struct Sheet {
    machines: u8,
    zone_count: u8,
    pose_count: u8,
    place_count: u8,
    zones: [[u8; ZONE_BYTES]; MAX_ZONES],
    poses: [[u8; POSE_BYTES]; MAX_POSES],
    places: [PlanPlace; MAX_PLACES],
}

impl Model for Sheet {
    ghost use Rattle.plan_types.specs.Table.{PlanTable};

    ghost Value = { PlanTable };

    ghost use Rattle.plan_types.specs.Kept.{table_in, kept, kept_back, IsKept};

    ghost view = { table_in };

    ghost invariant = { IsKept };

    ghost inverse = { kept };

    ghost inverse_ok = { kept_back };
}

impl Sheet {
    /// No rows yet.
    pub(crate) fn new(machines: u8) -> Sheet
        ensures { result ≡ whole_table machines [] [] [] }
    {
        Sheet {
            machines,
            zone_count: 0,
            pose_count: 0,
            place_count: 0,
            zones: [[0; ZONE_BYTES]; MAX_ZONES],
            poses: [[0; POSE_BYTES]; MAX_POSES],
            places: [NO_PLACE; MAX_PLACES],
        }
    }

    /// Appends a zone.
    pub(crate) fn push_zone(&mut self, zone: PlanZone)
        requires { table.zone_count self.old < 10 }
        ensures { self.new ≡ whole_table self.old.machines (self.old.zones ++ zone ∷ []) self.old.poses
            self.old.places }
    {
        self.zones[usize::from(self.zone_count)] = zone_row(zone);
        self.zone_count += 1;
    }

    /// Appends a pose.
    pub(crate) fn push_pose(&mut self, pose: PlanPose)
        requires { table.pose_count self.old < 64 }
        ensures { self.new ≡ whole_table self.old.machines self.old.zones (self.old.poses ++ pose ∷ [])
            self.old.places }
    {
        self.poses[usize::from(self.pose_count)] = pose_row(pose);
        self.pose_count += 1;
    }

    /// Appends a place.
    pub(crate) fn push_place(&mut self, place: PlanPlace)
        requires { table.place_count self.old < 16 }
        ensures { self.new ≡ whole_table self.old.machines self.old.zones self.old.poses
            (self.old.places ++ place ∷ []) }
    {
        self.places[usize::from(self.place_count)] = place;
        self.place_count += 1;
    }

    /// How many machines there are. There are no more rows than a plan may have.
    pub(crate) fn machines(&self) -> u8
        ensures machines { result ≡ self.now.machines }
        ensures fits { kept.FitsSheet self.now }
    {
        self.machines
    }

    /// How many zones there are.
    pub(crate) fn zone_count(&self) -> u8
        ensures count { result ≡ table.zone_count self.now }
        ensures few { result ≤ 10 }
    {
        self.zone_count
    }

    /// How many poses there are.
    pub(crate) fn pose_count(&self) -> u8
        ensures count { result ≡ table.pose_count self.now }
        ensures few { result ≤ 64 }
    {
        self.pose_count
    }

    /// How many places there are.
    pub(crate) fn place_count(&self) -> u8
        ensures count { result ≡ table.place_count self.now }
        ensures few { result ≤ 16 }
    {
        self.place_count
    }

    /// The row of a zone, or one that says nothing.
    pub(crate) fn zone(&self, zone: usize) -> PlanZone
        ensures { result ≡ table.zone_row self.now zone }
    {
        if zone < usize::from(self.zone_count) {
            zone_told(self.zones[zone])
        } else {
            NO_ZONE
        }
    }

    /// The row of a pose, or one that says nothing.
    pub(crate) fn pose(&self, pose: usize) -> PlanPose
        ensures { result ≡ table.pose_row self.now pose }
    {
        if pose < usize::from(self.pose_count) {
            pose_told(self.poses[pose])
        } else {
            NO_POSE
        }
    }

    /// The machine to which a zone belongs; the first where there is no such zone.
    pub(crate) fn host(&self, zone: usize) -> u8
        ensures { result ≡ table.host_of self.now zone }
    {
        if zone < usize::from(self.zone_count) {
            self.zones[zone][0]
        } else {
            0
        }
    }

    /// The other machine of a zone; the first where there is no such zone.
    pub(crate) fn guest(&self, zone: usize) -> u8
        ensures { result ≡ table.guest_of self.now zone }
    {
        if zone < usize::from(self.zone_count) {
            self.zones[zone][1]
        } else {
            0
        }
    }

    /// The machine that has a pose; the first where there is no such pose.
    pub(crate) fn machine(&self, pose: usize) -> u8
        ensures { result ≡ table.machine_of self.now pose }
    {
        if pose < usize::from(self.pose_count) {
            self.poses[pose][0]
        } else {
            0
        }
    }

    /// Whether a pose can be taken only after moving.
    pub(crate) fn is_after_moving(&self, pose: usize) -> bool
        ensures { result ≡ (table.pose_row self.now pose).after_moving }
    {
        pose < usize::from(self.pose_count) && self.poses[pose][1] != 0
    }

    /// The posture that a pose gives a zone, if it gives it one.
    pub(crate) fn posture(&self, pose: usize, zone: usize) -> Option<Posture>
        ensures { result ≡ table.posture_of self.now pose zone }
    {
        if pose < usize::from(self.pose_count) {
            posture_in_row(&self.poses[pose], zone)
        } else {
            None
        }
    }

    /// Whether a pose gives some zone the posture `Moving`.
    pub(crate) fn is_moving(&self, pose: usize) -> bool
        ensures { result ≡ table.is_moving_pose self.now pose }
    {
        pose < usize::from(self.pose_count) && gives_moving(&self.poses[pose])
    }

    fn gives(&self, zone: usize, posture: Posture, pose: usize) -> bool
        ensures { result ≡ table.gives self.now zone posture pose }
    {
        self.posture(pose, zone) == Some(posture)
    }

    #[tactic(auto, using(crate::proofs::lemmas::Below::any_below_more))]
    fn any_gives(&self, zone: usize, posture: Posture) -> bool
        ensures { result ≡ any_below (table.gives self.now zone posture) (table.pose_count self.now) }
    {
        let mut given = false;
        for pose in 0..usize::from(self.pose_count()) {
            given = given || self.gives(zone, posture, pose);
        }
        given
    }

    /// Whether some pose gives a zone of these a posture.
    fn is_given(&self, zone: usize, posture: Posture) -> bool
        ensures { result ≡ table.is_given self.now zone posture }
    {
        zone < usize::from(self.zone_count()) && self.any_gives(zone, posture)
    }

    /// Whether a zone is of one space with the zone before it.
    fn joins(&self, zone: usize) -> bool
        ensures { result ≡ table.joins self.now zone }
    {
        self.zone(zone).joins
    }

    #[tactic(auto, using(crate::proofs::lemmas::Spaces::space_more))]
    /// The first zone of the space of the zone after this one, by the first zone of this one's space.
    fn next_space(&self, zone: u8, space: u8) -> u8
        requires zone { zone < 255 }
        requires space { space ≡ table.space_of self.now zone }
        ensures { result ≡ table.space_of self.now (zone + 1) }
    {
        if self.joins(usize::from(zone + 1)) {
            space
        } else {
            zone + 1
        }
    }

    /// The first zone of a zone's space.
    pub(crate) fn space(&self, zone: u8) -> u8
        ensures { result ≡ table.space_of self.now zone }
    {
        let mut space = 0;
        for before in 0..zone {
            space = self.next_space(before, space);
        }
        space
    }

    fn is_joined_to(&self, first: u8, zone: u8) -> bool
        ensures { result ≡ table.joined_to self.now first zone }
    {
        first < zone && self.space(zone) == first
    }

    /// How many zones join a space after its first zone.
    #[tactic(auto, using(crate::proofs::lemmas::Below::sum_below_more))]
    fn joiner_count(&self, first: u8) -> u8
        ensures count { let all = table.zone_count self.now in
            result ≡ sum_below (λ y. bool_byte (table.joined_to self.now first y)) all }
        ensures few { result ≤ 10 }
    {
        let mut count = 0;
        for zone in 0..self.zone_count() {
            count += u8::from(self.is_joined_to(first, zone));
        }
        count
    }

    /// How many guests a space has, by its first zone; 0 for a zone that joins it.
    fn guests(&self, zone: u8) -> u8
        ensures { result ≡ (table.zone_shape self.now zone).guests }
    {
        if self.space(zone) == zone {
            1 + self.joiner_count(zone)
        } else {
            0
        }
    }

    /// What a zone takes in the plan's word.
    pub(crate) fn zone_shape(&self, zone: u8) -> ZoneShape
        ensures { result ≡ table.zone_shape self.now zone }
    {
        let number = usize::from(zone);
        let row = self.zone(number);
        ZoneShape {
            guests: self.guests(zone),
            flag: row.inward.is_some() || row.outward.is_some(),
            moves: self.is_given(number, Posture::Moving),
            opens_in: self.is_given(number, Posture::OpenIn),
            opens_out: self.is_given(number, Posture::OpenOut),
        }
    }

    /// How many bits the zones take.
    fn zones_width(&self) -> u8
        ensures width { result ≡ sum_below (table.zone_bits self.now) (table.zone_count self.now) }
        ensures few { result ≤ 70 }
    {
        let mut width = 0;
        for zone in 0..self.zone_count() {
            width += self.zone_shape(zone).bits();
        }
        width
    }

    /// How many bits the plan's word has.
    pub(crate) fn word_width(&self) -> u8
        ensures { result ≡ table.word_width self.now }
    {
        self.zones_width() + self.place_count() + 21
    }

    /// The row of a place, or one that says nothing.
    pub(crate) fn place(&self, place: usize) -> PlanPlace
        ensures { result ≡ table.place_row self.now place }
    {
        if place < usize::from(self.place_count) {
            self.places[place]
        } else {
            NO_PLACE
        }
    }

    /// The machine that keeps a place; the first where there is no such place.
    pub(crate) fn keeper(&self, place: usize) -> u8
        ensures { result ≡ table.keeper_of self.now place }
    {
        self.place(place).keeper
    }
}

fn push_zones(sheet: &mut Sheet, zones: &[PlanZone])
    requires empty { sheet.old.zones ≡ [] }
    requires few { length zones.now ≤ 10 }
    ensures { sheet.new ≡ whole_table sheet.old.machines zones.now sheet.old.poses sheet.old.places }
{
    for zone in zones {
        sheet.push_zone(*zone);
    }
}

fn push_poses(sheet: &mut Sheet, poses: &[PlanPose])
    requires empty { sheet.old.poses ≡ [] }
    requires few { length poses.now ≤ 64 }
    ensures { sheet.new ≡ whole_table sheet.old.machines sheet.old.zones poses.now sheet.old.places }
{
    for pose in poses {
        sheet.push_pose(*pose);
    }
}

fn push_places(sheet: &mut Sheet, places: &[PlanPlace])
    requires empty { sheet.old.places ≡ [] }
    requires few { length places.now ≤ 16 }
    ensures { sheet.new ≡ whole_table sheet.old.machines sheet.old.zones sheet.old.poses places.now }
{
    for place in places {
        sheet.push_place(*place);
    }
}

/// The sheet that keeps some tables.
pub(crate) fn sheet_of(tables: &Tables) -> Sheet
    requires { kept.FitsSheet tables.now }
    ensures { result ≡ tables.now }
{
    let mut sheet = Sheet::new(tables.machines);
    push_zones(&mut sheet, &tables.zones);
    push_poses(&mut sheet, &tables.poses);
    push_places(&mut sheet, &tables.places);
    sheet
}
