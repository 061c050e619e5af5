//! A plan: tables that were checked.
ghost use Rattle.std.specs.Prelude.{◌≡◌, ◌≤◌, ◌<◌, ◌↔◌, [], Some, IsOk, IfOk, IfErr};
ghost use Rattle.plan_types.specs.Table as table;
ghost use Rattle.plan_types.specs.Table.{plan_table};
ghost use Rattle.plan_types.specs.Plan.{IsPlan};
ghost use Rattle.plan_types.specs.Faults.{plan_fault};

use crate::fault::PlanFault;
use crate::posture::Posture;
use crate::shape::ZoneShape;
use crate::sheet::Sheet;
use crate::table::{PlanPlace, PlanPose, PlanZone, Tables, Transfer, Way};
use std::marker::Model;

/// A plan of a plant. Each plan is one that [`Plan::new`] has accepted.
///
/// It takes no memory beyond itself, and C can keep it, if only these functions make it.
#[repr(C)]
#[derive(Clone, Debug, Drop)]
pub struct Plan {
    sheet: Sheet,
}

impl Model for Plan {
    ghost use Rattle.plan_types.specs.Table.{PlanTable};
    ghost use Rattle.plan_types.specs.Plan.{IsPlan};

    ghost Value = { PlanTable };

    ghost view = { λ a. a.sheet };

    ghost invariant = { λ a. IsPlan a.sheet };

    ghost inverse = { λ t. record { sheet = t } };
}

impl Plan {
    /// The plan of these tables, or their first fault if they are none.
    pub fn new(tables: Tables) -> Result<Plan, PlanFault>
        ensures ok { IsOk result ↔ IsPlan tables }
        ensures plan { IfOk result (λ plan. plan ≡ tables) }
        ensures fault { IfErr result (λ fault. plan_fault tables ≡ Some fault) }
    {
        match tables.sheet() {
            Ok(sheet) => Plan::of(sheet),
            Err(fault) => Err(fault),
        }
    }

    /// The plan that a sheet keeps, or its first fault.
    pub(crate) fn of(sheet: Sheet) -> Result<Plan, PlanFault>
        ensures ok { IsOk result ↔ IsPlan sheet }
        ensures plan { IfOk result (λ plan. plan ≡ sheet) }
        ensures fault { IfErr result (λ fault. plan_fault sheet ≡ Some fault) }
    {
        match sheet.fault() {
            Some(fault) => Err(fault),
            None => Ok(Plan { sheet }),
        }
    }

    /// The plan without any row.
    #[tactic(auto, using(crate::proofs::lemmas::Checked::empty_is_plan))]
    pub fn empty() -> Plan
        ensures { result ≡ plan_table 0 [] [] [] }
    {
        Plan {
            sheet: Sheet::new(0),
        }
    }

    /// How many machines there are.
    pub fn machines(&self) -> u8
        ensures machines { result ≡ self.now.machines }
        ensures few { result ≤ 30 }
        ensures plan { IsPlan self.now }
    {
        self.sheet.machines()
    }

    /// How many zones there are.
    pub fn zone_count(&self) -> u8
        ensures count { result ≡ table.zone_count self.now }
        ensures few { result ≤ 10 }
    {
        self.sheet.zone_count()
    }

    /// How many poses there are, those of all machines together.
    pub fn pose_count(&self) -> u8
        ensures count { result ≡ table.pose_count self.now }
        ensures few { result ≤ 64 }
    {
        self.sheet.pose_count()
    }

    /// How many places there are.
    pub fn place_count(&self) -> u8
        ensures count { result ≡ table.place_count self.now }
        ensures few { result ≤ 16 }
        ensures fits { table.word_width self.now ≤ 64 }
    {
        self.sheet.place_count()
    }

    /// The row of a zone, or one that says nothing if there is no such zone.
    pub fn zone(&self, zone: u8) -> PlanZone
        ensures { result ≡ table.zone_row self.now zone }
    {
        self.sheet.zone(usize::from(zone))
    }

    /// The row of a pose, or one that says nothing if there is no such pose.
    pub fn pose(&self, pose: u8) -> PlanPose
        ensures { result ≡ table.pose_row self.now pose }
    {
        self.sheet.pose(usize::from(pose))
    }

    /// The machine to which a zone belongs; the first machine if there is no such zone.
    pub fn host(&self, zone: u8) -> u8
        ensures { result ≡ table.host_of self.now zone }
    {
        self.sheet.host(usize::from(zone))
    }

    /// The other machine of a zone; the first machine if there is no such zone.
    pub fn guest(&self, zone: u8) -> u8
        ensures { result ≡ table.guest_of self.now zone }
    {
        self.sheet.guest(usize::from(zone))
    }

    /// The first zone of a zone's space: the zone itself, unless it joins the one before it.
    pub fn space(&self, zone: u8) -> u8
        ensures { result ≡ table.space_of self.now zone }
    {
        self.sheet.space(zone)
    }

    /// Whether two zones are of one space.
    pub fn same_space(&self, zone: u8, other: u8) -> bool
        ensures { result ≡ table.same_space self.now zone other }
    {
        self.space(zone) == self.space(other)
    }

    /// The machine that keeps a place; the first where there is no such place.
    pub fn keeper(&self, place: u8) -> u8
        ensures { result ≡ table.keeper_of self.now place }
    {
        self.sheet.keeper(usize::from(place))
    }

    /// The row of a place, or one that says nothing if there is no such place.
    #[tactic(auto, using(crate::proofs::PlaceBytes::is_narrow))]
    pub fn place(&self, place: u8) -> PlanPlace
        ensures row { result ≡ table.place_row self.now place }
        ensures narrow { result.keeper < 64 }
    {
        self.sheet.place(usize::from(place))
    }

    /// Whether a machine keeps a place of the plan that is a source or a sink.
    pub fn has_end(&self, machine: u8, place: u8) -> bool
        ensures { result ≡ table.has_end self.now machine place }
    {
        let row = self.place(place);
        place < self.place_count() && row.keeper == machine && (row.source || row.sink)
    }

    /// Whether a machine is the host or the guest of a zone of the plan.
    pub fn is_party(&self, machine: u8, zone: u8) -> bool
        ensures { result ≡ table.is_party self.now machine zone }
    {
        zone < self.zone_count() && (machine == self.host(zone) || machine == self.guest(zone))
    }

    /// Whether a machine has a pose of the plan.
    pub fn has_pose(&self, machine: u8, pose: u8) -> bool
        ensures { result ≡ table.has_pose self.now machine pose }
    {
        pose < self.pose_count() && self.sheet.machine(usize::from(pose)) == machine
    }

    /// The posture that a pose gives a zone, if it gives it one.
    pub fn posture_of(&self, pose: u8, zone: u8) -> Option<Posture>
        ensures { result ≡ table.posture_of self.now pose zone }
    {
        self.sheet.posture(usize::from(pose), usize::from(zone))
    }

    /// What a zone takes in the plan's word; the bits of its owner alone if there is no such zone. It is sought among
    /// all poses, so `plan_word` keeps it in a layout.
    pub fn zone_shape(&self, zone: u8) -> ZoneShape
        ensures { result ≡ table.zone_shape self.now zone }
    {
        self.sheet.zone_shape(zone)
    }

    /// Whether a pose can be taken only after moving; no if there is no such pose.
    pub fn is_after_moving(&self, pose: u8) -> bool
        ensures { result ≡ (table.pose_row self.now pose).after_moving }
    {
        self.sheet.is_after_moving(usize::from(pose))
    }

    /// Whether a pose moves: it gives some zone the posture `Moving`.
    pub fn is_moving_pose(&self, pose: u8) -> bool
        ensures { result ≡ table.is_moving_pose self.now pose }
    {
        self.sheet.is_moving(usize::from(pose))
    }

    /// How a plate goes through a zone in a posture, if one goes.
    pub fn transfer(&self, zone: u8, posture: Posture) -> Option<Transfer>
        ensures { result ≡ table.transfer_of self.now zone posture }
    {
        let row = self.zone(zone);
        match posture {
            Posture::Closed | Posture::Moving => None,
            Posture::OpenIn => transfer_by(row.guest, row.host, row.inward),
            Posture::OpenOut => transfer_by(row.host, row.guest, row.outward),
        }
    }
}

fn transfer_by(giver: u8, receiver: u8, way: Option<Way>) -> Option<Transfer>
    ensures { result ≡ table.transfer_by giver receiver way }
{
    let Way { from, to } = way?;
    Some(Transfer {
        giver,
        receiver,
        from,
        to,
    })
}
