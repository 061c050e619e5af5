//! From the rows of a document to the plan that they say.
ghost use Rattle.std.specs.Prelude.{IfOk};
ghost use Rattle.plan_document.specs.Motors.{AreNamedMotorsOf};
ghost use Rattle.plan_document.specs.Saying.{IsNamedPlanOf, IsPlanOf};

use crate::document::{Document, WayRow};
use crate::fault::{
    DocumentFault, Key, PlanTextFault, RowOf, TooWide, WayEnd, Wrong, WrongPair, WrongText,
    too_many,
};
use crate::motors::{NamedMotors, named_motors_of};
use crate::programs::{check_programs, programs_of};
use crate::tables::rows_of;
use crate::values::position_of;
use plan_controller::Step;
use plan_explorer::Programs;
use plan_text::{NamedPlan, Names};
use plan_types::{MAX_MACHINES, MAX_PLACES, MAX_POSES, MAX_ZONES, Plan, PlanFault, Tables};
use std::alloc::Global;

/// What a document says.
#[derive(Drop)]
pub struct ProgrammedPlan {
    /// The plan, with names.
    pub named: NamedPlan,
    /// What each machine asks.
    pub programs: Programs,
    /// The names of each machine's sensors, in the order of their bits.
    pub sensors: Vec<Names>,
    /// The steps of each machine, by its lines.
    pub steps: Vec<Vec<Step>>,
    /// The motors and the hazards.
    pub motors: NamedMotors,
}

/// The plan of a document, with its names, programs and motors, or the first fault.
pub fn programmed_plan_of(
    alloc: Global,
    document: &Document,
) -> Result<ProgrammedPlan, PlanTextFault>
    ensures { IfOk result (IsPlanOf document.now) }
{
    let named = named_plan_of(alloc, document)?;
    match check_programs(alloc, document, &named) {
        Ok(()) => with_motors(alloc, document, named),
        Err(fault) => Err(fault_without(named, fault)),
    }
}

/// A plan with the motors, hazards and programs of its document, or the first fault of these.
fn with_motors(
    alloc: Global,
    document: &Document,
    named: NamedPlan,
) -> Result<ProgrammedPlan, PlanTextFault>
    requires { IsNamedPlanOf document.now named }
    ensures { IfOk result (IsPlanOf document.now) }
{
    match named_motors_of(alloc, document, &named) {
        Ok(motors) => with_programs(alloc, document, named, motors),
        Err(fault) => Err(fault_without(named, fault)),
    }
}

/// A plan with motors, and with the programs of its document, or the first fault of these.
fn with_programs(
    alloc: Global,
    document: &Document,
    named: NamedPlan,
    motors: NamedMotors,
) -> Result<ProgrammedPlan, PlanTextFault>
    requires named { IsNamedPlanOf document.now named }
    requires motors { AreNamedMotorsOf document.now named motors }
    ensures { IfOk result (IsPlanOf document.now) }
{
    match programs_of(alloc, document, &named, &motors) {
        Ok((sensors, steps, programs)) => Ok(ProgrammedPlan {
            named,
            programs,
            sensors,
            steps,
            motors,
        }),
        Err(fault) => Err(fault_without_both(named, motors, fault)),
    }
}

/// The fault of a program, without the plan and the motors, which end here.
fn fault_without_both(
    _named: NamedPlan,
    _motors: NamedMotors,
    fault: DocumentFault,
) -> PlanTextFault {
    fault.into()
}

/// A fault without the plan, which ends here.
fn fault_without(_named: NamedPlan, fault: DocumentFault) -> PlanTextFault {
    fault.into()
}

/// The plan of a document, with its names, or the first fault of them.
fn named_plan_of(alloc: Global, document: &Document) -> Result<NamedPlan, PlanTextFault>
    ensures { IfOk result (IsNamedPlanOf document.now) }
{
    let rows = rows_of(alloc, document)?;
    let tables = Tables {
        machines: rows.machines.len() as u8,
        zones: rows.zone_rows,
        poses: rows.pose_rows,
        places: rows.place_rows,
    };
    match Plan::new(tables) {
        Ok(plan) => Ok(NamedPlan::new(
            plan,
            rows.machines,
            rows.zones,
            rows.spaces,
            rows.places,
            rows.poses,
        )),
        Err(fault) => Err(table_fault(alloc, document, fault)),
    }
}

/// The fault of tables in words of the document.
pub(crate) fn table_fault(alloc: Global, document: &Document, fault: PlanFault) -> PlanTextFault {
    let fault = match fault {
        PlanFault::TooWide { missing } => return PlanTextFault::TooWide(too_wide(
            document, missing,
        )),
        PlanFault::TooManyMachines => too_many(Key::Machine, usize::from(MAX_MACHINES)),
        PlanFault::TooManyZones => too_many(Key::Zone, MAX_ZONES),
        PlanFault::TooManyPoses => too_many(Key::Poses, MAX_POSES),
        PlanFault::TooManyPlaces | PlanFault::NoSuchKeeper { .. } => too_many(
            Key::Places,
            MAX_PLACES,
        ),
        // (the sides of a zone have one host, so no document has zones of one space with two)
        PlanFault::NoSuchHost { zone } | PlanFault::TwoHosts { zone } => {
            zone_at(document, zone)
                .zone()
                .key(Key::Host)
                .fault(Wrong::Missing)
        }
        PlanFault::NoSuchGuest { zone } => {
            zone_at(document, zone)
                .key(Key::Guest)
                .fault(Wrong::Missing)
        }
        PlanFault::HostIsGuest { zone } => {
            zone_at(document, zone)
                .key(Key::Guest)
                .fault(Wrong::HostIsGuest)
        }
        PlanFault::InwardAstray { zone } => inward_astray(alloc, document, zone),
        PlanFault::OutwardAstray { zone } => outward_astray(alloc, document, zone),
        PlanFault::NoSuchMachine { pose } => {
            pose_at(document, pose).whole().fault(Wrong::Missing)
        }
        PlanFault::ForeignZone { pose, zone } => foreign_zone(alloc, document, pose, zone),
        PlanFault::GuestTwice { zone } => guest_twice(alloc, document, zone),
        PlanFault::HalfSpace { pose, zone } => half_space(alloc, document, pose, zone),
    };
    fault.into()
}

/// What a document has whose plan's word lacks bits.
fn too_wide(document: &Document, missing: u8) -> TooWide {
    let mut places = 0usize;
    for machine in 0..document.machines.len() {
        places = places.saturating_add(document.machines[machine].places.len());
    }
    TooWide {
        zones: document.zones.len(),
        places,
        missing,
        is_shared: document.zones.iter().any(|row| row.joins),
    }
}

/// Where the row of a zone stands.
fn zone_at(document: &Document, zone: usize) -> RowOf {
    match document.zones.get(zone) {
        Some(row) => row.at,
        None => RowOf::Zone(zone),
    }
}

/// The name of a zone, or an empty text if there is none.
pub(crate) fn zone_name(document: &Document, zone: usize) -> &str {
    match document.zones.get(zone) {
        Some(row) => row.name.as_str(),
        None => "",
    }
}

/// The fault of a pose that gives a zone which its machine doesn't host.
fn foreign_zone(alloc: Global, document: &Document, pose: usize, zone: usize) -> DocumentFault {
    let name = zone_name(document, zone);
    pose_at(document, pose)
        .key(Key::Gives)
        .text_fault(alloc, WrongText::Foreign, name)
}

/// The fault of a side whose guest an earlier side of its zone has.
fn guest_twice(alloc: Global, document: &Document, zone: usize) -> DocumentFault {
    let guest = match document.zones.get(zone) {
        Some(row) => row.guest.as_str(),
        None => "",
    };
    zone_at(document, zone)
        .key(Key::Guest)
        .text_fault(alloc, WrongText::GuestTwice, guest)
}

/// The fault of a pose that moves a side of a zone and not its first one, or gives only one of them a posture.
fn half_space(alloc: Global, document: &Document, pose: usize, zone: usize) -> DocumentFault {
    let side = zone_name(document, zone);
    let first = zone_name(document, first_side(document, zone));
    pose_at(document, pose)
        .key(Key::Gives)
        .pair_fault(alloc, WrongPair::HalfSpace, side, first)
}

/// The first side of the zone of which a row is a side.
fn first_side(document: &Document, zone: usize) -> usize {
    let mut first = 0;
    for row in 0..=zone {
        if !joins(document, row) {
            first = row;
        }
    }
    first
}

fn joins(document: &Document, zone: usize) -> bool {
    match document.zones.get(zone) {
        Some(row) => row.joins,
        None => false,
    }
}

/// The fault of a way inward, which has to lead from a place of the guest to one of the host.
fn inward_astray(alloc: Global, document: &Document, zone: usize) -> DocumentFault {
    let Some(row) = document.zones.get(zone) else {
        return RowOf::Zone(zone).key(Key::Inward).fault(Wrong::NoWay);
    };
    let (host, guest) = (row.host.as_str(), row.guest.as_str());
    let ends = ((WayEnd::FromGuest, guest), (WayEnd::ToHost, host));
    way_astray(alloc, document, &row.inward, row.at, Key::Inward, ends)
}

/// The fault of a way outward, which has to lead from a place of the host to one of the guest.
fn outward_astray(alloc: Global, document: &Document, zone: usize) -> DocumentFault {
    let Some(row) = document.zones.get(zone) else {
        return RowOf::Zone(zone).key(Key::Outward).fault(Wrong::NoWay);
    };
    let (host, guest) = (row.host.as_str(), row.guest.as_str());
    let ends = ((WayEnd::FromHost, host), (WayEnd::ToGuest, guest));
    way_astray(alloc, document, &row.outward, row.at, Key::Outward, ends)
}

/// The fault of a way, by its ends and the machines that have to keep the places there: the first place that isn't
/// kept by its machine.
fn way_astray(
    alloc: Global,
    document: &Document,
    way: &Option<WayRow>,
    at: RowOf,
    key: Key,
    ((from, giver), (to, receiver)): ((WayEnd, &str), (WayEnd, &str)),
) -> DocumentFault {
    let Some(way) = way else {
        return at.key(key).fault(Wrong::NoWay);
    };
    let place = way.from.as_str();
    if !keeps(document, giver, place) {
        return at
            .item(key, 0)
            .pair_fault(alloc, WrongPair::Astray(from), place, giver);
    }
    let place = way.to.as_str();
    at.item(key, 1)
        .pair_fault(alloc, WrongPair::Astray(to), place, receiver)
}

/// Whether a machine keeps a place, by their names.
fn keeps(document: &Document, machine: &str, place: &str) -> bool {
    for row in &document.machines {
        if row.name.as_str() == machine && position_of(&row.places, place).is_some() {
            return true;
        }
    }
    false
}

/// The row of a pose by its number among those of all machines.
fn pose_at(document: &Document, number: usize) -> RowOf {
    let mut left = number;
    for machine in 0..document.machines.len() {
        let count = document.machines[machine].poses.len();
        if left < count {
            return RowOf::Pose {
                machine,
                pose: left,
            };
        }
        left -= count;
    }
    RowOf::Document
}
