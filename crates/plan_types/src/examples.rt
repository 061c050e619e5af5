//! Two plants as examples, what `Plan::new` says of faulty tables, and what tables tell.
ghost use Rattle.std.specs.Prelude.{◌≡◌, IfOk};
ghost use Rattle.plan_types.specs.Examples.{ExamplesArePlans, FaultsInOrder, FaultsTellRows};
ghost use Rattle.plan_types.specs.Examples.{FirstFaults, LargestPlans, NoPlans};
ghost use Rattle.plan_types.specs.Faults.{PlansHaveNoFault};
ghost use Rattle.plan_types.specs.Readings.{TablesTell};
ghost use Rattle.plan_types.specs.SpaceExamples.{SpacesAreMet};
ghost use Rattle.plan_types.specs.Examples as examples;

use crate::posture::Posture;
use crate::table::{MAX_ZONES, PlanPlace, PlanPose, PlanZone, Tables, Way};
use std::alloc::{AllocError, Global};

fn way(from: u8, to: u8) -> Option<Way>
    ensures { result ≡ examples.way from to }
{
    Some(Way { from, to })
}

fn pose(
    machine: u8,
    after_moving: bool,
    first: Option<Posture>,
    second: Option<Posture>,
) -> PlanPose
    ensures { result ≡ examples.pose machine after_moving first second }
{
    PlanPose {
        machine,
        after_moving,
        gives: [
            first, second, None, None, None, None, None, None, None, None,
        ],
    }
}

/// Two machines at a press: machine 0 loads it and takes the plates out, machine 1 is the press. Place 0 is the
/// loader's, place 1 the press's. The press's poses: 0 open for loading, 1 open for unloading, 2 closed, 3 travelling.
pub fn press(alloc: Global) -> Result<Tables, AllocError>
    ensures { IfOk result (λ tables. tables ≡ examples.press_table) }
{
    let interior = PlanZone {
        host: 1,
        guest: 0,
        joins: false,
        inward: way(0, 1),
        outward: way(1, 0),
    };
    Ok(Tables {
        machines: 2,
        zones: vec![in alloc; interior]?,
        poses: vec![in alloc;
            pose(1, true, Some(Posture::OpenIn), None),
            pose(1, true, Some(Posture::OpenOut), None),
            pose(1, true, Some(Posture::Closed), None),
            pose(1, false, Some(Posture::Moving), None),
        ]?,
        places: vec![in alloc; PlanPlace::kept_by(0), PlanPlace::kept_by(1)]?,
    })
}

/// A lift between two floors: machine 0 is the lift, 1 the lower floor, 2 the upper one; each has the place with its
/// number. The lift's poses: 0 travelling, 1 loading below, 2 unloading above, 3 unloading below, 4 loading above.
pub fn lift(alloc: Global) -> Result<Tables, AllocError>
    ensures { IfOk result (λ tables. tables ≡ examples.lift_table) }
{
    let below = PlanZone {
        host: 0,
        guest: 1,
        joins: false,
        inward: way(1, 0),
        outward: way(0, 1),
    };
    let above = PlanZone {
        host: 0,
        guest: 2,
        joins: false,
        inward: way(2, 0),
        outward: way(0, 2),
    };
    let closed = Some(Posture::Closed);
    Ok(Tables {
        machines: 3,
        zones: vec![in alloc; below, above]?,
        poses: vec![in alloc;
            pose(0, false, Some(Posture::Moving), Some(Posture::Moving)),
            pose(0, true, Some(Posture::OpenIn), closed),
            pose(0, true, closed, Some(Posture::OpenOut)),
            pose(0, true, Some(Posture::OpenOut), closed),
            pose(0, true, closed, Some(Posture::OpenIn)),
        ]?,
        places: vec![in alloc;
            PlanPlace::kept_by(0),
            PlanPlace::kept_by(1),
            PlanPlace::kept_by(2),
        ]?,
    })
}

/// Both examples are plans, and so are a large one and one without any row. Tables that break one rule are none.
pub fn examples_are_plans()
    ensures plans { ExamplesArePlans }
    ensures no_plans { NoPlans }
{}

/// Faulty tables, written out, and the first fault of each: also where others follow it.
pub fn first_faults()
    ensures { FirstFaults }
{}

/// A fault names its row, be it a later one or the last: the first row that has a fault.
pub fn faults_tell_rows()
    ensures { FaultsTellRows }
{}

/// Tables are a plan exactly if they have no fault.
pub fn plans_have_no_fault()
    ensures { PlansHaveNoFault }
{}

/// Faults come in their order: tables with several have the first.
pub fn faults_in_order()
    ensures { FaultsInOrder }
{}

/// The largest tables are plans: 30 machines, 64 poses, 16 places, and words of 64 bits.
pub fn largest_plans()
    ensures { LargestPlans }
{}

/// Tables, written out, and what they tell: which poses move, also by the tenth zone alone; the way of a plate; a
/// zone's parties; a machine's poses; and each number of tables in which all numbers are different.
pub fn tables_tell()
    ensures { TablesTell }
{}

/// Spaces with several guests, written out: a press with two robots, an aisle that three shuttles cross, or five, and a
/// tool changer with two robots. Their bits and bytes, who enters them, and the faults of others.
pub fn spaces_are_met()
    ensures { SpacesAreMet }
{}
