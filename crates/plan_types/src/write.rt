//! Plans to bytes.
ghost use Rattle.std.specs.Prelude.{◌≡◌, IfOk, OnOk, flat_map, map, ◌++◌};
ghost use Rattle.plan_types.specs.Bytes.{bytes_of, zone_bytes, pose_bytes, place_byte};

use crate::plan::Plan;
use crate::rows::{place_row, pose_row, zone_row};
use std::alloc::{AllocError, Global};

#[tactic(auto, using(crate::proofs::Writing::zones_more))]
fn write_zones(out: &mut Vec<u8>, plan: &Plan) -> Result<(), AllocError>
    ensures { OnOk result (out.new.items ≡ out.old.items ++ flat_map zone_bytes plan.now.zones) }
{
    for zone in 0..plan.zone_count() {
        out.extend_from_slice(&zone_row(plan.zone(zone)))?;
    }
    Ok(())
}

#[tactic(auto, using(crate::proofs::Writing::poses_more))]
fn write_poses(out: &mut Vec<u8>, plan: &Plan) -> Result<(), AllocError>
    ensures { OnOk result (out.new.items ≡ out.old.items ++ flat_map pose_bytes plan.now.poses) }
{
    for pose in 0..plan.pose_count() {
        out.extend_from_slice(&pose_row(plan.pose(pose)))?;
    }
    Ok(())
}

#[tactic(auto, using(crate::proofs::Writing::places_more))]
fn write_places(out: &mut Vec<u8>, plan: &Plan) -> Result<(), AllocError>
    ensures { OnOk result (out.new.items ≡ out.old.items ++ map place_byte plan.now.places) }
{
    for place in 0..plan.place_count() {
        out.push(place_row(plan.place(place)))?;
    }
    Ok(())
}

/// The bytes of a plan. Fails only if memory runs out.
pub fn write_plan(alloc: Global, plan: &Plan) -> Result<Vec<u8>, AllocError>
    ensures { IfOk result (λ bytes. bytes.items ≡ bytes_of plan.now) }
{
    let mut bytes = vec![in alloc;
        plan.machines(),
        plan.zone_count(),
        plan.pose_count(),
        plan.place_count(),
    ]?;
    write_zones(&mut bytes, plan)?;
    write_poses(&mut bytes, plan)?;
    write_places(&mut bytes, plan)?;
    Ok(bytes)
}
