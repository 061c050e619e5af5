//! Bytes to plans.
ghost use Rattle.std.specs.Prelude.{◌≡◌, ◌≢◌, ◌≤◌, ◌↔◌, [], Some, List, All, IfSome, IsNone, flat_map, map, length};
ghost use Rattle.plan_types.specs.declared.table.PlanZone.{PlanZone};
ghost use Rattle.plan_types.specs.declared.table.PlanPose.{PlanPose};
ghost use Rattle.plan_types.specs.Table.{PlanTable, whole_table};
ghost use Rattle.plan_types.specs.Bytes.{bytes_of, zone_bytes, pose_bytes, place_byte, HasWholeRows, IsForTenZones};
ghost use Rattle.plan_types.specs.Bytes.{HasNarrowPlaces, IsNarrow, IsPlanOf};
ghost use Rattle.plan_types.specs.Parts.{IsPartsOf};

use crate::plan::Plan;
use crate::rows::{POSE_BYTES, ZONE_BYTES, place_with, pose_with, zone_with};
use crate::sheet::Sheet;
use crate::table::{MAX_PLACES, MAX_POSES, MAX_ZONES};

fn read_zones(start: Sheet, bytes: &[u8]) -> Option<Sheet>
    requires empty { start.zones ≡ [] }
    requires few { length bytes.now ≤ 80 }
    ensures zones { IfSome result (λ read.
        (read ≡ whole_table start.machines read.zones start.poses start.places)
        × (flat_map zone_bytes read.zones ≡ bytes.now)) }
    ensures none { IsNone result → (zones : List PlanZone) → flat_map zone_bytes zones ≢ bytes.now }
{
    let mut sheet = start;
    let mut rest = bytes;
    while let Some((row, after)) = rest.split_first_chunk::<ZONE_BYTES>() {
        let Some(zone) = zone_with(row) else {
            return None;
        };
        sheet.push_zone(zone);
        rest = after;
    }
    if rest.is_empty() { Some(sheet) } else { None }
}

fn read_poses(start: Sheet, bytes: &[u8]) -> Option<Sheet>
    requires empty { start.poses ≡ [] }
    requires few { length bytes.now ≤ 768 }
    ensures poses { IfSome result (λ read.
        (read ≡ whole_table start.machines start.zones read.poses start.places)
        × (flat_map pose_bytes read.poses ≡ bytes.now)) }
    ensures whole { IfSome result HasWholeRows }
    ensures none { IsNone result →
        (poses : List PlanPose) → All IsForTenZones poses → flat_map pose_bytes poses ≢ bytes.now }
{
    let mut sheet = start;
    let mut rest = bytes;
    while let Some((row, after)) = rest.split_first_chunk::<POSE_BYTES>() {
        let Some(pose) = pose_with(row) else {
            return None;
        };
        sheet.push_pose(pose);
        rest = after;
    }
    if rest.is_empty() { Some(sheet) } else { None }
}

#[tactic(auto, using(crate::proofs::PlaceBytes::bytes_more, crate::proofs::PlaceBytes::narrow_more))]
fn read_places(start: Sheet, bytes: &[u8]) -> Sheet
    requires empty { start.places ≡ [] }
    requires few { length bytes.now ≤ 16 }
    ensures places { result ≡ whole_table start.machines start.zones start.poses result.places }
    ensures bytes { map place_byte result.places ≡ bytes.now }
    ensures narrow { HasNarrowPlaces result }
{
    let mut sheet = start;
    for byte in bytes {
        sheet.push_place(place_with(*byte));
    }
    sheet
}

/// The rows of each table.
#[derive(Clone, Copy)]
struct Parts<'a> {
    machines: u8,
    zones: &'a [u8],
    poses: &'a [u8],
    places: &'a [u8],
}

/// Cuts bytes into the rows of each table, as their counts say.
fn parts_of(bytes: &[u8]) -> Option<Parts>
    ensures some { IfSome result (λ parts. (tables : PlanTable) → HasWholeRows tables →
        (bytes_of tables ≡ bytes.now) ↔ IsPartsOf parts tables) }
    ensures none { IsNone result →
        (tables : PlanTable) → HasWholeRows tables → bytes_of tables ≢ bytes.now }
{
    let (counts, rows) = bytes.split_first_chunk::<4>()?;
    let [machines, zone_count, pose_count, place_count] = *counts;
    let zone_end = ZONE_BYTES * usize::from(zone_count);
    let pose_end = zone_end + POSE_BYTES * usize::from(pose_count);
    if rows.len() != pose_end + usize::from(place_count) {
        return None;
    }
    Some(Parts {
        machines,
        zones: &rows[..zone_end],
        poses: &rows[zone_end..pose_end],
        places: &rows[pose_end..],
    })
}

/// The tables with these bytes, if they are no more than a sheet has room for.
fn read_sheet(bytes: &[u8]) -> Option<Sheet>
    ensures bytes { IfSome result (λ t. bytes_of t ≡ bytes.now) }
    ensures whole { IfSome result HasWholeRows }
    ensures found { (t : PlanTable) → IsPlanOf bytes.now t → result ≡ Some t }
{
    let parts = parts_of(bytes)?;
    if parts.zones.len() > ZONE_BYTES * MAX_ZONES
        || parts.poses.len() > POSE_BYTES * MAX_POSES
        || parts.places.len() > MAX_PLACES
    {
        return None;
    }
    let sheet = read_zones(Sheet::new(parts.machines), parts.zones)?;
    let sheet = read_poses(sheet, parts.poses)?;
    Some(read_places(sheet, parts.places))
}

/// The plan with these bytes; `None` if they are no plan's. It takes no memory.
pub fn read_plan(bytes: &[u8]) -> Option<Plan>
    ensures { (t : PlanTable) → (result ≡ Some t) ↔ IsPlanOf bytes.now t }
{
    Plan::of(read_sheet(bytes)?).ok()
}
