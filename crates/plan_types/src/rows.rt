//! The bytes of one row, and the row that has them.
ghost use Rattle.std.specs.Prelude.{◌≡◌, ◌↔◌, ◌+◌, ◌*◌, ◌<◌, ◌∷◌, [], Bool, List, None, Option, get_or, map};
ghost use Rattle.std.specs.Prelude.{nat_eq, IfSome};
ghost use Rattle.std.specs.List.{list_any};
ghost use mir.Val.{bool_byte};
ghost use Rattle.plan_types.specs.declared.posture.Posture.{Posture};
ghost use Rattle.plan_types.specs.declared.table.Way.{Way};
ghost use Rattle.plan_types.specs.declared.table.PlanZone.{PlanZone};
ghost use Rattle.plan_types.specs.declared.table.PlanPose.{PlanPose};
ghost use Rattle.plan_types.specs.Bytes as bytes;
ghost use Rattle.plan_types.specs.Kept as kept;
ghost use Rattle.plan_types.specs.Table.{is_moving};

use crate::{MAX_ZONES, PlanPlace, PlanPose, PlanZone, Posture, Way};

/// The bytes of a zone.
pub(crate) const ZONE_BYTES: usize = 8;

/// The bytes of a pose.
pub(crate) const POSE_BYTES: usize = 12;

/// The first way of a row, and whether the zone joins.
fn entrance_row(joins: bool, way: Option<Way>) -> [u8; 3]
    ensures { result
        ≡ (bytes.way_byte way + 2 * bool_byte joins) ∷ bytes.from_byte way ∷ bytes.to_byte way ∷ [] }
{
    match (joins, way) {
        (false, None) => [0, 0, 0],
        (false, Some(Way { from, to })) => [1, from, to],
        (true, None) => [2, 0, 0],
        (true, Some(Way { from, to })) => [3, from, to],
    }
}

fn way_row(way: Option<Way>) -> [u8; 3]
    ensures { result ≡ bytes.way_byte way ∷ bytes.from_byte way ∷ bytes.to_byte way ∷ [] }
{
    match way {
        None => [0, 0, 0],
        Some(Way { from, to }) => [1, from, to],
    }
}

fn entrance_with(row: [u8; 3]) -> Option<(bool, Option<Way>)>
    ensures { (joins : Bool) (way : Option Way) → (result ≡ Some (joins, way))
        ↔ ((bytes.way_byte way + 2 * bool_byte joins) ∷ bytes.from_byte way ∷ bytes.to_byte way ∷ [] ≡ row) }
{
    match row {
        [0, 0, 0] => Some((false, None)),
        [1, from, to] => Some((false, Some(Way { from, to }))),
        [2, 0, 0] => Some((true, None)),
        [3, from, to] => Some((true, Some(Way { from, to }))),
        _ => None,
    }
}

fn way_with(row: [u8; 3]) -> Option<Option<Way>>
    ensures { (way : Option Way) → (result ≡ Some way)
        ↔ (bytes.way_byte way ∷ bytes.from_byte way ∷ bytes.to_byte way ∷ [] ≡ row) }
{
    match row {
        [0, 0, 0] => Some(None),
        [1, from, to] => Some(Some(Way { from, to })),
        _ => None,
    }
}

/// A way's three bytes, told.
fn way_told(mark: u8, from: u8, to: u8) -> Option<Way>
    ensures { result ≡ kept.way_told mark from to }
{
    match mark {
        0 => None,
        _ => Some(Way { from, to }),
    }
}

/// The zone that a row tells, whatever its bytes are.
pub(crate) fn zone_told(row: [u8; ZONE_BYTES]) -> PlanZone
    ensures { result ≡ kept.zone_told row }
{
    PlanZone {
        host: row[0],
        guest: row[1],
        joins: row[2] >= 2,
        inward: way_told(row[2] % 2, row[3], row[4]),
        outward: way_told(row[5], row[6], row[7]),
    }
}

/// The row of a zone.
pub(crate) fn zone_row(zone: PlanZone) -> [u8; ZONE_BYTES]
    ensures { result ≡ bytes.zone_bytes zone }
{
    let [enters, in_from, in_to] = entrance_row(zone.joins, zone.inward);
    let [leaves, out_from, out_to] = way_row(zone.outward);
    [
        zone.host, zone.guest, enters, in_from, in_to, leaves, out_from, out_to,
    ]
}

/// The zone with a row, if there is one.
pub(crate) fn zone_with(row: &[u8; ZONE_BYTES]) -> Option<PlanZone>
    ensures { (zone : PlanZone) → (result ≡ Some zone) ↔ (bytes.zone_bytes zone ≡ row.now) }
{
    let [
        host,
        guest,
        enters,
        in_from,
        in_to,
        leaves,
        out_from,
        out_to,
    ] = *row;
    let (joins, inward) = entrance_with([enters, in_from, in_to])?;
    let outward = way_with([leaves, out_from, out_to])?;
    Some(PlanZone {
        host,
        guest,
        joins,
        inward,
        outward,
    })
}

fn posture_byte(posture: Option<Posture>) -> u8
    ensures { result ≡ bytes.posture_byte posture }
{
    match posture {
        None => 0,
        Some(Posture::Closed) => 1,
        Some(Posture::Moving) => 2,
        Some(Posture::OpenIn) => 3,
        Some(Posture::OpenOut) => 4,
    }
}

fn posture_with(byte: u8) -> Option<Option<Posture>>
    ensures { (posture : Option Posture) → (result ≡ Some posture) ↔ (bytes.posture_byte posture ≡ byte) }
{
    match byte {
        0 => Some(None),
        1 => Some(Some(Posture::Closed)),
        2 => Some(Some(Posture::Moving)),
        3 => Some(Some(Posture::OpenIn)),
        4 => Some(Some(Posture::OpenOut)),
        _ => None,
    }
}

fn posture_told(byte: u8) -> Option<Posture>
    ensures { result ≡ kept.posture_told byte }
{
    match byte {
        0 => None,
        1 => Some(Posture::Closed),
        2 => Some(Posture::Moving),
        3 => Some(Posture::OpenIn),
        _ => Some(Posture::OpenOut),
    }
}

/// The pose that a row tells, whatever its bytes are.
pub(crate) fn pose_told(row: [u8; POSE_BYTES]) -> PlanPose
    ensures { result ≡ kept.pose_told row }
{
    let [machine, moving, a, b, c, d, e, f, g, h, i, j] = row;
    PlanPose {
        machine,
        after_moving: moving != 0,
        gives: [
            posture_told(a),
            posture_told(b),
            posture_told(c),
            posture_told(d),
            posture_told(e),
            posture_told(f),
            posture_told(g),
            posture_told(h),
            posture_told(i),
            posture_told(j),
        ],
    }
}

/// The posture that the pose of a row gives a zone.
#[tactic(auto, using(crate::proofs::RowParts::posture_in))]
pub(crate) fn posture_in_row(row: &[u8; POSE_BYTES], zone: usize) -> Option<Posture>
    ensures { result ≡ get_or (kept.pose_told row.now).gives zone None }
{
    if zone < MAX_ZONES {
        posture_told(row[2 + zone])
    } else {
        None
    }
}

/// Whether one of these bytes is that of the posture `Moving`.
fn has_moving(bytes: &[u8]) -> bool
    ensures { result ≡ list_any (λ byte. nat_eq byte 2) bytes.now }
{
    bytes.iter().any(|byte| *byte == 2)
}

/// Whether the pose of a row gives some zone the posture `Moving`.
pub(crate) fn gives_moving(row: &[u8; POSE_BYTES]) -> bool
    ensures { result ≡ list_any is_moving (kept.pose_told row.now).gives }
{
    has_moving(&row[2..])
}

/// The row of a pose.
pub(crate) fn pose_row(pose: PlanPose) -> [u8; POSE_BYTES]
    ensures { result ≡ bytes.pose_bytes pose }
{
    let [a, b, c, d, e, f, g, h, i, j] = pose.gives;
    [
        pose.machine,
        u8::from(pose.after_moving),
        posture_byte(a),
        posture_byte(b),
        posture_byte(c),
        posture_byte(d),
        posture_byte(e),
        posture_byte(f),
        posture_byte(g),
        posture_byte(h),
        posture_byte(i),
        posture_byte(j),
    ]
}

fn gives_with(row: [u8; MAX_ZONES]) -> Option<[Option<Posture>; MAX_ZONES]>
    ensures { (gives : List (Option Posture)) → (result ≡ Some gives) ↔ (map bytes.posture_byte gives ≡ row) }
{
    let mut gives = [None; MAX_ZONES];
    for zone in 0..MAX_ZONES {
        gives[zone] = posture_with(row[zone])?;
    }
    Some(gives)
}

fn flag_with(byte: u8) -> Option<bool>
    ensures { (flag : Bool) → (result ≡ Some flag) ↔ (bool_byte flag ≡ byte) }
{
    match byte {
        0 => Some(false),
        1 => Some(true),
        _ => None,
    }
}

/// The pose with a row, if there is one.
pub(crate) fn pose_with(row: &[u8; POSE_BYTES]) -> Option<PlanPose>
    ensures whole { IfSome result bytes.IsForTenZones }
    ensures row { (pose : PlanPose) → (result ≡ Some pose) ↔ (bytes.pose_bytes pose ≡ row.now) }
{
    let [machine, moving, a, b, c, d, e, f, g, h, i, j] = *row;
    let after_moving = flag_with(moving)?;
    let gives = gives_with([a, b, c, d, e, f, g, h, i, j])?;
    Some(PlanPose {
        machine,
        after_moving,
        gives,
    })
}

/// The byte of a place.
pub(crate) fn place_row(place: PlanPlace) -> u8
    requires { place.keeper < 64 }
    ensures { result ≡ bytes.place_byte place }
{
    place.keeper + 64 * u8::from(place.source) + 128 * u8::from(place.sink)
}

/// The place with a byte.
#[tactic(auto, using(crate::proofs::PlaceBytes::told_back))]
pub(crate) fn place_with(byte: u8) -> PlanPlace
    ensures byte { bytes.place_byte result ≡ byte }
    ensures narrow { result.keeper < 64 }
{
    PlanPlace {
        keeper: byte % 64,
        source: byte % 128 >= 64,
        sink: byte >= 128,
    }
}
