//! Whether zones, places and a stamp make a sound state.
ghost use Rattle.std.specs.Prelude.{◌≡◌, Bool};
ghost use Rattle.std.specs.List.{list_any};
ghost use Rattle.cell_types.specs.Everything.{all_poses};
ghost use Rattle.cell_rules.specs.Sound as sound;
ghost use Rattle.cell_rules.specs.SoundTest as tests;
ghost use Rattle.cell_rules.specs.ModelState.{model_state};

use crate::places::Places;
use crate::refusals::is_open;
use crate::stamp::LAST_STAMP;
use crate::zones::{ZoneState, Zones};
use cell_types::{
    Machine, Place, Pose, Posture, Transfer, Zone, guest, host, posture_in, transfer,
};

pub(crate) fn is_owned_by(owner: Option<Machine>, machine: Machine) -> bool
    ensures { result ≡ sound.is_owned_by owner machine }
{
    owner == Some(machine)
}

fn has_lawful_owner(zone: Zone, at: ZoneState) -> bool
    ensures { result ≡ sound.has_lawful_owner zone at }
{
    at.owner.is_none() || is_owned_by(at.owner, host(zone)) || is_owned_by(at.owner, guest(zone))
}

pub(crate) fn is_onto_full(full: &Places, row: Option<Transfer>) -> bool
    ensures { result ≡ sound.is_onto_full full.now row }
{
    match row {
        Some(row) => full.contains(row.to),
        None => false,
    }
}

fn is_received_by(owner: Option<Machine>, row: Option<Transfer>) -> bool
    ensures { result ≡ sound.is_received_by owner row }
{
    match row {
        Some(row) => is_owned_by(owner, row.receiver),
        None => false,
    }
}

fn has_lawful_plate(full: &Places, zone: Zone, at: ZoneState) -> bool
    ensures { result ≡ sound.has_lawful_plate full.now zone at }
{
    let row = transfer(zone, at.posture);
    !at.flag || (is_received_by(at.owner, row) && !is_onto_full(full, row))
}

fn is_open_to_guest(zone: Zone, at: ZoneState) -> bool
    ensures { result ≡ sound.is_open_to_guest zone at }
{
    !is_owned_by(at.owner, guest(zone)) || is_open(at.posture)
}

fn moves_by_host(zone: Zone, at: ZoneState) -> bool
    ensures { result ≡ sound.moves_by_host zone at }
{
    at.posture != Posture::Moving || is_owned_by(at.owner, host(zone))
}

fn is_given_by(zone: Zone, posture: Posture, pose: Pose) -> bool
    ensures { result ≡ sound.is_given_by zone posture pose }
{
    posture_in(host(zone), pose, zone) == Some(posture)
}

fn is_given_by_some_pose(zone: Zone, posture: Posture) -> bool
    ensures { result ≡ list_any (sound.is_given_by zone posture) all_poses }
{
    Pose::ALL
        .iter()
        .any(|pose| is_given_by(zone, posture, *pose))
}

fn is_of_some_pose(zone: Zone, posture: Posture) -> bool
    ensures { result ≡ sound.is_of_some_pose zone posture }
{
    posture == Posture::Closed || is_given_by_some_pose(zone, posture)
}

fn has_one_plate(full: &Places, at: ZoneState) -> bool
    ensures { result ≡ sound.has_one_plate full.now at }
{
    let is_out_full = full.contains(Place::PressOut);
    !(full.contains(Place::PressIn) && is_out_full)
        && (at.posture != Posture::OpenIn || !is_out_full)
}

fn is_lawful(full: &Places, zone: Zone, at: ZoneState) -> bool
    ensures { result ≡ tests.is_lawful_at full.now zone at }
{
    has_lawful_owner(zone, at)
        && has_lawful_plate(full, zone, at)
        && is_open_to_guest(zone, at)
        && moves_by_host(zone, at)
        && is_of_some_pose(zone, at.posture)
}

fn all_lawful(full: &Places, zones: &Zones) -> bool
    ensures { result ≡ tests.all_lawful full.now zones.now }
{
    Zone::ALL
        .iter()
        .all(|zone| is_lawful(full, *zone, zones.get(*zone)))
}

/// Whether zones, places and a stamp make a sound state.
pub fn is_sound(zones: &Zones, full: &Places, stamp: u32) -> bool
    ensures { (stopped : Bool) → result ≡ tests.is_sound (model_state zones.now full.now stamp stopped) }
{
    stamp <= LAST_STAMP && all_lawful(full, zones) && has_one_plate(full, zones.get(Zone::Z3))
}
