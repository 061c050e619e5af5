//! Why a pose is refused, read off the fields of a word that it looks at, in the order of `plan_rules`.
ghost use Rattle.std.specs.Prelude.{◌≡◌, ◌||◌, ◌&&◌, not, unwrap_or, nat_eq};
ghost use Rattle.plan_types.specs.Same.{same_posture};
ghost use Rattle.plan_types.specs.Below.{any_below};
ghost use Rattle.plan_types.specs.Table.{zone_count, host_of, posture_of, is_moving_pose};
ghost use Rattle.plan_rules.specs.Refusals as refusals;
ghost use Rattle.plan_word.specs.Layout.{counts_of};
ghost use Rattle.plan_word.specs.Reading.{state_told};

use crate::guards::{is_taken, space_has_plate, worn};
use crate::layout::Layout;
use crate::word::{is_stopped_in, zone_in_word};
use plan_types::{Plan, Posture, Refusal};

/// The posture of a zone after a pose.
fn posture_with(plan: &Plan, pose: u8, zone: u8, posture: Posture) -> Posture
    ensures { result ≡ unwrap_or (posture_of plan.now pose zone) posture }
{
    plan.posture_of(pose, zone).unwrap_or(posture)
}

/// Whether a machine must own a zone, and no plate may be in it, for a pose: it hosts the zone, and the pose moves or
/// gives the zone another posture.
fn is_concerned(plan: &Plan, machine: u8, pose: u8, zone: u8, posture: Posture) -> bool
    ensures { let after = unwrap_or (posture_of plan.now pose zone) posture in result
        ≡ (nat_eq (host_of plan.now zone) machine
        && (is_moving_pose plan.now pose || not (same_posture after posture))) }
{
    plan.host(zone) == machine
        && (plan.is_moving_pose(pose) || posture_with(plan, pose, zone, posture) != posture)
}

fn unowned_at(
    plan: &Plan,
    layout: &Layout,
    word: u64,
    machine: u8,
    pose: u8,
    zone: u8,
) -> Option<Refusal>
    requires { layout.now ≡ counts_of plan.now }
    ensures { let state = state_told plan.now word in
        result ≡ refusals.unowned_by_pose plan.now state machine pose zone }
{
    if plan.host(zone) != machine {
        return None;
    }
    let at = zone_in_word(plan, layout, word, zone);
    if at.owner == Some(machine) {
        return None;
    }
    let concerned = is_concerned(plan, machine, pose, zone, at.posture);
    concerned.then_some(Refusal::NotOwner(at.owner))
}

fn any_unowned(plan: &Plan, layout: &Layout, word: u64, machine: u8, pose: u8) -> Option<Refusal>
    requires { layout.now ≡ counts_of plan.now }
    ensures { let state = state_told plan.now word in
        result
        ≡ refusals.first_zone plan.now (refusals.unowned_by_pose plan.now state machine pose) }
{
    for zone in 0..plan.zone_count() {
        if let Some(refusal) = unowned_at(plan, layout, word, machine, pose, zone) {
            return Some(refusal);
        }
    }
    None
}

fn plate_at(
    plan: &Plan,
    layout: &Layout,
    word: u64,
    machine: u8,
    pose: u8,
    zone: u8,
) -> Option<Refusal>
    requires { layout.now ≡ counts_of plan.now }
    ensures { let state = state_told plan.now word in
        result ≡ refusals.plate_under_pose plan.now state machine pose zone }
{
    if plan.host(zone) != machine {
        return None;
    }
    if !space_has_plate(plan, layout, word, zone) {
        return None;
    }
    let at = zone_in_word(plan, layout, word, zone);
    let concerned = is_concerned(plan, machine, pose, zone, at.posture);
    concerned.then_some(Refusal::PlateInZone(zone))
}

fn any_plate(plan: &Plan, layout: &Layout, word: u64, machine: u8, pose: u8) -> Option<Refusal>
    requires { layout.now ≡ counts_of plan.now }
    ensures { let state = state_told plan.now word in
        result
        ≡ refusals.first_zone plan.now (refusals.plate_under_pose plan.now state machine pose) }
{
    for zone in 0..plan.zone_count() {
        if let Some(refusal) = plate_at(plan, layout, word, machine, pose, zone) {
            return Some(refusal);
        }
    }
    None
}

fn stands_at(plan: &Plan, layout: &Layout, word: u64, machine: u8, zone: u8) -> bool
    requires { layout.now ≡ counts_of plan.now }
    ensures { result ≡ refusals.stands_at plan.now (state_told plan.now word) machine zone }
{
    plan.host(zone) == machine && zone_in_word(plan, layout, word, zone).posture != Posture::Moving
}

/// Whether any zone that a machine hosts doesn't move.
fn stands_anywhere(plan: &Plan, layout: &Layout, word: u64, machine: u8) -> bool
    requires { layout.now ≡ counts_of plan.now }
    ensures { let state = state_told plan.now word in
        result ≡ any_below (refusals.stands_at plan.now state machine) (zone_count plan.now) }
{
    for zone in 0..plan.zone_count() {
        if stands_at(plan, layout, word, machine, zone) {
            return true;
        }
    }
    false
}

/// Whether a pose opens a zone inward onto a place that is taken.
fn opens_onto_plate(plan: &Plan, layout: &Layout, word: u64, pose: u8, zone: u8) -> Option<Refusal>
    requires { layout.now ≡ counts_of plan.now }
    ensures { result ≡ refusals.opens_onto_plate plan.now (state_told plan.now word) pose zone }
{
    if plan.posture_of(pose, zone) != Some(Posture::OpenIn) {
        return None;
    }
    if zone_in_word(plan, layout, word, zone).posture == Posture::OpenIn {
        return None;
    }
    match plan.transfer(zone, Posture::OpenIn) {
        Some(way) => is_taken(plan, layout, word, way.to).then_some(Refusal::PlaceFull),
        None => None,
    }
}

fn any_opens_onto_plate(plan: &Plan, layout: &Layout, word: u64, pose: u8) -> Option<Refusal>
    requires { layout.now ≡ counts_of plan.now }
    ensures { let state = state_told plan.now word in
        result ≡ refusals.first_zone plan.now (refusals.opens_onto_plate plan.now state pose) }
{
    for zone in 0..plan.zone_count() {
        if let Some(refusal) = opens_onto_plate(plan, layout, word, pose, zone) {
            return Some(refusal);
        }
    }
    None
}

fn jumps(plan: &Plan, layout: &Layout, word: u64, machine: u8, pose: u8) -> Option<Refusal>
    requires { layout.now ≡ counts_of plan.now }
    ensures { result ≡ refusals.jump plan.now (state_told plan.now word) machine pose }
{
    let jumps = plan.is_after_moving(pose) && stands_anywhere(plan, layout, word, machine);
    jumps.then_some(Refusal::Jump)
}

fn moves_while_stopped(plan: &Plan, layout: &Layout, word: u64, pose: u8) -> Option<Refusal>
    requires { layout.now ≡ counts_of plan.now }
    ensures { result ≡ refusals.moves_while_stopped plan.now (state_told plan.now word) pose }
{
    (is_stopped_in(layout, word) && plan.is_moving_pose(pose)).then_some(Refusal::Stopped)
}

pub(crate) fn pose_refusal(
    plan: &Plan,
    layout: &Layout,
    word: u64,
    machine: u8,
    pose: u8,
) -> Option<Refusal>
    requires { layout.now ≡ counts_of plan.now }
    ensures { result ≡ refusals.pose_refusal plan.now (state_told plan.now word) machine pose }
{
    if !plan.has_pose(machine, pose) {
        return Some(Refusal::NoPose);
    }
    if let Some(refusal) = moves_while_stopped(plan, layout, word, pose) {
        return Some(refusal);
    }
    if let Some(refusal) = any_unowned(plan, layout, word, machine, pose) {
        return Some(refusal);
    }
    if let Some(refusal) = any_plate(plan, layout, word, machine, pose) {
        return Some(refusal);
    }
    if let Some(refusal) = jumps(plan, layout, word, machine, pose) {
        return Some(refusal);
    }
    if let Some(refusal) = any_opens_onto_plate(plan, layout, word, pose) {
        return Some(refusal);
    }
    worn(plan, layout, word)
}
