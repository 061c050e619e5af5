//! Whether a state is sound by a plan.
ghost use Rattle.std.specs.Prelude.{◌≡◌, ◌↔◌, ◌<◌, ◌≤◌, ◌&&◌, ◌||◌, ℕ, nat_eq, IsTrue};
ghost use Rattle.plan_types.specs.Below.{any_below};
ghost use Rattle.plan_types.specs.Table as table;
ghost use Rattle.plan_types.specs.Table.{zone_count, place_count, same_space, host_of, guest_of};
ghost use Rattle.plan_rules.specs.State as states;
ghost use Rattle.plan_rules.specs.Sound.{IsSound, IsLawfulZone, IsOfSpace};
ghost use Rattle.plan_word.specs.Spaces.{second_plate, second_plates};

use plan_rules::{LAST_STAMP, State, ZoneState};
use plan_types::{Plan, Posture};

fn is_party_near(plan: &Plan, machine: u8, zone: u8, other: u8) -> bool
    ensures { result ≡ (same_space plan.now other zone
        && (nat_eq machine (host_of plan.now other) || nat_eq machine (guest_of plan.now other))) }
{
    plan.same_space(other, zone) && (machine == plan.host(other) || machine == plan.guest(other))
}

/// Whether a machine enters the space of a zone: it is a party of a zone of this space.
#[tactic(auto, using(plan_types::proofs::lemmas::Below::any_below_more))]
fn enters(plan: &Plan, machine: u8, zone: u8) -> bool
    ensures { result ≡ table.enters plan.now machine zone }
{
    let mut found = false;
    for other in 0..plan.zone_count() {
        found = found || is_party_near(plan, machine, zone, other);
    }
    found
}

/// Whether a zone keeps the rules: its owner enters its space; a plate in it is on its way to the owner; its guest owns
/// it only while it is open; and while it moves, its host does.
pub fn is_lawful_zone(plan: &Plan, zone: u8, at: ZoneState) -> bool
    ensures { IsTrue result ↔ IsLawfulZone plan.now zone at }
{
    let row = plan.zone(zone);
    let enters = match at.owner {
        Some(owner) => enters(plan, owner, zone),
        None => true,
    };
    let hosts = at.owner == Some(row.host);
    let visits = at.owner == Some(row.guest);
    let receives = match plan.transfer(zone, at.posture) {
        Some(way) => at.owner == Some(way.receiver),
        None => false,
    };
    let open = matches!(at.posture, Posture::OpenIn | Posture::OpenOut);
    enters
        && (!at.flag || receives)
        && (!visits || open)
        && (at.posture != Posture::Moving || hosts)
}

fn are_lawful_zones(plan: &Plan, state: &State) -> bool
    ensures { IsTrue result ↔ ((z : ℕ) → z < zone_count plan.now
        → IsLawfulZone plan.now z (states.zone_at state.now z)) }
{
    for zone in 0..plan.zone_count() {
        if !is_lawful_zone(plan, zone, state.zone(zone)) {
            return false;
        }
    }
    true
}

/// Whether a zone has the owner of its space, and moves if its space does.
fn is_of_space(plan: &Plan, state: &State, zone: u8) -> bool
    ensures { IsTrue result ↔ IsOfSpace plan.now state.now zone }
{
    let at = state.zone(zone);
    let first = state.zone(plan.space(zone));
    let moves = at.posture == Posture::Moving;
    at.owner == first.owner && moves == (first.posture == Posture::Moving)
}

fn are_of_spaces(plan: &Plan, state: &State) -> bool
    ensures { IsTrue result ↔ ((z : ℕ) → z < zone_count plan.now → IsOfSpace plan.now state.now z) }
{
    for zone in 0..plan.zone_count() {
        if !is_of_space(plan, state, zone) {
            return false;
        }
    }
    true
}

/// Whether an earlier zone of a zone's space has a plate, and the zone, too.
fn is_second_plate(plan: &Plan, state: &State, zone: u8, other: u8) -> bool
    ensures { result ≡ second_plate plan.now state.now zone other }
{
    plan.same_space(other, zone) && state.zone(other).flag && state.zone(zone).flag
}

#[tactic(auto, using(plan_types::proofs::lemmas::Below::any_below_more))]
fn has_second_plate(plan: &Plan, state: &State, zone: u8) -> bool
    ensures { result ≡ any_below (second_plate plan.now state.now zone) zone }
{
    let mut found = false;
    for other in 0..zone {
        found = found || is_second_plate(plan, state, zone, other);
    }
    found
}

#[tactic(auto, using(plan_types::proofs::lemmas::Below::any_below_more))]
fn has_second_plates(plan: &Plan, state: &State) -> bool
    ensures { result ≡ second_plates plan.now state.now }
{
    let mut found = false;
    for zone in 0..plan.zone_count() {
        found = found || has_second_plate(plan, state, zone);
    }
    found
}

/// Whether a plate is on its way through a zone to a place.
pub(crate) fn is_coming(plan: &Plan, zone: u8, at: ZoneState, place: u8) -> bool
    ensures { result ≡ states.is_coming plan.now at place zone }
{
    if !at.flag {
        return false;
    }
    match plan.transfer(zone, at.posture) {
        Some(way) => way.to == place,
        None => false,
    }
}

/// How many plates a place has, or has coming.
fn plates_for(plan: &Plan, state: &State, place: u8) -> u8
    ensures { result ≡ states.plates_for plan.now state.now place }
{
    let mut plates = u8::from(state.is_full(place));
    for zone in 0..plan.zone_count() {
        plates += u8::from(is_coming(plan, zone, state.zone(zone), place));
    }
    plates
}

fn has_one_plate_a_place(plan: &Plan, state: &State) -> bool
    ensures { IsTrue result ↔ ((p : ℕ) → p < place_count plan.now
        → states.plates_for plan.now state.now p ≤ 1) }
{
    for place in 0..plan.place_count() {
        if plates_for(plan, state, place) > 1 {
            return false;
        }
    }
    true
}

/// Whether a state is sound by a plan.
pub(crate) fn is_sound(plan: &Plan, state: State) -> bool
    ensures { IsTrue result ↔ IsSound plan.now state }
{
    let _ = plan.machines();
    if state.stamp > LAST_STAMP || !are_lawful_zones(plan, &state) {
        return false;
    }
    if !are_of_spaces(plan, &state) {
        return false;
    }
    if has_second_plates(plan, &state) {
        return false;
    }
    has_one_plate_a_place(plan, &state)
}
