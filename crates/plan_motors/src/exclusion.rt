//! Whether two motors exclude each other: whether no sound state permits both.
ghost use Rattle.std.specs.Prelude.{◌≡◌, ◌↔◌, IsTrue, map};
ghost use Rattle.std.specs.List.{range_with_len};
ghost use Rattle.plan_types.specs.Below.{first_below};
ghost use Rattle.plan_types.specs.Table.{zone_count, place_count};
ghost use Rattle.plan_motors.specs.Exclusion as excluding;
ghost use Rattle.plan_motors.specs.Decided.{NeverBoth, IsShown, is_excluded};

use crate::entering::enters;
use crate::motor::{Motor, meets};
use plan_rules::{State, ZoneState};
use plan_types::{MAX_PLACES, MAX_ZONES, Plan, Posture};

/// Why no sound state permits two motors.
#[derive(Clone, Copy, Debug, PartialEq, Eq)]
pub enum Cause {
    /// This zone, with the others of its space, is never as both need it.
    Zone(u8),
    /// This place would have to be full and empty.
    Place(u8),
}

/// Whether two motors exclude each other.
#[derive(Clone, Copy, Debug, PartialEq, Eq)]
pub enum Exclusion {
    /// No sound state permits both.
    Excluded(Cause),
    /// This sound state permits both.
    Possible(State),
}

const FREE_ZONE: ZoneState = ZoneState {
    owner: None,
    flag: false,
    posture: Posture::Closed,
};

pub(crate) fn owner_needed(first: &Motor, second: &Motor, zone: u8) -> Option<u8>
    ensures { result ≡ excluding.owner_needed first.now second.now zone }
{
    if first.zone_need(zone).holds {
        Some(first.machine)
    } else if second.zone_need(zone).holds {
        Some(second.machine)
    } else {
        None
    }
}

fn posture_needed(first: &Motor, second: &Motor, zone: u8) -> Option<Posture>
    ensures { result ≡ excluding.posture_needed first.now second.now zone }
{
    first
        .zone_need(zone)
        .posture
        .or(second.zone_need(zone).posture)
}

fn owner_near(plan: &Plan, first: &Motor, second: &Motor, zone: u8, other: u8) -> Option<u8>
    ensures { result ≡ excluding.owner_near plan.now first.now second.now zone other }
{
    if plan.same_space(other, zone) {
        owner_needed(first, second, other)
    } else {
        None
    }
}

/// The owner that two motors need of the space of a zone.
#[tactic(auto, using(plan_types::proofs::lemmas::Below::first_below_more))]
fn owner_in(plan: &Plan, first: &Motor, second: &Motor, zone: u8) -> Option<u8>
    ensures { result ≡ excluding.owner_in plan.now first.now second.now zone }
{
    let mut owner = None;
    for other in 0..plan.zone_count() {
        owner = owner.or(owner_near(plan, first, second, zone, other));
    }
    owner
}

fn moves_near(plan: &Plan, first: &Motor, second: &Motor, zone: u8, other: u8) -> bool
    ensures { result ≡ excluding.moves_near plan.now first.now second.now zone other }
{
    plan.same_space(other, zone) && posture_needed(first, second, other) == Some(Posture::Moving)
}

#[tactic(auto, using(plan_types::proofs::lemmas::Below::any_below_more))]
fn moves_in(plan: &Plan, first: &Motor, second: &Motor, zone: u8) -> bool
    ensures { result ≡ excluding.moves_in plan.now first.now second.now zone }
{
    let mut moves = false;
    for other in 0..plan.zone_count() {
        moves = moves || moves_near(plan, first, second, zone, other);
    }
    moves
}

/// The posture that a zone has to have since two motors need its space to move.
fn motion_in(plan: &Plan, first: &Motor, second: &Motor, zone: u8) -> Option<Posture>
    ensures { result ≡ excluding.motion_in plan.now first.now second.now zone }
{
    moves_in(plan, first, second, zone).then_some(Posture::Moving)
}

pub(crate) fn owner_for(
    plan: &Plan,
    zone: u8,
    owner: Option<u8>,
    posture: Option<Posture>,
) -> Option<u8>
    ensures { result ≡ excluding.owner_for plan.now zone owner posture }
{
    let moves = posture == Some(Posture::Moving);
    owner.or(moves.then_some(plan.zone(zone).host))
}

fn posture_for(plan: &Plan, zone: u8, owner: Option<u8>, posture: Option<Posture>) -> Posture
    ensures { result ≡ excluding.posture_for plan.now zone owner posture }
{
    let visits = owner == Some(plan.zone(zone).guest);
    posture.unwrap_or(if visits {
        Posture::OpenIn
    } else {
        Posture::Closed
    })
}

/// What two motors need of a zone and of its space, put together.
fn zone_for(plan: &Plan, first: &Motor, second: &Motor, zone: u8) -> ZoneState
    ensures { result ≡ excluding.zone_for plan.now first.now second.now zone }
{
    let owner = owner_in(plan, first, second, zone);
    let motion = motion_in(plan, first, second, zone);
    let posture = motion.or(posture_needed(first, second, zone));
    ZoneState {
        owner: owner_for(plan, zone, owner, motion),
        flag: false,
        posture: posture_for(plan, zone, owner, posture),
    }
}

/// Whether a zone without a plate keeps the rules.
fn is_lawful(plan: &Plan, zone: u8, at: ZoneState) -> bool
    ensures { result ≡ excluding.is_lawful plan.now zone at }
{
    let row = plan.zone(zone);
    let enters = match at.owner {
        Some(owner) => enters(plan, owner, zone),
        None => true,
    };
    let hosts = at.owner == Some(row.host);
    let visits = at.owner == Some(row.guest);
    let open = matches!(at.posture, Posture::OpenIn | Posture::OpenOut);
    enters && (!visits || open) && (at.posture != Posture::Moving || hosts)
}

pub(crate) fn is_shared(plan: &Plan, first: &Motor, second: &Motor, zone: u8, at: ZoneState) -> bool
    ensures { result ≡ excluding.is_shared plan.now first.now second.now zone at }
{
    is_lawful(plan, zone, at)
        && meets(first.machine, first.zone_need(zone), at)
        && meets(second.machine, second.zone_need(zone), at)
}

fn zone_cause(plan: &Plan, first: &Motor, second: &Motor, zone: u8) -> Option<Cause>
    ensures { result ≡ excluding.zone_cause plan.now first.now second.now zone }
{
    let shared = is_shared(
        plan,
        first,
        second,
        zone,
        zone_for(plan, first, second, zone),
    );
    (!shared).then_some(Cause::Zone(zone))
}

#[tactic(auto, using(plan_types::proofs::lemmas::Below::first_below_more))]
fn first_zone(plan: &Plan, first: &Motor, second: &Motor) -> Option<Cause>
    ensures { result
        ≡ first_below (excluding.zone_cause plan.now first.now second.now) (zone_count plan.now) }
{
    let mut cause = None;
    for zone in 0..plan.zone_count() {
        cause = cause.or(zone_cause(plan, first, second, zone));
    }
    cause
}

fn are_opposite(first: Option<bool>, second: Option<bool>) -> bool
    ensures { result ≡ excluding.are_opposite first second }
{
    match (first, second) {
        (Some(first), Some(second)) => first != second,
        _ => false,
    }
}

fn place_cause(first: &Motor, second: &Motor, place: u8) -> Option<Cause>
    ensures { result ≡ excluding.place_cause first.now second.now place }
{
    are_opposite(first.place_need(place), second.place_need(place)).then_some(Cause::Place(place))
}

#[tactic(auto, using(plan_types::proofs::lemmas::Below::first_below_more))]
fn first_place(plan: &Plan, first: &Motor, second: &Motor) -> Option<Cause>
    ensures { result
        ≡ first_below (excluding.place_cause first.now second.now) (place_count plan.now) }
{
    let mut cause = None;
    for place in 0..plan.place_count() {
        cause = cause.or(place_cause(first, second, place));
    }
    cause
}

/// The first zone, or else the first place, that can't be as both motors need it.
pub(crate) fn first_cause(plan: &Plan, first: &Motor, second: &Motor) -> Option<Cause>
    ensures { result ≡ excluding.cause plan.now first.now second.now }
{
    first_zone(plan, first, second).or(first_place(plan, first, second))
}

fn zone_in(plan: &Plan, first: &Motor, second: &Motor, zone: u8) -> ZoneState
    ensures { result ≡ excluding.zone_in plan.now first.now second.now zone }
{
    if zone < plan.zone_count() {
        zone_for(plan, first, second, zone)
    } else {
        FREE_ZONE
    }
}

fn place_in(plan: &Plan, first: &Motor, second: &Motor, place: u8) -> bool
    ensures { result ≡ excluding.place_in plan.now first.now second.now place }
{
    let needed = first.place_need(place).or(second.place_need(place));
    place < plan.place_count() && needed.unwrap_or(false)
}

fn zones_for(plan: &Plan, first: &Motor, second: &Motor) -> [ZoneState; MAX_ZONES]
    ensures { result
        ≡ map (excluding.zone_in plan.now first.now second.now) (range_with_len 0 10) }
{
    let mut zones = [FREE_ZONE; MAX_ZONES];
    for zone in 0..MAX_ZONES {
        zones[zone] = zone_in(plan, first, second, zone as u8);
    }
    zones
}

fn places_for(plan: &Plan, first: &Motor, second: &Motor) -> [bool; MAX_PLACES]
    ensures { result
        ≡ map (excluding.place_in plan.now first.now second.now) (range_with_len 0 16) }
{
    let mut places = [false; MAX_PLACES];
    for place in 0..MAX_PLACES {
        places[place] = place_in(plan, first, second, place as u8);
    }
    places
}

/// The state that both motors need. What neither needs is free, closed and empty.
fn state_for(plan: &Plan, first: &Motor, second: &Motor) -> State
    ensures { result ≡ excluding.state_for plan.now first.now second.now }
{
    State {
        zones: zones_for(plan, first, second),
        full: places_for(plan, first, second),
        stamp: 0,
        stopped: false,
    }
}

/// Whether two motors exclude each other: no sound state permits both. If they don't, a sound state permits both.
pub fn exclude(plan: &Plan, first: &Motor, second: &Motor) -> Exclusion
    ensures decided { IsTrue (is_excluded result) ↔ NeverBoth plan.now first.now second.now }
    ensures shown { IsShown plan.now first.now second.now result }
{
    let _ = plan.machines();
    match first_cause(plan, first, second) {
        Some(cause) => Exclusion::Excluded(cause),
        None => Exclusion::Possible(state_for(plan, first, second)),
    }
}
