//! What a call needs of each zone, of each place and of the stop by itself, and what it makes of each.
ghost use Rattle.std.specs.Prelude.{◌≡◌};
ghost use Rattle.plan_rules.specs.State as states;
ghost use Rattle.plan_rules.specs.Sound as sound;
ghost use Rattle.plan_rules.specs.Reply as replies;
ghost use Rattle.plan_compiled.specs.Needs as needs;

use plan_rules::ZoneState;
use plan_types::{Call, Plan, Posture, Transfer, WATCH};

fn is_open(posture: Posture) -> bool
    ensures { result ≡ sound.is_open posture }
{
    matches!(posture, Posture::OpenIn | Posture::OpenOut)
}

/// The other party of a zone.
fn other_party(plan: &Plan, machine: u8, zone: u8) -> u8
    ensures { result ≡ replies.other_party plan.now machine zone }
{
    let row = plan.zone(zone);
    if machine == row.host {
        row.guest
    } else {
        row.host
    }
}

/// The posture in which a party gives a plate.
fn giving_posture(plan: &Plan, machine: u8, zone: u8) -> Posture
    ensures { result ≡ needs.giving_posture plan.now machine zone }
{
    if machine == plan.zone(zone).host {
        Posture::OpenOut
    } else {
        Posture::OpenIn
    }
}

/// The posture in which a party takes a plate.
fn taking_posture(plan: &Plan, machine: u8, zone: u8) -> Posture
    ensures { result ≡ needs.taking_posture plan.now machine zone }
{
    if machine == plan.zone(zone).host {
        Posture::OpenIn
    } else {
        Posture::OpenOut
    }
}

/// The way of a plate that a party gives.
fn given_way(plan: &Plan, machine: u8, zone: u8) -> Option<Transfer>
    ensures { result ≡ needs.given_way plan.now machine zone }
{
    match plan.transfer(zone, giving_posture(plan, machine, zone)) {
        Some(way) if way.giver == machine => Some(way),
        _ => None,
    }
}

/// The way of a plate that a party takes.
fn taken_way(plan: &Plan, machine: u8, zone: u8) -> Option<Transfer>
    ensures { result ≡ needs.taken_way plan.now machine zone }
{
    plan.transfer(zone, taking_posture(plan, machine, zone))
}

fn leads_to(way: Option<Transfer>, place: u8) -> bool
    ensures { result ≡ states.leads_to way place }
{
    match way {
        Some(way) => way.to == place,
        None => false,
    }
}

fn leads_from(way: Option<Transfer>, place: u8) -> bool
    ensures { result ≡ needs.leads_from way place }
{
    match way {
        Some(way) => way.from == place,
        None => false,
    }
}

/// Whether a machine may make a call in some state.
pub(crate) fn may_ask(plan: &Plan, machine: u8, call: Call) -> bool
    ensures { result ≡ needs.may_ask plan.now machine call }
{
    match call {
        Call::Claim(zone) | Call::Yield(zone) | Call::Take(zone) | Call::Release(zone) => {
            plan.is_party(machine, zone)
        }
        Call::Give(zone) => {
            plan.is_party(machine, zone) && given_way(plan, machine, zone).is_some()
        }
        Call::SetPose(pose) => plan.has_pose(machine, pose),
        Call::Inquire(_) => false,
        Call::Stop | Call::Resume => machine == WATCH,
        Call::Advance(place) => plan.has_end(machine, place),
    }
}

fn is_owned_by(at: ZoneState, machine: u8) -> bool
    ensures { result ≡ sound.is_owned_by at.owner machine }
{
    at.owner == Some(machine)
}

fn holds_clear(machine: u8, at: ZoneState) -> bool
    ensures { result ≡ needs.holds_clear machine at }
{
    is_owned_by(at, machine) && !at.flag
}

fn can_claim(plan: &Plan, machine: u8, zone: u8, at: ZoneState) -> bool
    ensures { result ≡ needs.can_claim plan.now machine zone at }
{
    at.owner.is_none() && (machine != plan.zone(zone).guest || is_open(at.posture))
}

fn can_give(plan: &Plan, machine: u8, zone: u8, at: ZoneState) -> bool
    ensures { result ≡ needs.can_give plan.now machine zone at }
{
    holds_clear(machine, at) && at.posture == giving_posture(plan, machine, zone)
}

fn can_yield(machine: u8, at: ZoneState) -> bool
    ensures { result ≡ needs.can_yield machine at }
{
    holds_clear(machine, at) && is_open(at.posture)
}

fn can_take(plan: &Plan, machine: u8, zone: u8, at: ZoneState) -> bool
    ensures { result ≡ needs.can_take plan.now machine zone at }
{
    is_owned_by(at, machine) && at.flag && at.posture == taking_posture(plan, machine, zone)
}

fn can_release(machine: u8, at: ZoneState) -> bool
    ensures { result ≡ needs.can_release machine at }
{
    holds_clear(machine, at) && at.posture != Posture::Moving
}

/// The posture of a zone after a pose.
fn posture_by(plan: &Plan, pose: u8, zone: u8, at: ZoneState) -> Posture
    ensures { result ≡ needs.posture_by plan.now pose zone at }
{
    plan.posture_of(pose, zone).unwrap_or(at.posture)
}

fn concerns(plan: &Plan, machine: u8, pose: u8, zone: u8, at: ZoneState) -> bool
    ensures { result ≡ needs.concerns plan.now machine pose zone at }
{
    plan.zone(zone).host == machine
        && (plan.is_moving_pose(pose) || posture_by(plan, pose, zone, at) != at.posture)
}

fn can_pose(plan: &Plan, machine: u8, pose: u8, room: bool, zone: u8, at: ZoneState) -> bool
    ensures { result ≡ needs.can_pose plan.now machine pose room zone at }
{
    let held = !concerns(plan, machine, pose, zone, at) || holds_clear(machine, at);
    let jumps = plan.pose(pose).after_moving && plan.zone(zone).host == machine;
    let moves = !jumps || at.posture == Posture::Moving;
    let opens = posture_by(plan, pose, zone, at) == Posture::OpenIn;
    held && moves && (!opens || (room || at.posture == Posture::OpenIn))
}

fn opens_to(plan: &Plan, pose: u8, place: u8, zone: u8) -> bool
    ensures { result ≡ needs.opens_to plan.now pose place zone }
{
    plan.posture_of(pose, zone) == Some(Posture::OpenIn)
        && leads_to(plan.transfer(zone, Posture::OpenIn), place)
}

/// Whether a place is the end of a way that a pose opens.
#[tactic(auto, using(plan_rules::proofs::lemmas::Below::any_below_more))]
fn is_end_of_opened(plan: &Plan, pose: u8, place: u8) -> bool
    ensures { result ≡ needs.is_end_of_opened plan.now pose place }
{
    let mut ends = false;
    for zone in 0..plan.zone_count() {
        ends = ends || opens_to(plan, pose, place, zone);
    }
    ends
}

/// Whether a call needs a place to be empty, with no plate on its way to it.
fn needs_room(plan: &Plan, machine: u8, call: Call, room: bool, place: u8) -> bool
    ensures { result ≡ needs.needs_room plan.now machine call room place }
{
    match call {
        Call::Give(zone) => leads_to(given_way(plan, machine, zone), place),
        Call::SetPose(pose) => room && is_end_of_opened(plan, pose, place),
        Call::Advance(own) => room && own == place,
        _ => false,
    }
}

fn ends_in_need(plan: &Plan, machine: u8, call: Call, room: bool, way: Option<Transfer>) -> bool
    ensures { result ≡ needs.ends_in_need plan.now machine call room way }
{
    match way {
        Some(way) => needs_room(plan, machine, call, room, way.to),
        None => false,
    }
}

fn own_zone_fits(plan: &Plan, machine: u8, call: Call, room: bool, zone: u8, at: ZoneState) -> bool
    ensures { result ≡ needs.own_zone_fits plan.now machine call room zone at }
{
    match call {
        Call::Claim(own) => zone != own || can_claim(plan, machine, own, at),
        Call::Give(own) => zone != own || can_give(plan, machine, own, at),
        Call::Yield(own) => zone != own || can_yield(machine, at),
        Call::Take(own) => zone != own || can_take(plan, machine, own, at),
        Call::Release(own) => zone != own || can_release(machine, at),
        Call::SetPose(pose) => can_pose(plan, machine, pose, room, zone, at),
        Call::Inquire(_) | Call::Stop | Call::Resume | Call::Advance(_) => true,
    }
}

/// Whether a zone is as a call needs it.
pub(crate) fn zone_fits(
    plan: &Plan,
    machine: u8,
    call: Call,
    room: bool,
    zone: u8,
    at: ZoneState,
) -> bool
    ensures { result ≡ needs.zone_fits plan.now machine call room zone at }
{
    let way = plan.transfer(zone, at.posture);
    own_zone_fits(plan, machine, call, room, zone, at)
        && !(at.flag && ends_in_need(plan, machine, call, room, way))
}

fn is_emptied(plan: &Plan, machine: u8, call: Call, place: u8) -> bool
    ensures { result ≡ needs.is_emptied plan.now machine call place }
{
    match call {
        Call::Give(zone) => leads_from(given_way(plan, machine, zone), place),
        _ => false,
    }
}

fn is_filled(plan: &Plan, machine: u8, call: Call, place: u8) -> bool
    ensures { result ≡ needs.is_filled plan.now machine call place }
{
    match call {
        Call::Take(zone) => leads_to(taken_way(plan, machine, zone), place),
        _ => false,
    }
}

/// Whether a place is as an advance needs it: with room a source, which a plate comes to; without, a sink that has one.
fn end_fits(plan: &Plan, call: Call, room: bool, place: u8, full: bool) -> bool
    ensures { result ≡ needs.end_fits plan.now call room place full }
{
    match call {
        Call::Advance(own) => {
            let row = plan.place(own);
            own != place || if room { row.source } else { row.sink && full }
        }
        _ => true,
    }
}

/// Whether a place is as a call needs it.
pub(crate) fn place_fits(
    plan: &Plan,
    machine: u8,
    call: Call,
    room: bool,
    place: u8,
    full: bool,
) -> bool
    ensures { result ≡ needs.place_fits plan.now machine call room place full }
{
    let empty = !needs_room(plan, machine, call, room, place) || !full;
    let filled = !is_emptied(plan, machine, call, place) || full;
    empty && filled && end_fits(plan, call, room, place, full)
}

/// Whether the stop is as a call needs it.
pub(crate) fn stop_fits(plan: &Plan, call: Call, stopped: bool) -> bool
    ensures { result ≡ needs.stop_fits plan.now call stopped }
{
    match call {
        Call::Claim(_) | Call::Give(_) | Call::Advance(_) | Call::Stop => !stopped,
        Call::SetPose(pose) => !(plan.is_moving_pose(pose) && stopped),
        Call::Resume => stopped,
        Call::Yield(_) | Call::Take(_) | Call::Release(_) | Call::Inquire(_) => true,
    }
}

/// A zone after a call.
pub(crate) fn zone_after(plan: &Plan, machine: u8, call: Call, zone: u8, at: ZoneState) -> ZoneState
    ensures { result ≡ needs.zone_after plan.now machine call zone at }
{
    match call {
        Call::Claim(own) if zone == own => ZoneState {
            owner: Some(machine),
            ..at
        },
        Call::Give(own) if zone == own => ZoneState {
            owner: Some(other_party(plan, machine, own)),
            flag: true,
            posture: at.posture,
        },
        Call::Yield(own) if zone == own => ZoneState {
            owner: Some(other_party(plan, machine, own)),
            ..at
        },
        Call::Take(own) if zone == own => ZoneState { flag: false, ..at },
        Call::Release(own) if zone == own => ZoneState { owner: None, ..at },
        Call::SetPose(pose) => ZoneState {
            posture: posture_by(plan, pose, zone, at),
            ..at
        },
        _ => at,
    }
}

/// Whether a call fills a place that is empty, and empties one that is full.
fn is_turned(call: Call, place: u8) -> bool
    ensures { result ≡ needs.is_turned call place }
{
    match call {
        Call::Advance(own) => own == place,
        _ => false,
    }
}

/// Whether a place is full after a call.
pub(crate) fn place_after(plan: &Plan, machine: u8, call: Call, place: u8, full: bool) -> bool
    ensures { result ≡ needs.place_after plan.now machine call place full }
{
    if is_turned(call, place) {
        !full
    } else {
        full && !is_emptied(plan, machine, call, place) || is_filled(plan, machine, call, place)
    }
}

/// Whether the plant is stopped after a call.
pub(crate) fn stop_after(call: Call, stopped: bool) -> bool
    ensures { result ≡ needs.stop_after call stopped }
{
    match call {
        Call::Stop => true,
        Call::Resume => false,
        _ => stopped,
    }
}
