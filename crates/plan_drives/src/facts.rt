//! What a machine knows by its own done calls, as a motor: what this motor needs is so.
ghost use Rattle.std.specs.Prelude.{◌≡◌, map};
ghost use Rattle.std.specs.List.{range_with_len};
ghost use Rattle.plan_types.specs.Table as table;
ghost use Rattle.plan_drives.specs.Facts as facts;

use crate::line::Line;
use plan_motors::{Motor, NO_NEED, ZoneNeed};
use plan_types::{Call, MAX_PLACES, MAX_ZONES, Plan, Posture, Way};

/// Nothing is known.
pub fn no_facts(machine: u8) -> Motor
    ensures { result ≡ facts.no_facts machine }
{
    Motor {
        machine,
        zones: [NO_NEED; MAX_ZONES],
        places: [None; MAX_PLACES],
    }
}

pub(crate) fn is_hosted(plan: &Plan, zone: u8, machine: u8) -> bool
    ensures { result ≡ table.is_hosted plan.now zone machine }
{
    zone < plan.zone_count() && plan.zone(zone).host == machine
}

/// The way on which a machine gives a plate in a zone.
fn way_given(plan: &Plan, machine: u8, zone: u8) -> Option<Way>
    ensures { result ≡ facts.way_given plan.now machine zone }
{
    let row = plan.zone(zone);
    if machine == row.host {
        row.outward
    } else {
        row.inward
    }
}

/// The way on which it takes one.
fn way_taken(plan: &Plan, machine: u8, zone: u8) -> Option<Way>
    ensures { result ≡ facts.way_taken plan.now machine zone }
{
    let row = plan.zone(zone);
    if machine == row.host {
        row.inward
    } else {
        row.outward
    }
}

/// The posture of a zone from which it has taken one.
fn posture_taken(plan: &Plan, machine: u8, zone: u8) -> Posture
    ensures { result ≡ facts.posture_taken plan.now machine zone }
{
    if machine == plan.zone(zone).host {
        Posture::OpenIn
    } else {
        Posture::OpenOut
    }
}

/// Whether a pose gives a zone this posture.
fn gives(plan: &Plan, zone: u8, posture: Posture, pose: u8) -> bool
    ensures { result ≡ facts.gives plan.now zone posture pose }
{
    plan.posture_of(pose, zone) == Some(posture)
}

/// Whether some pose of the plan does.
#[tactic(auto, using(plan_rules::proofs::lemmas::Below::any_below_more))]
pub(crate) fn some_gives(plan: &Plan, zone: u8, posture: Posture) -> bool
    ensures { result ≡ facts.some_gives plan.now zone posture }
{
    let mut some = false;
    for pose in 0..plan.pose_count() {
        some = some || gives(plan, zone, posture, pose);
    }
    some
}

fn one_way(inward: bool, outward: bool) -> Option<Posture>
    ensures { result ≡ facts.one_way inward outward }
{
    match (inward, outward) {
        (true, false) => Some(Posture::OpenIn),
        (false, true) => Some(Posture::OpenOut),
        _ => None,
    }
}

/// The posture of a zone that a machine owns, if that tells it.
fn posture_owned(plan: &Plan, machine: u8, zone: u8) -> Option<Posture>
    ensures { result ≡ facts.posture_owned plan.now machine zone }
{
    if machine == plan.zone(zone).guest {
        one_way(
            some_gives(plan, zone, Posture::OpenIn),
            some_gives(plan, zone, Posture::OpenOut),
        )
    } else {
        None
    }
}

fn zone_owned(told: Option<Posture>, known: ZoneNeed) -> ZoneNeed
    ensures { result ≡ facts.zone_owned told known }
{
    ZoneNeed {
        holds: true,
        posture: known.posture.or(told),
    }
}

fn zone_left(hosted: bool, known: ZoneNeed) -> ZoneNeed
    ensures { result ≡ facts.zone_left hosted known }
{
    ZoneNeed {
        holds: false,
        posture: if hosted { known.posture } else { None },
    }
}

/// A zone of a space that was left with a plate, here or in another zone.
fn zone_given(here: bool, hosted: bool, known: ZoneNeed) -> ZoneNeed
    ensures { result ≡ facts.zone_given here hosted known }
{
    let outward = if here {
        Some(Posture::OpenOut)
    } else {
        known.posture
    };
    ZoneNeed {
        holds: false,
        posture: if hosted { outward } else { None },
    }
}

/// A zone of a space from which a plate was taken, here or in another zone.
fn zone_taken(here: bool, posture: Posture, known: ZoneNeed) -> ZoneNeed
    ensures { result ≡ facts.zone_taken here posture known }
{
    ZoneNeed {
        holds: true,
        posture: if here { Some(posture) } else { known.posture },
    }
}

fn zone_posed(owned: bool, given: Option<Posture>, known: ZoneNeed) -> ZoneNeed
    ensures { result ≡ facts.zone_posed owned given known }
{
    ZoneNeed {
        holds: owned || known.holds,
        posture: given.or(known.posture),
    }
}

/// What a machine knows of a zone after a done call.
fn zone_facts(plan: &Plan, known: &Motor, call: Call, zone: u8) -> ZoneNeed
    ensures { result ≡ facts.zone_facts plan.now known.now call zone }
{
    let before = known.zone_need(zone);
    let hosted = is_hosted(plan, zone, known.machine);
    match call {
        Call::Claim(of) if plan.same_space(of, zone) => {
            zone_owned(posture_owned(plan, known.machine, zone), before)
        }
        Call::Take(of) if plan.same_space(of, zone) => {
            zone_taken(of == zone, posture_taken(plan, known.machine, zone), before)
        }
        Call::Give(of) if plan.same_space(of, zone) => zone_given(of == zone, hosted, before),
        Call::Yield(of) | Call::Release(of) if plan.same_space(of, zone) => {
            zone_left(hosted, before)
        }
        Call::SetPose(pose) => {
            let owned = plan.is_moving_pose(pose) && hosted;
            zone_posed(owned, plan.posture_of(pose, zone), before)
        }
        _ => before,
    }
}

fn begins_at(way: Option<Way>, place: u8) -> bool
    ensures { result ≡ facts.begins_at way place }
{
    match way {
        Some(way) => way.from == place,
        None => false,
    }
}

fn ends_at(way: Option<Way>, place: u8) -> bool
    ensures { result ≡ facts.ends_at way place }
{
    match way {
        Some(way) => way.to == place,
        None => false,
    }
}

/// What a machine knows of a place that it has advanced.
fn place_turned(source: bool, sink: bool, known: Option<bool>) -> Option<bool>
    ensures { result ≡ facts.place_turned source sink known }
{
    match (source, sink) {
        (true, false) => Some(true),
        (false, true) => Some(false),
        _ => known.map(|full| !full),
    }
}

/// What a machine knows of a place after a done call.
fn place_facts(plan: &Plan, known: &Motor, call: Call, place: u8) -> Option<bool>
    ensures { result ≡ facts.place_facts plan.now known.now call place }
{
    let before = known.place_need(place);
    match call {
        Call::Give(zone) => {
            if begins_at(way_given(plan, known.machine, zone), place) {
                Some(false)
            } else {
                before
            }
        }
        Call::Take(zone) => {
            if ends_at(way_taken(plan, known.machine, zone), place) {
                Some(true)
            } else {
                before
            }
        }
        Call::Advance(own) if own == place => {
            let row = plan.place(own);
            place_turned(row.source, row.sink, before)
        }
        _ => before,
    }
}

fn all_zone_facts(plan: &Plan, known: &Motor, call: Call) -> [ZoneNeed; MAX_ZONES]
    ensures { result ≡ map (facts.zone_facts plan.now known.now call) (range_with_len 0 10) }
{
    let mut zones = [NO_NEED; MAX_ZONES];
    for zone in 0..MAX_ZONES {
        zones[zone] = zone_facts(plan, known, call, zone as u8);
    }
    zones
}

fn all_place_facts(plan: &Plan, known: &Motor, call: Call) -> [Option<bool>; MAX_PLACES]
    ensures { result ≡ map (facts.place_facts plan.now known.now call) (range_with_len 0 16) }
{
    let mut places = [None; MAX_PLACES];
    for place in 0..MAX_PLACES {
        places[place] = place_facts(plan, known, call, place as u8);
    }
    places
}

/// What a machine knows after a done call, if it knew this before.
pub fn facts_after(plan: &Plan, known: &Motor, call: Call) -> Motor
    ensures { result ≡ facts.facts_after plan.now known.now call }
{
    Motor {
        machine: known.machine,
        zones: all_zone_facts(plan, known, call),
        places: all_place_facts(plan, known, call),
    }
}

/// What it knows once it has gone past a line.
pub fn facts_after_line(plan: &Plan, known: &Motor, line: Line) -> Motor
    ensures { result ≡ facts.facts_after_line plan.now known.now line }
{
    match line {
        Line::Do(call) => facts_after(plan, known, call),
        Line::Await(zone) => facts_after(plan, known, Call::Claim(zone)),
        Line::Run(_) => *known,
    }
}

/// What it knows at a line of its program, if the round began with nothing known.
pub fn facts_at(plan: &Plan, machine: u8, program: &[Line], line: usize) -> Motor
    ensures { result ≡ facts.facts_at plan.now machine program.now line }
{
    let mut known = no_facts(machine);
    for before in 0..line.min(program.len()) {
        known = facts_after_line(plan, &known, program[before]);
    }
    known
}
