//! The codes of owners and postures, and the bits of a zone.
ghost use Rattle.std.specs.Prelude.{◌≡◌, ◌*◌, ◌<◌, ◌≤◌, ◌^◌};
ghost use Rattle.std.specs.Bool.{then_some};
ghost use Rattle.plan_types.specs.Below.{first_below};
ghost use Rattle.plan_types.specs.Table.{posture_bits, zone_shape};
ghost use Rattle.plan_word.specs.declared.layout.Field.TheVariants.{Zone};
ghost use Rattle.plan_word.specs.Layout.{bits_of, counts_of};
ghost use Rattle.plan_word.specs.OfPlan as of_plan;
ghost use Rattle.plan_word.specs.Packed as packing;
ghost use Rattle.plan_word.specs.Reading as reading;

use crate::layout::Layout;
use plan_rules::ZoneState;
use plan_types::{Plan, Posture, Postures, ZoneShape};

/// Whether a machine is this guest of a space, by the space's first zone.
#[tactic(auto, using(crate::proofs::lemmas::Guests::guest_fits))]
fn is_guest_at(plan: &Plan, guests: u8, first: u8, machine: u8, guest: u8) -> bool
    requires { guests ≡ (zone_shape plan.now first).guests }
    ensures { result ≡ packing.is_guest_at plan.now first machine guest }
{
    let _ = plan.machines();
    guest < guests && plan.guest(first + guest) == machine
}

#[tactic(auto, using(plan_types::proofs::lemmas::Below::first_below_more))]
fn guest_found(plan: &Plan, guests: u8, first: u8, machine: u8) -> Option<u8>
    requires { guests ≡ (zone_shape plan.now first).guests }
    ensures { result
        ≡ first_below (λ k. then_some (packing.is_guest_at plan.now first machine k) k) 14 }
{
    let mut found = None;
    for guest in 0..14 {
        let here = is_guest_at(plan, guests, first, machine, guest);
        found = found.or(here.then_some(guest));
    }
    found
}

fn owner_code(plan: &Plan, guests: u8, first: u8, owner: Option<u8>) -> u64
    requires { guests ≡ (zone_shape plan.now first).guests }
    ensures { result ≡ packing.owner_code plan.now first owner }
{
    match owner {
        None => 0,
        Some(machine) if machine == plan.host(first) => 1,
        Some(machine) => 2 + u64::from(guest_found(plan, guests, first, machine).unwrap_or(0)),
    }
}

/// What a zone's field has of the owner: nothing, unless it is the first zone of its space.
fn owner_part(plan: &Plan, guests: u8, zone: u8, owner: Option<u8>) -> u64
    requires { guests ≡ (zone_shape plan.now zone).guests }
    ensures { result ≡ packing.owner_part plan.now zone owner }
{
    if plan.space(zone) == zone {
        owner_code(plan, guests, zone, owner)
    } else {
        0
    }
}

/// The zone of a guest of a space; a spare number tells the first guest.
#[tactic(auto, using(crate::proofs::lemmas::Guests::guest_fits))]
fn zone_of_guest(plan: &Plan, guests: u8, first: u8, guest: u64) -> u8
    requires { guests ≡ (zone_shape plan.now first).guests }
    ensures { result ≡ reading.zone_of_guest plan.now first guest }
{
    let _ = plan.machines();
    if guest < u64::from(guests) {
        first + guest as u8
    } else {
        first
    }
}

/// The owner with a code.
fn owner_of_code(plan: &Plan, guests: u8, first: u8, code: u64) -> Option<u8>
    requires { guests ≡ (zone_shape plan.now first).guests }
    ensures { result ≡ reading.owner_of_code plan.now first code }
{
    match code {
        0 => None,
        1 => Some(plan.host(first)),
        _ => Some(plan.guest(zone_of_guest(plan, guests, first, code - 2))),
    }
}

/// How many values the owner has in a zone's field.
fn owner_values(shape: ZoneShape) -> u64
    ensures values { result ≡ packing.owner_values shape }
    ensures some { 0 < result }
    ensures few { result ≤ 16 }
{
    match shape.guests {
        0 => 1,
        1 | 2 => 4,
        3..=6 => 8,
        _ => 16,
    }
}

fn posture_code(posture: Posture) -> u64
    ensures code { result ≡ packing.posture_code posture }
    ensures fits { result < 4 }
{
    match posture {
        Posture::Closed => 0,
        Posture::Moving => 1,
        Posture::OpenIn => 2,
        Posture::OpenOut => 3,
    }
}

fn posture_of_code(code: u64) -> Posture
    ensures { result ≡ reading.posture_of_code code }
{
    match code {
        0 => Posture::Closed,
        1 => Posture::Moving,
        2 => Posture::OpenIn,
        _ => Posture::OpenOut,
    }
}

/// Whether a zone's field tells a posture.
pub fn can_have(postures: Postures, posture: Posture) -> bool
    ensures { result ≡ of_plan.can_have postures posture }
{
    match postures {
        Postures::Shut => posture == Posture::Closed,
        Postures::Two(other) => posture == Posture::Closed || posture == other,
        Postures::All => true,
    }
}

/// The code of a posture in a zone's field, which may be narrower than that of all postures.
pub fn code_of(postures: Postures, posture: Posture) -> u64
    ensures code { result ≡ packing.code_of postures posture }
    ensures fits { result < 2 ^ posture_bits postures }
{
    match postures {
        Postures::Shut => 0,
        Postures::Two(_) => u64::from(posture != Posture::Closed),
        Postures::All => posture_code(posture),
    }
}

fn posture_told(postures: Postures, code: u64) -> Posture
    ensures { result ≡ reading.posture_told postures code }
{
    match postures {
        Postures::Shut => Posture::Closed,
        Postures::Two(_) if code == 0 => Posture::Closed,
        Postures::Two(other) => other,
        Postures::All => posture_of_code(code),
    }
}

/// How many values a zone's flag has in the word: one, if it has none.
fn flag_values(shape: ZoneShape) -> u64
    ensures values { result ≡ packing.flag_values shape.flag }
    ensures some { 0 < result }
    ensures few { result ≤ 2 }
{
    if shape.flag { 2 } else { 1 }
}

fn rest_in(shape: ZoneShape, at: ZoneState) -> u64
    ensures rest { result ≡ packing.rest_in shape at }
    ensures few { result < 8 }
{
    let flag = u64::from(shape.flag && at.flag);
    flag + flag_values(shape) * code_of(shape.postures(), at.posture)
}

/// A number above the bits of the owner.
fn above_owner(shape: ZoneShape, rest: u64) -> u64
    requires { rest < 8 }
    ensures above { result ≡ rest * packing.owner_values shape }
    ensures few { result < 128 }
{
    match shape.guests {
        0 => rest,
        1 | 2 => rest * 4,
        3..=6 => rest * 8,
        _ => rest * 16,
    }
}

fn state_in(shape: ZoneShape, owner: Option<u8>, code: u64) -> ZoneState
    ensures { result ≡ reading.state_in shape owner code }
{
    let values = flag_values(shape);
    ZoneState {
        owner,
        flag: code % values == 1,
        posture: posture_told(shape.postures(), code / values),
    }
}

/// The bits of a zone, from the lowest: those of its space's owner if it is the first zone there (0 free, 1 the host, 2
/// and more the guests), one for its flag if it has one, and none, one or two for its posture. Of one bit 0 is Closed
/// and 1 the other posture that the zone can have; of two Closed 0, Moving 1, OpenIn 2, OpenOut 3.
pub fn zone_code(plan: &Plan, layout: &Layout, zone: u8, at: ZoneState) -> u64
    requires layout { layout.now ≡ counts_of plan.now }
    ensures code { result ≡ packing.zone_code plan.now zone at }
    ensures fits { result < 2 ^ bits_of layout.now (Zone zone) }
{
    let shape = layout.shape(zone);
    let rest = above_owner(shape, rest_in(shape, at));
    rest + owner_part(plan, shape.guests, zone, at.owner)
}

/// The state of a zone with these bits, by those of the first zone of its space.
pub fn zone_of_code(plan: &Plan, layout: &Layout, zone: u8, first_code: u64, code: u64) -> ZoneState
    requires layout { layout.now ≡ counts_of plan.now }
    ensures { result ≡ reading.zone_of_code plan.now zone first_code code }
{
    let first = plan.space(zone);
    let whole = layout.shape(first);
    let owner = owner_of_code(plan, whole.guests, first, first_code % owner_values(whole));
    let shape = layout.shape(zone);
    state_in(shape, owner, code / owner_values(shape))
}
