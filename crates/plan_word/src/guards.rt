//! Why a call about a zone, a stop or a resume is refused, read off the fields of a word that the call looks at. Each
//! function looks in the order of `plan_rules`, and at nothing after the first cause.
ghost use Rattle.std.specs.Prelude.{◌≡◌, ◌&&◌};
ghost use Rattle.plan_types.specs.Table.{transfer_of, same_space};
ghost use Rattle.plan_rules.specs.State as states;
ghost use Rattle.plan_rules.specs.Sound.{is_open as opens_way};
ghost use Rattle.plan_rules.specs.Refusals as refusals;
ghost use Rattle.plan_rules.specs.Refusals.{◌or◌};
ghost use Rattle.plan_word.specs.Layout.{counts_of};
ghost use Rattle.plan_word.specs.Reading.{state_told};

use crate::layout::Layout;
use crate::sound::is_coming;
use crate::word::{is_full_in, is_stopped_in, stamp_of, zone_in_word};
use plan_rules::LAST_STAMP;
use plan_types::{Plan, Posture, Refusal, Transfer, WATCH};

fn is_open(posture: Posture) -> bool
    ensures { result ≡ opens_way posture }
{
    matches!(posture, Posture::OpenIn | Posture::OpenOut)
}

/// A stamp has to be left.
pub(crate) fn worn(plan: &Plan, layout: &Layout, word: u64) -> Option<Refusal>
    requires { layout.now ≡ counts_of plan.now }
    ensures { result ≡ refusals.worn (state_told plan.now word) }
{
    (!(stamp_of(layout, word) < LAST_STAMP)).then_some(Refusal::Worn)
}

pub(crate) fn claim_refusal(
    plan: &Plan,
    layout: &Layout,
    word: u64,
    machine: u8,
    zone: u8,
) -> Option<Refusal>
    requires { layout.now ≡ counts_of plan.now }
    ensures { result ≡ refusals.claim_refusal plan.now (state_told plan.now word) machine zone }
{
    if !plan.is_party(machine, zone) {
        return Some(Refusal::NotParty);
    }
    if is_stopped_in(layout, word) {
        return Some(Refusal::Stopped);
    }
    let at = zone_in_word(plan, layout, word, zone);
    if let Some(owner) = at.owner {
        if owner == machine {
            return Some(Refusal::AlreadyMine);
        }
        return Some(Refusal::Held(owner));
    }
    if machine == plan.guest(zone) && !is_open(at.posture) {
        return Some(Refusal::Shut(at.posture));
    }
    worn(plan, layout, word)
}

/// Whether a place has a plate, or one is on its way to it.
pub(crate) fn is_taken(plan: &Plan, layout: &Layout, word: u64, place: u8) -> bool
    requires { layout.now ≡ counts_of plan.now }
    ensures { result ≡ refusals.is_taken plan.now (state_told plan.now word) place }
{
    if is_full_in(plan, layout, word, place) {
        return true;
    }
    for zone in 0..plan.zone_count() {
        let at = zone_in_word(plan, layout, word, zone);
        if is_coming(plan, zone, at, place) {
            return true;
        }
    }
    false
}

fn has_plate_of(plan: &Plan, layout: &Layout, word: u64, zone: u8, other: u8) -> bool
    requires { layout.now ≡ counts_of plan.now }
    ensures { let at = states.zone_at (state_told plan.now word) other in result
        ≡ (same_space plan.now other zone && at.flag) }
{
    plan.same_space(other, zone) && zone_in_word(plan, layout, word, other).flag
}

/// Whether a plate is in the space of a zone.
#[tactic(auto, using(plan_types::proofs::lemmas::Below::any_below_more))]
pub(crate) fn space_has_plate(plan: &Plan, layout: &Layout, word: u64, zone: u8) -> bool
    requires { layout.now ≡ counts_of plan.now }
    ensures { result ≡ states.space_has_plate plan.now (state_told plan.now word) zone }
{
    let mut found = false;
    for other in 0..plan.zone_count() {
        found = found || has_plate_of(plan, layout, word, zone, other);
    }
    found
}

/// Why a plate can't go its way: its place is empty, or the place that it would come to is taken.
fn way_refusal(plan: &Plan, layout: &Layout, word: u64, way: Option<Transfer>) -> Option<Refusal>
    requires { layout.now ≡ counts_of plan.now }
    ensures { let state = state_told plan.now word in result ≡ (
        refusals.wrong_way way or refusals.nothing_to_give state way
        or refusals.no_room plan.now state way) }
{
    let Some(way) = way else {
        return Some(Refusal::WrongWay);
    };
    if !is_full_in(plan, layout, word, way.from) {
        return Some(Refusal::NoPlate);
    }
    is_taken(plan, layout, word, way.to).then_some(Refusal::PlaceFull)
}

/// The way of a plate that a machine gives in a zone with this posture.
fn way_given(plan: &Plan, machine: u8, zone: u8, posture: Posture) -> Option<Transfer>
    ensures { result ≡ refusals.given_by machine (transfer_of plan.now zone posture) }
{
    match plan.transfer(zone, posture) {
        Some(way) if way.giver == machine => Some(way),
        _ => None,
    }
}

pub(crate) fn give_refusal(
    plan: &Plan,
    layout: &Layout,
    word: u64,
    machine: u8,
    zone: u8,
) -> Option<Refusal>
    requires { layout.now ≡ counts_of plan.now }
    ensures { result ≡ refusals.give_refusal plan.now (state_told plan.now word) machine zone }
{
    if !plan.is_party(machine, zone) {
        return Some(Refusal::NotParty);
    }
    if is_stopped_in(layout, word) {
        return Some(Refusal::Stopped);
    }
    let at = zone_in_word(plan, layout, word, zone);
    if at.owner != Some(machine) {
        return Some(Refusal::NotOwner(at.owner));
    }
    if space_has_plate(plan, layout, word, zone) {
        return Some(Refusal::PlateInZone(zone));
    }
    let way = way_given(plan, machine, zone, at.posture);
    way_refusal(plan, layout, word, way).or(worn(plan, layout, word))
}

pub(crate) fn yield_refusal(
    plan: &Plan,
    layout: &Layout,
    word: u64,
    machine: u8,
    zone: u8,
) -> Option<Refusal>
    requires { layout.now ≡ counts_of plan.now }
    ensures { result ≡ refusals.yield_refusal plan.now (state_told plan.now word) machine zone }
{
    if !plan.is_party(machine, zone) {
        return Some(Refusal::NotParty);
    }
    let at = zone_in_word(plan, layout, word, zone);
    if at.owner != Some(machine) {
        return Some(Refusal::NotOwner(at.owner));
    }
    if space_has_plate(plan, layout, word, zone) {
        return Some(Refusal::PlateInZone(zone));
    }
    if !is_open(at.posture) {
        return Some(Refusal::Shut(at.posture));
    }
    worn(plan, layout, word)
}

pub(crate) fn take_refusal(
    plan: &Plan,
    layout: &Layout,
    word: u64,
    machine: u8,
    zone: u8,
) -> Option<Refusal>
    requires { layout.now ≡ counts_of plan.now }
    ensures { result ≡ refusals.take_refusal plan.now (state_told plan.now word) machine zone }
{
    if !plan.is_party(machine, zone) {
        return Some(Refusal::NotParty);
    }
    let at = zone_in_word(plan, layout, word, zone);
    if at.owner != Some(machine) {
        return Some(Refusal::NotOwner(at.owner));
    }
    if !at.flag {
        return Some(Refusal::NoPlate);
    }
    worn(plan, layout, word)
}

pub(crate) fn release_refusal(
    plan: &Plan,
    layout: &Layout,
    word: u64,
    machine: u8,
    zone: u8,
) -> Option<Refusal>
    requires { layout.now ≡ counts_of plan.now }
    ensures { result ≡ refusals.release_refusal plan.now (state_told plan.now word) machine zone }
{
    if !plan.is_party(machine, zone) {
        return Some(Refusal::NotParty);
    }
    let at = zone_in_word(plan, layout, word, zone);
    if at.owner != Some(machine) {
        return Some(Refusal::NotOwner(at.owner));
    }
    if space_has_plate(plan, layout, word, zone) {
        return Some(Refusal::PlateInZone(zone));
    }
    if at.posture == Posture::Moving {
        return Some(Refusal::Shut(Posture::Moving));
    }
    worn(plan, layout, word)
}

pub(crate) fn stop_refusal(plan: &Plan, layout: &Layout, word: u64, machine: u8) -> Option<Refusal>
    requires { layout.now ≡ counts_of plan.now }
    ensures { result ≡ refusals.stop_refusal (state_told plan.now word) machine }
{
    if machine != WATCH {
        return Some(Refusal::NotParty);
    }
    if is_stopped_in(layout, word) {
        return Some(Refusal::Stopped);
    }
    worn(plan, layout, word)
}

pub(crate) fn resume_refusal(
    plan: &Plan,
    layout: &Layout,
    word: u64,
    machine: u8,
) -> Option<Refusal>
    requires { layout.now ≡ counts_of plan.now }
    ensures { result ≡ refusals.resume_refusal (state_told plan.now word) machine }
{
    if machine != WATCH {
        return Some(Refusal::NotParty);
    }
    if !is_stopped_in(layout, word) {
        return Some(Refusal::NotStopped);
    }
    worn(plan, layout, word)
}

pub(crate) fn advance_refusal(
    plan: &Plan,
    layout: &Layout,
    word: u64,
    machine: u8,
    place: u8,
) -> Option<Refusal>
    requires { layout.now ≡ counts_of plan.now }
    ensures { result ≡ refusals.advance_refusal plan.now (state_told plan.now word) machine place }
{
    if !plan.has_end(machine, place) {
        return Some(Refusal::NotParty);
    }
    if is_stopped_in(layout, word) {
        return Some(Refusal::Stopped);
    }
    let row = plan.place(place);
    let full = is_full_in(plan, layout, word, place);
    let goes = row.sink && full;
    if row.source && !goes && is_taken(plan, layout, word, place) {
        return Some(Refusal::PlaceFull);
    }
    if !row.source && !full {
        return Some(Refusal::NoPlate);
    }
    worn(plan, layout, word)
}
