//! Whether some rows of a call match the word of each state in which the call can be done.
//!
//! What a call needs is a demand on each field by itself, and a row matches field by field too. So the fields are gone
//! through one by one, with the sets of rows that match all numbers so far: of a set some rows are left, by the number
//! that the next field has. If no set loses all its rows, each word has one.
ghost use Rattle.std.specs.Prelude.{◌≡◌, ◌+◌, ◌<◌, ◌≤◌, ℕ, true, length, bit_and, IsTrue};
ghost use Rattle.plan_types.specs.Table.{zone_count, place_count};
ghost use Rattle.plan_rules.specs.PlainLaws.{IsPlain};
ghost use Rattle.plan_word.specs.Layout.{counts_of, has};
ghost use Rattle.plan_compiled.specs.Complete as complete;

use crate::needs::{place_fits, stop_fits, zone_fits};
use crate::part::Part;
use crate::plain::zone_alone;
use crate::right::Asked;
use crate::row::Row;
use plan_types::{Call, Plan, Posture};
use plan_word::{Field, Layout, is_lawful_zone, zone_code};

/// Some consecutive rows.
#[derive(Clone, Copy, Debug)]
pub struct Span {
    /// The index of the first one.
    pub first: usize,
    /// How many there are.
    pub count: usize,
}

/// Whether a field has a number in a state that fits.
fn fits_number(plan: &Plan, layout: &Layout, asked: Asked, field: Field, number: u64) -> bool
    requires { layout.now ≡ counts_of plan.now }
    ensures { complete.FitsNumber plan.now asked field number → IsTrue result }
{
    let Asked {
        machine,
        call,
        room,
    } = asked;
    match field {
        Field::Zone(zone) => {
            let at = zone_alone(plan, layout, zone, number);
            is_lawful_zone(plan, zone, at)
                && zone_code(plan, layout, zone, at) == number
                && zone_fits(plan, machine, call, room, zone, at)
        }
        Field::Place(place) => {
            number < 2 && place_fits(plan, machine, call, room, place, number == 1)
        }
        Field::Stop => number < 2 && stop_fits(plan, call, number == 1),
        Field::Stamp => false,
    }
}

/// Whether a row matches a number of a field.
fn is_met(layout: &Layout, rows: &[Row], span: Span, field: Field, number: u64, at: usize) -> bool
    requires field { has layout.now field ≡ true }
    requires rows { span.first + span.count ≤ length rows.now }
    ensures { IsTrue result → complete.MatchesAt layout.now rows.now span field number at }
{
    at < span.count
        && rows[span.first + at]
            .part()
            .of_field(layout, field)
            .matches(number)
}

/// The set of all other rows of the eight.
fn others(at: u8) -> u8
    requires { at < 8 }
    ensures { ¬ complete.HasBit result at }
{
    match at {
        0 => 254,
        1 => 253,
        2 => 251,
        3 => 247,
        4 => 239,
        5 => 223,
        6 => 191,
        _ => 127,
    }
}

/// A set without a row, unless the row matches.
fn with_match(set: u8, at: u8, is_met: bool) -> u8
    requires { at < 8 }
    ensures kept { (k : ℕ) → complete.HasBit result k → complete.HasBit set k }
    ensures met { complete.HasBit result at → IsTrue is_met }
{
    if is_met {
        return set;
    }
    set & others(at)
}

/// The rows that match a number of a field, as a set.
fn matching(layout: &Layout, rows: &[Row], span: Span, field: Field, number: u64) -> u8
    requires field { has layout.now field ≡ true }
    requires rows { span.first + span.count ≤ length rows.now }
    ensures { (k : ℕ) → k < 8 → complete.HasBit result k
        → complete.MatchesAt layout.now rows.now span field number k }
{
    let mut set = 255;
    for at in 0..8u8 {
        let is_met = is_met(layout, rows, span, field, number, usize::from(at));
        set = with_match(set, at, is_met);
    }
    set
}

/// Adds what is left of each set if only the rows of one set can match.
fn add_left(sets: &[bool; 256], next: &mut [bool; 256], matching: u8)
    ensures kept { (x : ℕ) → complete.HasSet next.old x → complete.HasSet next.new x }
    ensures left { (x : ℕ) → x < 256 → complete.HasSet sets.now x
        → complete.HasSet next.new (bit_and x matching) }
{
    for set in 0..256 {
        let left = set & usize::from(matching);
        next[left] = next[left] | sets[set];
    }
}

/// Adds what is left of each set if a field has a number.
fn add_number(
    plan: &Plan,
    layout: &Layout,
    asked: Asked,
    rows: &[Row],
    span: Span,
    field: Field,
    number: u64,
    sets: &[bool; 256],
    next: &mut [bool; 256],
)
    requires layout { layout.now ≡ counts_of plan.now }
    requires field { has layout.now field ≡ true }
    requires rows { span.first + span.count ≤ length rows.now }
    ensures kept { (x : ℕ) → complete.HasSet next.old x → complete.HasSet next.new x }
    ensures left { complete.FitsNumber plan.now asked field number
        → complete.Narrows layout.now rows.now span field number sets.now next.new }
{
    if !fits_number(plan, layout, asked, field, number) {
        return;
    }
    let set = matching(layout, rows, span, field, number);
    add_left(sets, next, set);
}

/// What can be left of each set once a field is known.
fn after_field(
    plan: &Plan,
    layout: &Layout,
    asked: Asked,
    rows: &[Row],
    span: Span,
    field: Field,
    sets: &mut [bool; 256],
)
    requires layout { layout.now ≡ counts_of plan.now }
    requires field { has layout.now field ≡ true }
    requires rows { span.first + span.count ≤ length rows.now }
    ensures { complete.Steps plan.now asked layout.now rows.now span field sets.old sets.new }
{
    let mut next = [false; 256];
    for number in 0..32u64 {
        add_number(
            plan, layout, asked, rows, span, field, number, sets, &mut next,
        );
    }
    *sets = next;
}

/// Whether a row looks at no bit of the stamp, and at none above the word's width.
fn looks_at_fields(layout: &Layout, part: &Part) -> bool
    ensures { IsTrue result → complete.LooksAtFields layout.now part.now }
{
    let own = part.of_field(layout, Field::Stamp);
    if own.mask != 0 {
        return false;
    }
    let above = part.wanted >> (layout.width() - 1) >> 1;
    own.wanted == 0 && above == 0
}

fn look_at_fields(layout: &Layout, rows: &[Row], span: Span) -> bool
    requires { span.first + span.count ≤ length rows.now }
    ensures { IsTrue result → complete.LookAtFields layout.now rows.now span.first span.count }
{
    for at in 0..span.count {
        if !looks_at_fields(layout, rows[span.first + at].part()) {
            return false;
        }
    }
    true
}

fn after_zones(
    plan: &Plan,
    layout: &Layout,
    asked: Asked,
    rows: &[Row],
    span: Span,
    sets: &mut [bool; 256],
)
    requires layout { layout.now ≡ counts_of plan.now }
    requires plain { IsPlain plan.now }
    requires rows { span.first + span.count ≤ length rows.now }
    requires all { complete.HasSet sets.old 255 }
    ensures { complete.LeavesRows plan.now asked rows.now span sets.new (zone_count plan.now) 0 }
{
    for zone in 0..plan.zone_count() {
        after_field(plan, layout, asked, rows, span, Field::Zone(zone), sets);
    }
}

fn after_places(
    plan: &Plan,
    layout: &Layout,
    asked: Asked,
    rows: &[Row],
    span: Span,
    sets: &mut [bool; 256],
)
    requires layout { layout.now ≡ counts_of plan.now }
    requires rows { span.first + span.count ≤ length rows.now }
    requires zones { complete.LeavesRows plan.now asked rows.now span sets.old (zone_count plan.now) 0 }
    ensures { complete.LeavesRows plan.now asked rows.now span sets.new (zone_count plan.now)
        (place_count plan.now) }
{
    for place in 0..plan.place_count() {
        after_field(plan, layout, asked, rows, span, Field::Place(place), sets);
    }
}

/// Whether one of the rows matches the word of each state that is as a call needs it.
pub(crate) fn covers(plan: &Plan, layout: &Layout, asked: Asked, rows: &[Row], span: Span) -> bool
    requires layout { layout.now ≡ counts_of plan.now }
    requires plain { IsPlain plan.now }
    requires rows { span.first + span.count ≤ length rows.now }
    ensures { IsTrue result → complete.Covers plan.now asked rows.now span }
{
    let mut sets = [false; 256];
    sets[255] = true;
    after_zones(plan, layout, asked, rows, span, &mut sets);
    after_places(plan, layout, asked, rows, span, &mut sets);
    after_field(plan, layout, asked, rows, span, Field::Stop, &mut sets);
    !sets[0] && look_at_fields(layout, rows, span)
}

/// Whether a pose opens a zone inward.
fn opens(plan: &Plan, pose: u8, zone: u8) -> bool
    ensures { result ≡ complete.opens plan.now pose zone }
{
    plan.posture_of(pose, zone) == Some(Posture::OpenIn)
}

/// Whether two zones aren't two that a pose opens.
fn are_not_two(plan: &Plan, pose: u8, zone: u8, other: u8) -> bool
    ensures { IsTrue result → complete.AreNotTwo plan.now pose zone other }
{
    zone == other || !opens(plan, pose, zone) || !opens(plan, pose, other)
}

fn opens_no_other(plan: &Plan, pose: u8, zone: u8) -> bool
    ensures { IsTrue result → (y : ℕ) → y < zone_count plan.now
        → complete.AreNotTwo plan.now pose zone y }
{
    for other in 0..plan.zone_count() {
        if !are_not_two(plan, pose, zone, other) {
            return false;
        }
    }
    true
}

fn opens_one(plan: &Plan, pose: u8) -> bool
    ensures { IsTrue result → complete.OpensOne plan.now pose }
{
    for zone in 0..plan.zone_count() {
        if !opens_no_other(plan, pose, zone) {
            return false;
        }
    }
    true
}

/// Whether a call, if it is a pose, opens at most one zone inward.
pub(crate) fn opens_one_at_most(plan: &Plan, call: Call) -> bool
    ensures { IsTrue result → complete.OpensOneAtMost plan.now call }
{
    match call {
        Call::SetPose(pose) => opens_one(plan, pose),
        _ => true,
    }
}
