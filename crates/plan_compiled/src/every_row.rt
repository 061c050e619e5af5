//! Whether each call that is done has its row.
ghost use Rattle.std.specs.Prelude.{◌≡◌, ◌+◌, ◌≤◌, true, false, length, IsTrue};
ghost use Rattle.plan_types.specs.Table.{zone_count, place_count};
ghost use Rattle.plan_rules.specs.PlainLaws.{IsPlain};
ghost use Rattle.plan_word.specs.Layout.{counts_of};
ghost use Rattle.plan_compiled.specs.Complete as complete;

use crate::covering::{Span, covers, opens_one_at_most};
use crate::finding::own_rows;
use crate::needs::may_ask;
use crate::plain::is_plain;
use crate::right::Asked;
use crate::row::Row;
use plan_types::{Call, Plan};
use plan_word::Layout;

/// The most rows that are looked at together.
const TOGETHER: usize = 8;

/// Whether some rows match wherever the call is done with room: the ends of the ways that a pose opens are empty.
fn covers_room(
    plan: &Plan,
    layout: &Layout,
    rows: &[Row],
    span: Span,
    machine: u8,
    call: Call,
) -> bool
    requires layout { layout.now ≡ counts_of plan.now }
    requires plain { IsPlain plan.now }
    requires rows { span.first + span.count ≤ length rows.now }
    ensures { IsTrue result → complete.CoversRoom plan.now rows.now span machine call true }
{
    let asked = Asked {
        machine,
        call,
        room: true,
    };
    covers(plan, layout, asked, rows, span)
}

/// Whether some rows match wherever the call is done without room: what a pose opens is open already.
fn covers_shut(
    plan: &Plan,
    layout: &Layout,
    rows: &[Row],
    span: Span,
    machine: u8,
    call: Call,
) -> bool
    requires layout { layout.now ≡ counts_of plan.now }
    requires plain { IsPlain plan.now }
    requires rows { span.first + span.count ≤ length rows.now }
    ensures { IsTrue result → complete.CoversRoom plan.now rows.now span machine call false }
{
    let asked = Asked {
        machine,
        call,
        room: false,
    };
    covers(plan, layout, asked, rows, span)
}

/// How many of some rows are looked at together.
fn together(count: usize) -> usize
    ensures { result ≤ count }
{
    if count < TOGETHER { count } else { TOGETHER }
}

/// Whether a call has its row wherever it is done: with room one of the first rows, and without room of the last ones.
fn has_rows(
    plan: &Plan,
    layout: &Layout,
    rows: &[Row],
    starts: &[u16],
    machine: u8,
    call: Call,
) -> bool
    requires layout { layout.now ≡ counts_of plan.now }
    requires plain { IsPlain plan.now }
    ensures { IsTrue result → complete.HasRows plan.now rows.now starts.now machine call }
{
    let _ = plan.machines();
    let own = own_rows(rows, starts, machine, call);
    let count = together(own.count);
    let first = Span {
        first: own.first,
        count,
    };
    let last = Span {
        first: own.first + (own.count - count),
        count,
    };
    if !opens_one_at_most(plan, call) {
        return false;
    }
    if !may_ask(plan, machine, call) {
        return true;
    }
    if !covers_room(plan, layout, rows, first, machine, call) {
        return false;
    }
    covers_shut(plan, layout, rows, last, machine, call)
}

fn has_zone_rows(
    plan: &Plan,
    layout: &Layout,
    rows: &[Row],
    starts: &[u16],
    machine: u8,
    zone: u8,
) -> bool
    requires layout { layout.now ≡ counts_of plan.now }
    requires plain { IsPlain plan.now }
    ensures { IsTrue result → complete.HasZoneRows plan.now rows.now starts.now machine zone }
{
    if !has_rows(plan, layout, rows, starts, machine, Call::Claim(zone)) {
        return false;
    }
    if !has_rows(plan, layout, rows, starts, machine, Call::Give(zone)) {
        return false;
    }
    if !has_rows(plan, layout, rows, starts, machine, Call::Yield(zone)) {
        return false;
    }
    if !has_rows(plan, layout, rows, starts, machine, Call::Take(zone)) {
        return false;
    }
    has_rows(plan, layout, rows, starts, machine, Call::Release(zone))
}

fn has_all_zone_rows(
    plan: &Plan,
    layout: &Layout,
    rows: &[Row],
    starts: &[u16],
    machine: u8,
) -> bool
    requires layout { layout.now ≡ counts_of plan.now }
    requires plain { IsPlain plan.now }
    ensures { IsTrue result → complete.HasAllZoneRows plan.now rows.now starts.now machine
        (zone_count plan.now) }
{
    for zone in 0..plan.zone_count() {
        if !has_zone_rows(plan, layout, rows, starts, machine, zone) {
            return false;
        }
    }
    true
}

fn has_pose_rows(plan: &Plan, layout: &Layout, rows: &[Row], starts: &[u16], machine: u8) -> bool
    requires layout { layout.now ≡ counts_of plan.now }
    requires plain { IsPlain plan.now }
    ensures { IsTrue result → complete.HasPoseRows plan.now rows.now starts.now machine 64 }
{
    for pose in 0..64u8 {
        if !has_rows(plan, layout, rows, starts, machine, Call::SetPose(pose)) {
            return false;
        }
    }
    true
}

fn has_place_rows(plan: &Plan, layout: &Layout, rows: &[Row], starts: &[u16], machine: u8) -> bool
    requires layout { layout.now ≡ counts_of plan.now }
    requires plain { IsPlain plan.now }
    ensures { IsTrue result → complete.HasPlaceRows plan.now rows.now starts.now machine
        (place_count plan.now) }
{
    for place in 0..plan.place_count() {
        if !has_rows(plan, layout, rows, starts, machine, Call::Advance(place)) {
            return false;
        }
    }
    true
}

fn has_watch_rows(plan: &Plan, layout: &Layout, rows: &[Row], starts: &[u16], machine: u8) -> bool
    requires layout { layout.now ≡ counts_of plan.now }
    requires plain { IsPlain plan.now }
    ensures { IsTrue result → complete.HasWatchRows plan.now rows.now starts.now machine }
{
    has_rows(plan, layout, rows, starts, machine, Call::Stop)
        && has_rows(plan, layout, rows, starts, machine, Call::Resume)
}

fn has_machine_rows(plan: &Plan, layout: &Layout, rows: &[Row], starts: &[u16], machine: u8) -> bool
    requires layout { layout.now ≡ counts_of plan.now }
    requires plain { IsPlain plan.now }
    ensures { IsTrue result → complete.HasMachineRows plan.now rows.now starts.now machine }
{
    if !has_all_zone_rows(plan, layout, rows, starts, machine) {
        return false;
    }
    if !has_pose_rows(plan, layout, rows, starts, machine) {
        return false;
    }
    if !has_place_rows(plan, layout, rows, starts, machine) {
        return false;
    }
    has_watch_rows(plan, layout, rows, starts, machine)
}

/// Whether no zone joins the one before it, and each call that is done has its row.
pub(crate) fn has_every_row(plan: &Plan, layout: &Layout, rows: &[Row], starts: &[u16]) -> bool
    requires { layout.now ≡ counts_of plan.now }
    ensures rows { IsTrue result → complete.IsComplete plan.now rows.now starts.now }
    ensures plain { IsTrue result → IsPlain plan.now }
{
    let _ = plan.machines();
    if !is_plain(plan) {
        return false;
    }
    for machine in 0..31u8 {
        if !has_machine_rows(plan, layout, rows, starts, machine) {
            return false;
        }
    }
    true
}
