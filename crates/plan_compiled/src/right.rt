//! Whether a row is right, tested over all numbers of each field of the word.
ghost use Rattle.std.specs.Prelude.{◌≡◌, ℕ, ◌<◌, IsTrue, IfSome};
ghost use Rattle.plan_types.specs.Table.{zone_count, place_count};
ghost use Rattle.plan_rules.specs.PlainLaws.{IsPlain};
ghost use Rattle.plan_word.specs.Layout.{counts_of, width_of};
ghost use Rattle.plan_word.specs.declared.layout.Field.TheVariants.{Zone, Place, Stamp, Stop};
ghost use Rattle.plan_compiled.specs.Needs as needs;
ghost use Rattle.plan_compiled.specs.Rows as rows;
ghost use Rattle.plan_compiled.specs.Right as right;

use crate::needs::{
    may_ask, place_after, place_fits, stop_after, stop_fits, zone_after, zone_fits,
};
use crate::part::Part;
use crate::plain::zone_alone;
use crate::row::Row;
use plan_rules::laws::plain_plans_stay;
use plan_types::{Call, Plan};
use plan_word::{Field, Layout, is_lawful_zone, zone_code};

/// A call of a machine; with room, the ends of the ways that a pose opens have to be empty.
#[derive(Clone, Copy, Debug)]
pub struct Asked {
    /// Who calls.
    pub machine: u8,
    /// The call.
    pub call: Call,
    /// Whether a pose may open ways.
    pub room: bool,
}

fn is_right_code(
    plan: &Plan,
    layout: &Layout,
    asked: Asked,
    part: &Part,
    zone: u8,
    code: u64,
) -> bool
    requires { layout.now ≡ counts_of plan.now }
    ensures { IsTrue result → right.IsRightCode plan.now asked part.now zone code }
{
    let Asked {
        machine,
        call,
        room,
    } = asked;
    let at = zone_alone(plan, layout, zone, code);
    if zone_code(plan, layout, zone, at) != code
        || !is_lawful_zone(plan, zone, at)
        || !part.matches(code)
    {
        return true;
    }
    let after = zone_after(plan, machine, call, zone, at);
    zone_fits(plan, machine, call, room, zone, at)
        && part.written(code) == zone_code(plan, layout, zone, after)
}

pub(crate) fn is_right_zone(
    plan: &Plan,
    layout: &Layout,
    asked: Asked,
    part: &Part,
    zone: u8,
) -> bool
    requires { layout.now ≡ counts_of plan.now }
    ensures { IsTrue result → (code : ℕ) → code < 32
        → right.IsRightCode plan.now asked part.now zone code }
{
    for code in 0..32 {
        if !is_right_code(plan, layout, asked, part, zone, code) {
            return false;
        }
    }
    true
}

fn are_right_zones(plan: &Plan, layout: &Layout, asked: Asked, part: &Part) -> bool
    requires { layout.now ≡ counts_of plan.now }
    ensures { IsTrue result → right.AreRightZones plan.now asked part.now (zone_count plan.now) }
{
    for zone in 0..plan.zone_count() {
        let own = part.of_field(layout, Field::Zone(zone));
        if !is_right_zone(plan, layout, asked, &own, zone) {
            return false;
        }
    }
    true
}

fn is_right_bit(plan: &Plan, asked: Asked, part: &Part, place: u8, full: bool) -> bool
    ensures { IsTrue result → right.IsRightBit plan.now asked part.now place full }
{
    let Asked {
        machine,
        call,
        room,
    } = asked;
    let bit = u64::from(full);
    if !part.matches(bit) {
        return true;
    }
    place_fits(plan, machine, call, room, place, full)
        && part.written(bit) == u64::from(place_after(plan, machine, call, place, full))
}

fn is_right_place(plan: &Plan, asked: Asked, part: &Part, place: u8) -> bool
    ensures { IsTrue result → (full : _) → right.IsRightBit plan.now asked part.now place full }
{
    is_right_bit(plan, asked, part, place, false) && is_right_bit(plan, asked, part, place, true)
}

fn are_right_places(plan: &Plan, layout: &Layout, asked: Asked, part: &Part) -> bool
    requires { layout.now ≡ counts_of plan.now }
    ensures { IsTrue result → right.AreRightPlaces plan.now asked part.now (place_count plan.now) }
{
    for place in 0..plan.place_count() {
        let own = part.of_field(layout, Field::Place(place));
        if !is_right_place(plan, asked, &own, place) {
            return false;
        }
    }
    true
}

fn is_right_stop_bit(plan: &Plan, asked: Asked, part: &Part, stopped: bool) -> bool
    ensures { IsTrue result → right.IsRightStop plan.now asked part.now stopped }
{
    let bit = u64::from(stopped);
    if !part.matches(bit) {
        return true;
    }
    stop_fits(plan, asked.call, stopped)
        && part.written(bit) == u64::from(stop_after(asked.call, stopped))
}

fn is_right_stop(plan: &Plan, layout: &Layout, asked: Asked, part: &Part) -> bool
    requires { layout.now ≡ counts_of plan.now }
    ensures { IsTrue result → (stopped : _) → right.IsRightStop plan.now asked
        (rows.part_in (counts_of plan.now) part.now Stop) stopped }
{
    let own = part.of_field(layout, Field::Stop);
    is_right_stop_bit(plan, asked, &own, false) && is_right_stop_bit(plan, asked, &own, true)
}

/// Whether the stamp stays, and no bit above the word's width is set.
fn keeps_stamp(layout: &Layout, part: &Part) -> bool
    ensures { IsTrue result → right.KeepsStamp layout.now part.now }
{
    let own = part.of_field(layout, Field::Stamp);
    let above = part.set >> (layout.width() - 1) >> 1;
    own.keep == 0xF_FFFF && own.set == 0 && above == 0
}

/// The row of a call with this part, if it is right.
pub(crate) fn row_of(plan: &Plan, layout: &Layout, asked: Asked, part: Part) -> Option<Row>
    requires layout { layout.now ≡ counts_of plan.now }
    requires plain { IsPlain plan.now }
    ensures { IfSome result (λ row. rows.IsRight plan.now row) }
{
    let _ = plan.machines();
    plain_plans_stay();
    if may_ask(plan, asked.machine, asked.call)
        && keeps_stamp(layout, &part)
        && is_right_stop(plan, layout, asked, &part)
        && are_right_places(plan, layout, asked, &part)
        && are_right_zones(plan, layout, asked, &part)
    {
        Some(Row::new(asked.machine, asked.call, part))
    } else {
        None
    }
}
