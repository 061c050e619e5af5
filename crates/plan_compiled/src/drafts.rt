//! Drafts of rows. Nothing is promised of a draft: `row_of` tests each.
//!
//! A field's part is the smallest pattern of all numbers that a call can find there. Where it has others too, it is
//! split by one of its bits, and each half has a row.

ghost use Rattle.std.specs.Prelude.{◌≡◌};
ghost use Rattle.plan_word.specs.Layout.{counts_of};

use crate::needs::{place_after, place_fits, stop_after, stop_fits, zone_after, zone_fits};
use crate::part::Part;
use crate::plain::zone_alone;
use crate::right::{Asked, is_right_zone};
use plan_types::Plan;
use plan_word::{Field, Layout, is_lawful_zone, zone_code};

/// The part of every number, which stays.
const EVERY: Part = Part {
    mask: 0,
    wanted: 0,
    keep: u64::MAX,
    set: 0,
};

/// How many of a plan's zones are split for one call, at most.
const MOST_SPLITS: u32 = 3;

/// Some numbers of a field: all, or those of which one bit has this value.
#[derive(Clone, Copy)]
struct Half {
    bit: u64,
    value: u64,
}

/// All numbers of a field.
const WHOLE: Half = Half { bit: 0, value: 0 };

impl Half {
    fn has(self, number: u64) -> bool {
        number & self.bit == self.value
    }
}

/// The numbers that a call can find in a field, as far as they are known, and what it writes over them.
#[derive(Clone, Copy)]
struct Found {
    some: bool,
    all: u64,
    any: u64,
    same: u64,
    ones: u64,
}

/// No number yet.
const NONE_YET: Found = Found {
    some: false,
    all: u64::MAX,
    any: 0,
    same: u64::MAX,
    ones: u64::MAX,
};

impl Found {
    fn with(self, number: u64, next: u64) -> Found {
        Found {
            some: true,
            all: self.all & number,
            any: self.any | number,
            same: self.same & !(number ^ next),
            ones: self.ones & next,
        }
    }

    /// The part of a field with these bits that has all these numbers.
    fn part(self, bits: u64) -> Option<Part> {
        let mask = bits & !(self.all ^ self.any);
        self.some.then_some(Part {
            mask,
            wanted: self.all & mask,
            keep: self.same & bits,
            set: self.ones & !self.same & bits,
        })
    }
}

/// All bits of a zone.
fn bits_of_zone(layout: &Layout, zone: u8) -> u64 {
    (1 << layout.bits_of(Field::Zone(zone))) - 1
}

fn zone_part(plan: &Plan, layout: &Layout, asked: Asked, zone: u8, half: Half) -> Option<Part>
    requires { layout.now ≡ counts_of plan.now }
{
    let Asked {
        machine,
        call,
        room,
    } = asked;
    let mut found = NONE_YET;
    for code in 0..32 {
        let at = zone_alone(plan, layout, zone, code);
        let fits = is_lawful_zone(plan, zone, at)
            && zone_code(plan, layout, zone, at) == code
            && zone_fits(plan, machine, call, room, zone, at);
        if fits && half.has(code) {
            let next = zone_after(plan, machine, call, zone, at);
            found = found.with(code, zone_code(plan, layout, zone, next));
        }
    }
    found.part(bits_of_zone(layout, zone))
}

fn place_part(plan: &Plan, asked: Asked, place: u8) -> Option<Part> {
    let Asked {
        machine,
        call,
        room,
    } = asked;
    let mut found = NONE_YET;
    for bit in 0..2 {
        let full = bit == 1;
        if place_fits(plan, machine, call, room, place, full) {
            let next = place_after(plan, machine, call, place, full);
            found = found.with(bit, u64::from(next));
        }
    }
    found.part(1)
}

fn stop_part(plan: &Plan, asked: Asked) -> Option<Part> {
    let mut found = NONE_YET;
    for bit in 0..2 {
        let stopped = bit == 1;
        if stop_fits(plan, asked.call, stopped) {
            found = found.with(bit, u64::from(stop_after(asked.call, stopped)));
        }
    }
    found.part(1)
}

/// Whether the smallest pattern of a half has no other numbers.
fn is_exact(plan: &Plan, layout: &Layout, asked: Asked, zone: u8, half: Half) -> bool
    requires { layout.now ≡ counts_of plan.now }
{
    match zone_part(plan, layout, asked, zone, half) {
        Some(part) => is_right_zone(plan, layout, asked, &part, zone),
        None => true,
    }
}

/// The bit by which a zone has to be split, or 0 for none.
fn split_of(plan: &Plan, layout: &Layout, asked: Asked, zone: u8) -> u64
    requires { layout.now ≡ counts_of plan.now }
{
    if is_exact(plan, layout, asked, zone, WHOLE) {
        return 0;
    }
    for bit in [1, 2, 4, 8, 16] {
        if is_exact(plan, layout, asked, zone, Half { bit, value: bit })
            && is_exact(plan, layout, asked, zone, Half { bit, value: 0 })
        {
            return bit;
        }
    }
    0
}

fn shift(value: u64, bit: u8) -> u64 {
    if bit < 64 { value << bit } else { 0 }
}

impl Part {
    /// The part with that of a field.
    fn with_field(self, field: Part, bits: u64, bit: Option<u8>) -> Part {
        let Some(bit) = bit else {
            return self;
        };
        let others = self.keep & !shift(bits, bit);
        Part {
            mask: self.mask | shift(field.mask, bit),
            wanted: self.wanted | shift(field.wanted, bit),
            keep: others | shift(field.keep, bit),
            set: self.set | shift(field.set, bit),
        }
    }
}

fn with_zones(plan: &Plan, layout: &Layout, asked: Asked, picks: u8, part: Part) -> Option<Part>
    requires { layout.now ≡ counts_of plan.now }
{
    let mut whole = part;
    let mut splits = 0;
    for zone in 0..plan.zone_count() {
        let bit = split_of(plan, layout, asked, zone);
        let mut half = WHOLE;
        if bit != 0 {
            let clear = splits < MOST_SPLITS && picks >> splits & 1 == 1;
            half = Half {
                bit,
                value: if clear { 0 } else { bit },
            };
            splits += 1;
        }
        let own = zone_part(plan, layout, asked, zone, half)?;
        let bits = bits_of_zone(layout, zone);
        whole = whole.with_field(own, bits, layout.start(Field::Zone(zone)));
    }
    if splits < MOST_SPLITS && picks >> splits != 0 {
        return None;
    }
    Some(whole)
}

/// A draft of a call's row, with this pick of the halves of the zones that have to be split: `None` if there is none.
pub(crate) fn draft(plan: &Plan, layout: &Layout, asked: Asked, picks: u8) -> Option<Part>
    requires { layout.now ≡ counts_of plan.now }
{
    let mut whole = EVERY;
    for place in 0..plan.place_count() {
        let own = place_part(plan, asked, place)?;
        whole = whole.with_field(own, 1, layout.start(Field::Place(place)));
    }
    let own = stop_part(plan, asked)?;
    whole = whole.with_field(own, 1, layout.start(Field::Stop));
    with_zones(plan, layout, asked, picks, whole)
}
