//! The layout of a plan's word. Each field lies above the one before it: the zones, the places, the stamp, the stop.
ghost use Rattle.std.specs.Prelude.{◌≡◌, ◌+◌, ◌*◌, ◌<◌, ◌≤◌, ◌^◌, ◌↔◌, Some, true, map};
ghost use Rattle.std.specs.Prelude.{IsSome, IfSome};
ghost use Rattle.std.specs.List.{range_with_len};
ghost use Rattle.plan_types.specs.Table.{zone_shape, shape_bits};
ghost use Rattle.plan_word.specs.Layout as layouts;
ghost use Rattle.plan_word.specs.Kept.{ends_from};
ghost use Rattle.plan_word.specs.Reading as reading;

use crate::bits::{bits, with_bits};
use plan_types::{MAX_ZONES, Plan, ZoneShape};
use std::marker::Model;

/// A part of a state, which has a field of the word.
#[derive(Clone, Copy, Debug, PartialEq, Eq)]
pub enum Field {
    /// Owner, flag and posture of a zone.
    Zone(u8),
    /// Whether a place is full.
    Place(u8),
    /// The stamp.
    Stamp,
    /// Whether the plant is stopped.
    Stop,
}

/// Where each field of a plan's word lies. It takes no memory beyond itself, and C can keep it, if only [`Layout::of`]
/// makes it.
#[repr(C)]
#[derive(Clone, Copy, Debug)]
pub struct Layout {
    zones: u8,
    places: u8,
    shapes: [ZoneShape; MAX_ZONES],
    ends: [u8; MAX_ZONES + 1],
}

impl Model for Layout {
    ghost use Rattle.plan_word.specs.Layout.{Counts};

    ghost Value = { Counts };

    ghost use Rattle.plan_word.specs.Kept.{layout_in, kept, kept_back, IsKept};

    ghost view = { layout_in };

    ghost invariant = { IsKept };

    ghost inverse = { kept };

    ghost inverse_ok = { kept_back };
}

const NO_SHAPE: ZoneShape = ZoneShape {
    guests: 1,
    flag: false,
    moves: false,
    opens_in: false,
    opens_out: false,
};

fn shapes_of(plan: &Plan) -> [ZoneShape; MAX_ZONES]
    ensures { result ≡ map (zone_shape plan.now) (range_with_len 0 10) }
{
    let mut shapes = [NO_SHAPE; MAX_ZONES];
    for zone in 0..MAX_ZONES {
        shapes[zone] = plan.zone_shape(zone as u8);
    }
    shapes
}

/// Where the first zones end, by how many they are.
fn ends_of(shapes: &[ZoneShape; MAX_ZONES]) -> [u8; MAX_ZONES + 1]
    ensures { result ≡ ends_from shapes.now }
{
    let mut ends = [0; MAX_ZONES + 1];
    for zone in 0..MAX_ZONES {
        ends[zone + 1] = ends[zone] + shapes[zone].bits();
    }
    ends
}

impl Layout {
    /// The layout of a plan's word.
    pub fn of(plan: &Plan) -> Layout
        ensures { result ≡ layouts.counts_of plan.now }
    {
        let shapes = shapes_of(plan);
        let ends = ends_of(&shapes);
        Layout {
            zones: plan.zone_count(),
            places: plan.place_count(),
            shapes,
            ends,
        }
    }

    fn zones_end(&self) -> u8
        ensures end { result ≡ layouts.zones_end self.now self.now.zones }
        ensures fits { result + self.now.places + 21 ≤ 64 }
    {
        self.ends[usize::from(self.zones)]
    }

    /// How many bits the word has: at most 64.
    pub fn width(&self) -> u8
        ensures width { result ≡ layouts.width_of self.now }
        ensures fits { result ≤ 64 }
    {
        self.zones_end() + self.places + 21
    }

    /// Whether the word has a field.
    pub fn has(&self, field: Field) -> bool
        ensures { result ≡ layouts.has self.now field }
    {
        match field {
            Field::Zone(zone) => zone < self.zones,
            Field::Place(place) => place < self.places,
            Field::Stamp | Field::Stop => true,
        }
    }

    /// The fields of a zone; that of its owner alone if there is no such zone.
    pub fn shape(&self, zone: u8) -> ZoneShape
        ensures { result ≡ layouts.shape_at self.now zone }
    {
        let zone = usize::from(zone);
        if zone < MAX_ZONES {
            self.shapes[zone]
        } else {
            NO_SHAPE
        }
    }

    /// The lowest bit of a field that the word has, counted from 0.
    pub fn start(&self, field: Field) -> Option<u8>
        ensures some { IsSome result ↔ (layouts.has self.now field ≡ true) }
        ensures start { IfSome result (λ bit. bit ≡ layouts.start_of self.now field) }
    {
        if self.has(field) {
            Some(self.lowest(field))
        } else {
            None
        }
    }

    fn zone_start(&self, zone: u8) -> u8
        requires { zone < self.now.zones }
        ensures start { result ≡ layouts.zones_end self.now zone }
        ensures within { result + shape_bits (layouts.shape_at self.now zone) ≤ 64 }
        ensures in_word { result < 64 }
    {
        self.ends[usize::from(zone)]
    }

    fn lowest(&self, field: Field) -> u8
        requires { layouts.has self.now field ≡ true }
        ensures lowest { result ≡ layouts.start_of self.now field }
        ensures within { result + layouts.bits_of self.now field ≤ 64 }
        ensures in_word { result < 64 }
    {
        match field {
            Field::Zone(zone) => self.zone_start(zone),
            Field::Place(place) => self.zones_end() + place,
            Field::Stamp => self.zones_end() + self.places,
            Field::Stop => self.zones_end() + self.places + 20,
        }
    }

    /// The number in a field of a word.
    pub fn value_in(&self, word: u64, field: Field) -> u64
        requires { layouts.has self.now field ≡ true }
        ensures value { result ≡ reading.told self.now word field }
        ensures fits { result < 2 ^ layouts.bits_of self.now field }
    {
        let lowest = u32::from(self.lowest(field));
        bits(word, lowest, u32::from(self.bits_of(field)))
    }

    /// The word with a number in a field above all bits that are set.
    pub fn with(&self, word: u64, field: Field, value: u64) -> u64
        requires has { layouts.has self.now field ≡ true }
        requires below { word < 2 ^ layouts.start_of self.now field }
        requires fits { value < 2 ^ layouts.bits_of self.now field }
        ensures word { result ≡ word + value * 2 ^ layouts.start_of self.now field }
        ensures below { result < 2 ^ layouts.end_of self.now field }
    {
        let lowest = u32::from(self.lowest(field));
        with_bits(word, lowest, u32::from(self.bits_of(field)), value)
    }

    /// How many bits a field has.
    pub fn bits_of(&self, field: Field) -> u8
        ensures bits { result ≡ layouts.bits_of self.now field }
        ensures few { result ≤ 20 }
    {
        match field {
            Field::Zone(zone) => self.shape(zone).bits(),
            Field::Stamp => 20,
            Field::Place(_) | Field::Stop => 1,
        }
    }
}
