//! The word of a state, and the state of a word.
ghost use Rattle.std.specs.Prelude.{◌≡◌, ◌≢◌, ◌+◌, ◌*◌, ◌<◌, ◌^◌, ◌↔◌, Some, IsSome, IfSome, IsNone};
ghost use Rattle.cell_rules.specs.ModelState.{ModelState, one_if};
ghost use Rattle.cell_rules.specs.Sound.{IsSound};
ghost use Rattle.cell_word.specs.Layout as layout;
ghost use Rattle.cell_word.specs.Layout.{packed};
ghost use Rattle.cell_word.specs.Reading as reading;
ghost use Rattle.cell_word.specs.Reading.{state_told};

use crate::bits::{bits, with_bits};
use crate::codes::{
    MARK_BIT, STAMP_BIT, owner_code, owner_of_code, place_bit, posture_code, posture_of_code,
    zone_bit,
};
use cell_rules::{Places, State, ZoneState, Zones};
use cell_types::{Place, Zone};

/// The word with a zone above all bits that are set.
fn with_zone(word: u64, zone: Zone, at: ZoneState) -> u64
    requires { word < 2 ^ layout.zone_bit zone }
    ensures word { result ≡ word + layout.word_of (layout.zone_fields zone at) }
    ensures below { result < 2 ^ (layout.zone_bit zone + 5) }
{
    let lowest = zone_bit(zone);
    let word = with_bits(word, lowest, 2, owner_code(zone, at.owner));
    let word = with_bits(word, lowest + 2, 1, u64::from(at.flag));
    with_bits(word, lowest + 3, 2, posture_code(at.posture))
}

/// The word with a place above all bits that are set.
fn with_place(word: u64, place: Place, full: bool) -> u64
    requires { word < 2 ^ layout.place_bit place }
    ensures word { result ≡ word + one_if full * 2 ^ layout.place_bit place }
    ensures below { result < 2 ^ (layout.place_bit place + 1) }
{
    with_bits(word, place_bit(place), 1, u64::from(full))
}

/// The word of a state. From the lowest bit on each zone has five bits, in the order of the zones:
/// two for its owner (0 free, 1 the host, 2 the guest), one for its flag, two for its posture
/// (Closed 0, Moving 1, OpenIn 2, OpenOut 3). The bits 30 to 39 are the places in their order, the
/// bits 40 to 59 the stamp, bit 60 is set while the cell is stopped, and bits 61 to 63 are zero.
pub fn pack(state: &State) -> u64
    ensures { result ≡ packed state.now }
{
    let mut word = 0;
    for zone in Zone::ALL {
        word = with_zone(word, zone, state.zone(zone));
    }
    for place in Place::ALL {
        word = with_place(word, place, state.is_full(place));
    }
    let word = with_bits(word, STAMP_BIT, 20, u64::from(state.stamp()));
    with_bits(word, MARK_BIT, 1, u64::from(state.stopped()))
}

pub(crate) fn zone_in_word(word: u64, zone: Zone) -> ZoneState
    ensures { result ≡ reading.zone_in_word word zone }
{
    let lowest = zone_bit(zone);
    ZoneState {
        owner: owner_of_code(zone, bits(word, lowest, 2)),
        flag: bits(word, lowest + 2, 1) == 1,
        posture: posture_of_code(bits(word, lowest + 3, 2)),
    }
}

fn zones_in_word(word: u64) -> Zones
    ensures { result ≡ reading.zones_in_word word }
{
    let mut zones = Zones::all_free();
    for zone in Zone::ALL {
        zones.set(zone, zone_in_word(word, zone));
    }
    zones
}

fn places_in_word(word: u64) -> Places
    ensures { result ≡ reading.places_in_word word }
{
    Places::from_flags(Place::ALL.map(|place| bits(word, place_bit(place), 1) == 1))
}

/// The stamp of a word, read without unpacking it. If the word is no sound state's, it is the
/// number in the bits 40 to 59.
pub fn stamp_of(word: u64) -> u32
    ensures told { result ≡ (state_told word).stamp }
    ensures stamp { (state : ModelState) → IsSound state → packed state ≡ word
        → result ≡ state.stamp }
{
    bits(word, STAMP_BIT, 20) as u32
}

/// The state that the bits of a word encode, if it is sound.
fn sound_state_told(word: u64) -> Option<State>
    ensures some { IsSome result ↔ IsSound (state_told word) }
    ensures value { IfSome result (λ state. state ≡ state_told word) }
{
    let stopped = bits(word, MARK_BIT, 1) == 1;
    State::from_parts(
        zones_in_word(word),
        places_in_word(word),
        stamp_of(word),
        stopped,
    )
}

/// The sound state that packs to a word, or `None` if there is none: a bit above the mark is set,
/// an owner has the spare code 3, or the encoded state isn't sound.
pub fn unpack(word: u64) -> Option<State>
    ensures some { (state : ModelState)
        → (result ≡ Some state) ↔ (IsSound state × (packed state ≡ word)) }
    ensures none { IsNone result ↔ ((state : ModelState) → IsSound state → packed state ≢ word) }
{
    match sound_state_told(word) {
        Some(state) if pack(&state) == word => Some(state),
        _ => None,
    }
}
