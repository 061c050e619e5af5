//! Whether a word is a sound state's, decided by masks.
ghost use Rattle.std.specs.Prelude.{◌≡◌, ◌↔◌, IsTrue, false};
ghost use Rattle.cell_rules.specs.ModelState.{ModelState};
ghost use Rattle.cell_rules.specs.Sound.{IsSound};
ghost use Rattle.std.specs.List.{list_all};
ghost use Rattle.cell_types.specs.Everything.{all_zones};
ghost use Rattle.cell_types.specs.Tables.{transfer_of};
ghost use Rattle.cell_word.specs.Layout.{packed};
ghost use Rattle.cell_word.specs.Patterns.{stands, flag_is};
ghost use Rattle.cell_word.specs.StateWords as words;

use crate::bits::bits;
use crate::codes::zone_bit;
use crate::patterns::Pattern;
use cell_types::{Place, Posture, Zone, transfer};

/// The codes that a shut zone may have in its five bits, each as a set bit: 0 and 1 if it is
/// closed, 9 if it moves.
const SHUT_CODES: u64 = 0x203;

/// The codes of a zone that is open inward: 16, 17 and 18, and 21 with a plate.
const INWARD_CODES: u64 = 0x27_0000;

/// The codes of a zone that is open outward: 24, 25 and 26, and 30 with a plate.
const OUTWARD_CODES: u64 = 0x4700_0000;

/// The lowest bit of each zone.
const ZONES: u64 = 0x210_8421;

/// The lowest bit of each zone that opens outward only: z2 and z5.
const OUTWARD_ZONES: u64 = 0x10_0020;

/// The lowest bit of each zone that opens in one way only: all but z3.
const ONE_WAY_ZONES: u64 = 0x210_8021;

/// The bits that a test of all zones at once turns over: of each zone the lowest of its owner and the
/// highest of its posture, and of z2 and z5 the lowest of their postures.
const TURNED: u64 = ZONES | ZONES << 4 | OUTWARD_ZONES << 3;

fn zone_codes(zone: Zone) -> u64
    ensures { result ≡ words.zone_codes zone }
{
    let mut codes = SHUT_CODES;
    if transfer(zone, Posture::OpenIn).is_some() {
        codes |= INWARD_CODES;
    }
    if transfer(zone, Posture::OpenOut).is_some() {
        codes |= OUTWARD_CODES;
    }
    codes
}

/// A plate is on its way to a full place.
fn onto_full(zone: Zone, posture: Posture) -> Pattern
    ensures { result ≡ words.onto_full zone posture (transfer_of zone posture) }
{
    match transfer(zone, posture) {
        Some(row) => {
            let posture = Pattern::posture(zone, posture);
            Pattern::flag(zone, true).and(posture.and(Pattern::place(row.to, true)))
        }
        None => Pattern::NOTHING,
    }
}

fn is_lawful_zone(word: u64, zone: Zone) -> bool
    ensures { result ≡ words.is_lawful_zone word zone }
{
    let code = bits(word, zone_bit(zone), 5);
    bits(zone_codes(zone), code as u32, 1) == 1
        && !onto_full(zone, Posture::OpenIn).stands_in(word)
        && !onto_full(zone, Posture::OpenOut).stands_in(word)
}

/// The press has at most one plate, and no forged one while it is open inward.
#[inline(always)]
#[tactic(auto, using(crate::proofs::ZonesAtOnce::press_without_forged))]
fn is_lawful_press(word: u64) -> bool
    ensures { result ≡ words.is_lawful_press word }
{
    let forged = Pattern::place(Place::PressOut, true);
    if !forged.stands_in(word) {
        return true;
    }
    !Pattern::place(Place::PressIn, true)
        .and(forged)
        .stands_in(word)
        && !Pattern::posture(Zone::Z3, Posture::OpenIn)
            .and(forged)
            .stands_in(word)
}

/// Whether no zone has a plate in it.
#[inline(always)]
#[tactic(auto, using(crate::proofs::ZonesAtOnce::clear_at_once))]
fn are_clear_zones(word: u64) -> bool
    ensures { IsTrue result ↔ ((zone : Zone) → IsTrue (stands word (flag_is zone false))) }
{
    word >> 2 & ZONES == 0
}

/// Whether each zone has a code that it may have, where no zone has a plate in it. All zones are
/// tested at once: the bits of each are shifted down to its lowest.
#[inline(always)]
fn are_lawful_codes(word: u64) -> bool
    requires clear { (zone : Zone) → IsTrue (stands word (flag_is zone false)) }
    ensures { result ≡ list_all (words.is_lawful_zone word) all_zones }
{
    let turned = word ^ TURNED;
    let of_guest = word >> 1;
    // the spare code of an owner
    let spare = word & of_guest;
    // a zone that is shut, and its guest's, or that moves, and isn't its host's
    let barred = turned >> 4 & (of_guest | word >> 3 & turned);
    // a zone that is open, but not in its one way
    let wrong_way = word >> 4 & turned >> 3 & ONE_WAY_ZONES;
    (spare | barred | wrong_way) & ZONES == 0
}

/// Whether each zone, one after another, is as it may be.
#[inline(never)]
fn is_each_zone_lawful(word: u64) -> bool
    ensures { result ≡ list_all (words.is_lawful_zone word) all_zones }
{
    Zone::ALL.iter().all(|zone| is_lawful_zone(word, *zone))
}

#[inline(always)]
fn are_lawful_zones(word: u64) -> bool
    ensures { result ≡ list_all (words.is_lawful_zone word) all_zones }
{
    if are_clear_zones(word) {
        are_lawful_codes(word)
    } else {
        is_each_zone_lawful(word)
    }
}

/// Whether the bits above the mark, the zones and the press are as the masks allow.
#[inline(always)]
fn keeps_masks(word: u64) -> bool
    ensures { result ≡ words.is_state_word word }
{
    Pattern::field(61, 3, 0).stands_in(word) && are_lawful_zones(word) && is_lawful_press(word)
}

/// Whether a word is a sound state's.
#[inline(always)]
pub(crate) fn is_state_word(word: u64) -> bool
    ensures { IsTrue result ↔ ((state : ModelState) × IsSound state × (packed state ≡ word)) }
{
    keeps_masks(word)
}
