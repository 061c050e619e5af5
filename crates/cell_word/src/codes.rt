//! The codes of owners and postures, and the bits of each field.

ghost use Rattle.std.specs.Prelude.{◌≡◌, ◌<◌, ◌≤◌};
ghost use Rattle.cell_word.specs.Layout as layout;
ghost use Rattle.cell_word.specs.Reading as reading;

use cell_types::{Machine, Place, Posture, Zone, guest, host};

/// The lowest bit of the stamp.
pub const STAMP_BIT: u32 = 40;

/// The bit that is set while the cell is stopped.
pub const MARK_BIT: u32 = 60;

/// The lowest of the five bits of a zone.
#[inline(always)]
pub fn zone_bit(zone: Zone) -> u32
    ensures place { result ≡ layout.zone_bit zone }
    ensures below_places { result ≤ 25 }
{
    5 * (zone as u32)
}

/// The bit of a place.
#[inline(always)]
pub fn place_bit(place: Place) -> u32
    ensures place { result ≡ layout.place_bit place }
    ensures below_stamp { result < 40 }
{
    30 + (place as u32)
}

/// The code of an owner: 0 for none, 1 for the host, 2 for any other machine.
#[inline(always)]
pub fn owner_code(zone: Zone, owner: Option<Machine>) -> u64
    ensures code { result ≡ layout.owner_code zone owner }
    ensures fits { result < 4 }
{
    match owner {
        None => 0,
        Some(machine) if machine == host(zone) => 1,
        Some(_) => 2,
    }
}

/// The owner with a code; the spare code 3 reads as 2 does.
#[inline(always)]
pub fn owner_of_code(zone: Zone, code: u64) -> Option<Machine>
    ensures { result ≡ reading.owner_of_code zone code }
{
    match code {
        0 => None,
        1 => Some(host(zone)),
        _ => Some(guest(zone)),
    }
}

/// The code of a posture.
#[inline(always)]
pub fn posture_code(posture: Posture) -> u64
    ensures code { result ≡ layout.posture_code posture }
    ensures fits { result < 4 }
{
    match posture {
        Posture::Closed => 0,
        Posture::Moving => 1,
        Posture::OpenIn => 2,
        Posture::OpenOut => 3,
    }
}

/// The posture with a code; a number that is no code reads as 3 does.
#[inline(always)]
pub fn posture_of_code(code: u64) -> Posture
    ensures { result ≡ reading.posture_of_code code }
{
    match code {
        0 => Posture::Closed,
        1 => Posture::Moving,
        2 => Posture::OpenIn,
        _ => Posture::OpenOut,
    }
}
