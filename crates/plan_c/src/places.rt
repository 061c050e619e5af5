//! The full places of a start, from text.
ghost use Rattle.std.specs.Prelude.{◌≡◌, ◌↔◌, IsTrue};
ghost use Rattle.plan_types.specs.Table.{place_count};
ghost use Rattle.plan_c.specs.Starts.{IsStartText, is_full_in, places_in, is_digit};

use plan_rules::LAST_STAMP;
use plan_types::{MAX_PLACES, Plan};

/// Whether text and stamp are those of a start.
pub(crate) fn is_start(plan: &Plan, digits: &[u8], stamp: u32) -> bool
    ensures { IsTrue result ↔ IsStartText plan.now digits.now stamp }
{
    digits.len() == usize::from(plan.place_count())
        && digits.iter().all(|digit| *digit == b'0' || *digit == b'1')
        && stamp <= LAST_STAMP
}

fn is_full(digits: &[u8], place: usize) -> bool
    ensures { result ≡ is_full_in digits.now place }
{
    place < digits.len() && digits[place] == b'1'
}

/// The places that are full.
pub(crate) fn places_of(digits: &[u8]) -> [bool; MAX_PLACES]
    ensures { result ≡ places_in digits.now }
{
    let mut full = [false; MAX_PLACES];
    for place in 0..MAX_PLACES {
        full[place] = is_full(digits, place);
    }
    full
}
