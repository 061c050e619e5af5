//! Which places are full, as scripts and configurations write it: a digit for each place.

ghost use Rattle.std.specs.Prelude.{◌≡◌};
ghost use Rattle.cell_rules.specs.StartDigits.{flag_in, places_in};

/// How many places there are.
pub const PLACES: usize = 10;

/// Whether a place is full, from the digit 0 or 1; `None` for any other byte.
fn read_flag(digit: u8) -> Option<bool>
    ensures { result ≡ flag_in digit }
{
    match digit {
        b'0' => Some(false),
        b'1' => Some(true),
        _ => None,
    }
}

/// Which places are full, by ten digits 0 or 1 in the order of the places; `None` for other bytes.
pub fn read_places(digits: &[u8]) -> Option<[bool; PLACES]>
    ensures { result ≡ places_in digits.now }
{
    if digits.len() != PLACES {
        return None;
    }
    let mut places = [false; PLACES];
    'digits: for (place, digit) in digits.iter().enumerate() {
        places[place] = read_flag(*digit)?;
    }
    Some(places)
}
