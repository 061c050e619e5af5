//! Reads the number in a field.

ghost use Rattle.std.specs.Prelude.{◌≡◌};
ghost use Rattle.csv_rows.specs.Numbers.{number_in};

/// The most digits of a number: those of the greatest stamp.
pub const MAX_DIGITS: usize = 7;

/// The number that one to seven digits write; `None` for other bytes.
#[tactic(auto, using(crate::proofs::Digits::power_small))]
pub fn read_number(field: &[u8]) -> Option<u32>
    ensures { result ≡ number_in field.now }
{
    if field.is_empty() || field.len() > MAX_DIGITS {
        return None;
    }
    let mut number = 0u32;
    'digits: for byte in field {
        if !byte.is_ascii_digit() {
            return None;
        }
        number = 10 * number + u32::from(*byte - b'0');
    }
    Some(number)
}
