//! Reads the start in record 0.
ghost use Rattle.std.specs.Prelude.{◌≡◌, count_by};
ghost use Rattle.std.specs.List.{list_all};
ghost use Rattle.csv.specs.Records.{fields_of};
ghost use Rattle.plan_types.specs.Table.{place_count};
ghost use Rattle.plan_text.specs.Starts as spec;

use crate::NamedPlan;
use csv::ByteRecord;
use csv_rows::{ScriptFault, read_number};
use plan_rules::{LAST_STAMP, State};
use plan_types::MAX_PLACES;

/// Whether the digit of a place is 1.
fn is_one(digits: &[u8], place: usize) -> bool
    ensures { result ≡ spec.is_one digits.now place }
{
    place < digits.len() && digits[place] == b'1'
}

/// The places that digits name as full.
fn full_places(digits: &[u8]) -> [bool; MAX_PLACES]
    ensures { result ≡ spec.full_places digits.now }
{
    [
        is_one(digits, 0),
        is_one(digits, 1),
        is_one(digits, 2),
        is_one(digits, 3),
        is_one(digits, 4),
        is_one(digits, 5),
        is_one(digits, 6),
        is_one(digits, 7),
        is_one(digits, 8),
        is_one(digits, 9),
        is_one(digits, 10),
        is_one(digits, 11),
        is_one(digits, 12),
        is_one(digits, 13),
        is_one(digits, 14),
        is_one(digits, 15),
    ]
}

/// Whether a byte is the digit 0 or 1.
fn is_flag(digit: u8) -> bool
    ensures { result ≡ spec.is_flag digit }
{
    digit == b'0' || digit == b'1'
}

/// Whether each byte is the digit 0 or 1.
fn are_flags(digits: &[u8]) -> bool
    ensures { result ≡ list_all spec.is_flag digits.now }
{
    digits.iter().all(|digit| is_flag(*digit))
}

/// Whether these are as many digits 0 or 1 as there are places.
fn are_places(digits: &[u8], count: u8) -> bool
    ensures { result ≡ spec.are_places count digits.now }
{
    digits.len() == usize::from(count) && are_flags(digits)
}

/// How many places are full.
pub fn plates(state: &State) -> usize
    ensures { result ≡ count_by (λ full. full) state.now.full }
{
    state.full.iter().filter(|full| **full).count()
}

/// The start with these digits and this stamp, if they make one for this number of places.
fn start_of(count: u8, digits: &[u8], stamp: Option<u32>) -> Option<State>
    ensures { result ≡ spec.start_of count digits.now stamp }
{
    let stamp = stamp?;
    if are_places(digits, count) && stamp <= LAST_STAMP {
        Some(State::start(full_places(digits), stamp))
    } else {
        None
    }
}

/// The start in record 0. `NoStart` if its first field isn't `start`, `BadStart` if the rest is no start of the plan.
pub fn read_start(named: &NamedPlan, row: &ByteRecord) -> Result<State, ScriptFault>
    ensures { result ≡ spec.start_in (place_count named.now.plan) (fields_of row.now) }
{
    match row.get(0) {
        Some(word) if word == "start".as_bytes() => {
            match read_state(named.plan().place_count(), row) {
                Some(state) => Ok(state),
                None => Err(ScriptFault::BadStart),
            }
        }
        _ => Err(ScriptFault::NoStart),
    }
}

/// The state in the fields of record 0 after the first.
fn read_state(count: u8, row: &ByteRecord) -> Option<State>
    ensures { result ≡ spec.start_fields count (fields_of row.now) }
{
    if row.len() > 3 {
        return None;
    }
    let digits = row.get(1)?;
    match row.get(2) {
        Some(stamp) => start_of(count, digits, read_number(stamp)),
        None => start_of(count, digits, Some(0)),
    }
}
