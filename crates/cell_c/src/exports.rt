//! The functions that C calls. `bindings/bagunjoki.h` declares them.
ghost use Rattle.std.specs.Prelude.{◌≡◌, ◌≢◌, ◌≤◌, ◌<◌, ◌↔◌, Some, None, IsTrue, Bool, List};
ghost use Rattle.cell_types.specs.declared.machine.Machine.{Machine};
ghost use Rattle.cell_types.specs.declared.place.Place.{Place};
ghost use Rattle.cell_types.specs.declared.call.Call.{Call};
ghost use Rattle.cell_rules.specs.ModelState.{ModelState, is_full, last_stamp};
ghost use Rattle.cell_rules.specs.Sound.{IsSound};
ghost use Rattle.cell_rules.specs.Reply as rules;
ghost use Rattle.cell_rules.specs.Restamping.{restamped};
ghost use Rattle.cell_rules.specs.Start.{IsStart, start_state, places_of};
ghost use Rattle.cell_rules.specs.StartDigits.{places_in};
ghost use Rattle.cell_word.specs.Layout.{packed};
ghost use Rattle.cell_c.specs.Numbers.{IsNamed, place_number};
ghost use Rattle.cell_c.specs.Replies as replies;

use crate::calls::call_with;
use crate::numbers::{machine_with, place_with};
use crate::reply::{NO_CALL, NO_STATE, Reply, bare_reply, reply_of};
use cell_rules::start_digits::read_places;
use cell_rules::{LAST_STAMP, State};
use cell_word::{pack, stamp_of, step_word, unpack};

/// The word that no state has.
const NO_WORD: u64 = u64::MAX;

/// Makes a call on a word. If the numbers name a machine and a call, and the word is a sound
/// state's, the reply is the interlock's, with the word of the state after it. Otherwise it has the
/// word that was given.
#[unsafe(no_mangle)]
pub extern "C" fn bagunjoki_step(word: u64, machine: u8, verb: u8, object: u8) -> Reply
    ensures answered { (state : ModelState) (who : Machine) (call : Call)
        → IsSound state → packed state ≡ word → IsNamed machine verb object who call
        → result ≡ replies.reply_of (rules.reply state who call)
        (packed (rules.next state who call)) }
    ensures no_call { ((who : Machine) (call : Call) → ¬ IsNamed machine verb object who call)
        → result ≡ replies.bare_reply replies.no_call word }
    ensures no_state { (who : Machine) (call : Call) → IsNamed machine verb object who call
        → ((state : ModelState) → IsSound state → packed state ≢ word)
        → result ≡ replies.bare_reply replies.no_state word }
{
    let Some(machine) = machine_with(machine) else {
        return bare_reply(NO_CALL, word);
    };
    let Some(call) = call_with(verb, object) else {
        return bare_reply(NO_CALL, word);
    };
    match step_word(word, machine, call) {
        Some((answer, next)) => reply_of(answer, next),
        None => bare_reply(NO_STATE, word),
    }
}

/// The word of a start: ten digits, 0 or 1 for each place, and a stamp. If there is no such start,
/// the word that no state has.
#[unsafe(no_mangle)]
pub extern "C" fn bagunjoki_start(digits: &[u8], stamp: u32) -> u64
    ensures start { (flags : List Bool) → places_in digits.now ≡ Some flags
        → IsStart (places_of flags) stamp
        → result ≡ packed (start_state (places_of flags) stamp) }
    ensures no_digits { places_in digits.now ≡ None → result ≡ replies.no_word }
    ensures no_start { (flags : List Bool) → places_in digits.now ≡ Some flags
        → ¬ IsStart (places_of flags) stamp → result ≡ replies.no_word }
{
    let Some(places) = read_places(digits) else {
        return NO_WORD;
    };
    match State::start(places, stamp) {
        Ok(state) => pack(&state),
        Err(_) => NO_WORD,
    }
}

/// The word of the same state with another stamp, for an exchange before the stamps end. If the word
/// is no sound state's, or the stamp is past the last one, the word that no state has.
#[unsafe(no_mangle)]
pub extern "C" fn bagunjoki_restamp(word: u64, stamp: u32) -> u64
    ensures restamped { (state : ModelState) → IsSound state → packed state ≡ word
        → stamp ≤ last_stamp → result ≡ packed (restamped state stamp) }
    ensures past_last { last_stamp < stamp → result ≡ replies.no_word }
    ensures no_state { ((state : ModelState) → IsSound state → packed state ≢ word)
        → result ≡ replies.no_word }
{
    match unpack(word) {
        Some(state) if stamp <= LAST_STAMP => pack(&state.restamped(stamp)),
        _ => NO_WORD,
    }
}

/// Whether a word is a sound state's.
#[unsafe(no_mangle)]
pub extern "C" fn bagunjoki_is_state(word: u64) -> bool
    ensures { IsTrue result ↔ ((state : ModelState) × IsSound state × (packed state ≡ word)) }
{
    unpack(word).is_some()
}

/// The stamp of a sound state's word.
#[unsafe(no_mangle)]
pub extern "C" fn bagunjoki_stamp(word: u64) -> u32
    ensures { (state : ModelState) → IsSound state → packed state ≡ word
        → result ≡ state.stamp }
{
    stamp_of(word)
}

/// Whether the cell is stopped in a sound state's word; false for another word.
#[unsafe(no_mangle)]
pub extern "C" fn bagunjoki_is_stopped(word: u64) -> bool
    ensures { IsTrue result ↔ ((state : ModelState) × IsSound state × (packed state ≡ word)
        × IsTrue state.stopped) }
{
    match unpack(word) {
        Some(state) => state.stopped(),
        None => false,
    }
}

/// Whether a place is full in a sound state's word; false for another word or number.
#[unsafe(no_mangle)]
pub extern "C" fn bagunjoki_is_full(word: u64, place: u8) -> bool
    ensures { IsTrue result ↔ ((state : ModelState) × (at : Place) × IsSound state
        × (packed state ≡ word) × (place ≡ place_number at) × IsTrue (is_full state at)) }
{
    let Some(place) = place_with(place) else {
        return false;
    };
    match unpack(word) {
        Some(state) => state.is_full(place),
        None => false,
    }
}
