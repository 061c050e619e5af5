//! Where things stand in a picture: machines, the places and motors of each, zones and hazards.
ghost use Rattle.std.specs.Prelude.{◌≡◌, ◌≤◌, ◌<◌, length};
ghost use Rattle.plan_picture.specs.Scenes as spec;

use crate::shown::Shown;

// ---- things, and how many of all words come before

/// How many places the first words have.
#[tactic(auto, using(plan_rules::proofs::lemmas::Below::sum_below_more))]
fn places_before(shown: &Shown<'_>, limit: usize) -> usize
    requires there { limit ≤ length shown.now.words }
    requires few { limit ≤ 16 }
    ensures count { result ≡ spec.places_before shown.now limit }
    ensures few { result ≤ 256 }
{
    let mut count = 0;
    'words: for word in 0..limit {
        count += usize::from(shown.word_at(word).plan().place_count());
    }
    count
}

/// How many zones the first words have.
#[tactic(auto, using(plan_rules::proofs::lemmas::Below::sum_below_more))]
fn zones_before(shown: &Shown<'_>, limit: usize) -> usize
    requires there { limit ≤ length shown.now.words }
    requires few { limit ≤ 16 }
    ensures count { result ≡ spec.zones_before shown.now limit }
    ensures few { result ≤ 1024 }
{
    let mut count = 0;
    'words: for word in 0..limit {
        count += shown.word_at(word).zones().len();
    }
    count
}

/// How many places and motors there are.
fn thing_count(shown: &Shown<'_>) -> usize
    ensures count { result ≡ spec.thing_count shown.now }
    ensures few { result ≤ 320 }
{
    places_before(shown, shown.word_count()) + shown.motor_names().len()
}

/// A place of this word among the things.
pub(crate) fn place_thing(shown: &Shown<'_>, place: u8) -> usize
    ensures thing { result ≡ spec.place_thing shown.now place }
    ensures few { result ≤ 511 }
{
    places_before(shown, shown.word()) + usize::from(place)
}

/// A motor among the things: they come after the places.
pub(crate) fn motor_thing(shown: &Shown<'_>, motor: u8) -> usize
    ensures thing { result ≡ spec.motor_thing shown.now motor }
    ensures few { result ≤ 511 }
{
    places_before(shown, shown.word_count()) + usize::from(motor)
}

/// How many of the first things are of a machine.
#[tactic(auto, using(plan_rules::proofs::lemmas::Below::sum_below_more))]
fn owned_among_first(shown: &Shown<'_>, machine: u8, limit: usize) -> usize
    requires { limit ≤ 511 }
    ensures count { result ≡ spec.owned shown.now machine limit }
    ensures few { result ≤ 511 }
{
    let mut count = 0;
    'things: for thing in 0..limit {
        count += usize::from(shown.owner_of(thing) == machine);
    }
    count
}

/// How many things are of the machines before a machine.
#[tactic(auto, using(plan_rules::proofs::lemmas::Below::sum_below_more))]
fn owned_before(shown: &Shown<'_>, machine: u8) -> usize
    ensures count { result ≡ spec.owned_before shown.now machine }
    ensures few { result ≤ 320 }
{
    let mut count = 0;
    'things: for thing in 0..thing_count(shown) {
        count += usize::from(shown.owner_of(thing) < machine);
    }
    count
}

// ---- heights

/// The top of a machine's lane.
pub(crate) fn lane(shown: &Shown<'_>, machine: u8) -> usize
    ensures top { result ≡ spec.lane shown.now machine }
    ensures low { 230 ≤ result }
    ensures few { result ≤ 30000 }
{
    230 + 56 * usize::from(machine) + 20 * owned_before(shown, machine)
}

/// How high a machine's lane is.
pub(crate) fn lane_height(shown: &Shown<'_>, machine: u8) -> usize
    ensures { result ≡ spec.lane_height shown.now machine }
{
    42 + 20 * owned_among_first(shown, machine, thing_count(shown))
}

/// The middle of the row of a place or a motor.
pub(crate) fn row(shown: &Shown<'_>, thing: usize) -> usize
    requires { thing ≤ 511 }
    ensures middle { result ≡ spec.row shown.now thing }
    ensures few { result ≤ 50000 }
{
    let owner = shown.owner_of(thing);
    lane(shown, owner) + 44 + 20 * owned_among_first(shown, owner, thing)
}

/// The middle of the row of a place of this word.
pub(crate) fn place_row(shown: &Shown<'_>, place: u8) -> usize
    ensures middle { result ≡ spec.row shown.now (spec.place_thing shown.now place) }
    ensures few { result ≤ 50000 }
{
    row(shown, place_thing(shown, place))
}

/// The height of the arrow that comes from outside to a place.
pub(crate) fn source_line(shown: &Shown<'_>, place: u8) -> usize
    ensures { result ≡ spec.source_line shown.now (spec.place_thing shown.now place) }
{
    place_row(shown, place) - 4
}

/// The height of the arrow that goes from a place to outside.
pub(crate) fn sink_line(shown: &Shown<'_>, place: u8) -> usize
    ensures { result ≡ spec.sink_line shown.now (spec.place_thing shown.now place) }
{
    place_row(shown, place) + 4
}

// ---- columns, and the size of the whole

/// The left end of a zone's column.
pub(crate) fn zone_column(shown: &Shown<'_>, zone: u8) -> usize
    ensures left { result ≡ spec.zone_column shown.now zone }
    ensures low { 300 ≤ result }
    ensures few { result ≤ 200000 }
{
    300 + 140 * (zones_before(shown, shown.word()) + usize::from(zone))
}

/// The left end of a hazard's column: they come after the zones.
pub(crate) fn hazard_column(shown: &Shown<'_>, hazard: u8) -> usize
    ensures left { result ≡ spec.hazard_column shown.now hazard }
    ensures few { result ≤ 200000 }
{
    300 + 140 * (zones_before(shown, shown.word_count()) + usize::from(hazard))
}

/// How wide the picture is: texts at a slant reach past the last column.
pub(crate) fn width(shown: &Shown<'_>) -> usize
    ensures { result ≡ spec.width shown.now }
{
    hazard_column(shown, shown.hazard_names().len() as u8) + 230
}

/// The end of the lanes.
pub(crate) fn lanes_end(shown: &Shown<'_>) -> usize
    ensures top { result ≡ spec.lane shown.now (length shown.now.named.machines) }
    ensures low { 230 ≤ result }
    ensures few { result ≤ 30000 }
{
    lane(shown, shown.named_plan().machines().len() as u8)
}

/// How high the picture is: below the lanes stands what the marks mean.
pub(crate) fn height(shown: &Shown<'_>) -> usize
    ensures { result ≡ spec.height shown.now }
{
    lanes_end(shown) + 70
}
