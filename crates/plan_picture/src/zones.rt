//! The zones of a picture, word by word: hosts, guests, ways of plates, and spaces.
ghost use Rattle.std.specs.Prelude.{◌≡◌, ◌++◌, ◌||◌, OnOk, flat_map, length, string_bytes};
ghost use Rattle.std.specs.List.{range_with_len};
ghost use Rattle.plan_picture.specs.Pictures as spec;

use crate::elements::{
    Spot, push_box, push_circle, push_label, push_level, push_sized_slope, push_slanted,
    push_upright,
};
use crate::positions::{lane, lanes_end, place_row, zone_column};
use crate::shown::Shown;
use plan_types::{PlanZone, Way};
use std::alloc::AllocError;

/// Adds the zones of each word.
pub(crate) fn push_words(text: &mut String, shown: &Shown<'_>) -> Result<(), AllocError>
    ensures { OnOk result (string_bytes text.new
        ≡ string_bytes text.old ++ spec.each_word spec.word_part shown.now) }
{
    'words: for word in 0..shown.word_count() {
        push_word(text, &shown.on_word(word))?;
    }
    Ok(())
}

/// Adds a word: a line before its columns, and its zones.
fn push_word(text: &mut String, shown: &Shown<'_>) -> Result<(), AllocError>
    ensures { OnOk result (string_bytes text.new
        ≡ string_bytes text.old ++ spec.word_part shown.now) }
{
    push_word_line(text, shown)?;
    push_zones(text, shown)
}

/// Adds a line before the columns of a word, in the picture of a plant.
fn push_word_line(text: &mut String, shown: &Shown<'_>) -> Result<(), AllocError>
    ensures { OnOk result (string_bytes text.new
        ≡ string_bytes text.old ++ spec.word_line shown.now) }
{
    if shown.says_word() {
        let x = zone_column(shown, 0) - 8;
        push_upright(text, "word", x, 226, lanes_end(shown) - 10)
    } else {
        Ok(())
    }
}

/// Adds each zone.
fn push_zones(text: &mut String, shown: &Shown<'_>) -> Result<(), AllocError>
    ensures { OnOk result (string_bytes text.new
        ≡ string_bytes text.old ++ spec.zones_part shown.now) }
{
    'zones: for zone in 0..shown.named_plan().zones().len() as u8 {
        push_zone(text, shown, zone)?;
    }
    Ok(())
}

/// Adds a zone: its name, its host and its guest, the ways of plates, the places at their ends, its space, and its
/// word.
fn push_zone(text: &mut String, shown: &Shown<'_>, zone: u8) -> Result<(), AllocError>
    ensures { OnOk result
        (string_bytes text.new ≡ string_bytes text.old ++ spec.zone_part shown.now zone) }
{
    push_zone_title(text, shown, zone)?;
    push_parties(text, shown, zone)?;
    push_ways(text, shown, zone)?;
    push_ends(text, shown, zone)?;
    push_over(text, shown, zone)
}

/// Adds a zone's space, and its word.
fn push_over(text: &mut String, shown: &Shown<'_>, zone: u8) -> Result<(), AllocError>
    ensures { OnOk result (string_bytes text.new ≡ string_bytes text.old
        ++ (spec.space_part shown.now zone ++ spec.word_title shown.now zone)) }
{
    push_space(text, shown, zone)?;
    push_word_title(text, shown, zone)
}

/// Adds the number of a zone's word, in the picture of a plant.
fn push_word_title(text: &mut String, shown: &Shown<'_>, zone: u8) -> Result<(), AllocError>
    ensures { OnOk result
        (string_bytes text.new ≡ string_bytes text.old ++ spec.word_title shown.now zone) }
{
    if shown.says_word() {
        push_word_number(text, shown, zone)
    } else {
        Ok(())
    }
}

/// Adds the number of a zone's word.
fn push_word_number(text: &mut String, shown: &Shown<'_>, zone: u8) -> Result<(), AllocError>
    ensures { OnOk result
        (string_bytes text.new ≡ string_bytes text.old ++ spec.word_number shown.now zone) }
{
    push_sized_slope(text, "word", zone_column(shown, zone) + 58, 220, 13)?;
    push_word_words(text, shown.word())
}

/// Adds the number of a word, and the end of the element.
fn push_word_words(text: &mut String, word: usize) -> Result<(), AllocError>
    ensures { OnOk result (string_bytes text.new
        ≡ string_bytes text.old ++ spec.word_words word) }
{
    write!(text, "word {word}</text>\n")
}

/// Adds a zone's name.
fn push_zone_title(text: &mut String, shown: &Shown<'_>, zone: u8) -> Result<(), AllocError>
    ensures { OnOk result
        (string_bytes text.new ≡ string_bytes text.old ++ spec.zone_title shown.now zone) }
{
    let spot = Spot {
        x: zone_column(shown, zone) + 10,
        y: 220,
        most: 15,
        width: 280,
    };
    push_slanted(text, "zone", spot, shown.named_plan().zones().name(zone))
}

/// Adds the host and the guest of a zone, and a line between them.
fn push_parties(text: &mut String, shown: &Shown<'_>, zone: u8) -> Result<(), AllocError>
    ensures { OnOk result
        (string_bytes text.new ≡ string_bytes text.old ++ spec.parties_part shown.now zone) }
{
    let host = shown.named_plan().plan().host(zone);
    push_parties_by(
        text,
        shown,
        zone,
        host,
        shown.named_plan().plan().guest(zone),
    )
}

/// Adds these as the host and the guest of a zone.
fn push_parties_by(
    text: &mut String,
    shown: &Shown<'_>,
    zone: u8,
    host: u8,
    guest: u8,
) -> Result<(), AllocError>
    ensures { OnOk result (string_bytes text.new
        ≡ string_bytes text.old ++ spec.parties_by shown.now zone host guest) }
{
    push_zone_line(text, shown, zone, host, guest)?;
    push_host(text, shown, zone, host)?;
    push_guest(text, shown, zone, guest)
}

/// Adds a line from the lane of a host to that of a guest.
fn push_zone_line(
    text: &mut String,
    shown: &Shown<'_>,
    zone: u8,
    host: u8,
    guest: u8,
) -> Result<(), AllocError>
    ensures { OnOk result (string_bytes text.new
        ≡ string_bytes text.old ++ spec.zone_line shown.now zone host guest) }
{
    let x = zone_column(shown, zone) + 10;
    push_upright(
        text,
        "zone",
        x,
        lane(shown, host) + 18,
        lane(shown, guest) + 18,
    )
}

/// Adds the mark of a zone's host.
fn push_host(text: &mut String, shown: &Shown<'_>, zone: u8, host: u8) -> Result<(), AllocError>
    ensures { OnOk result
        (string_bytes text.new ≡ string_bytes text.old
        ++ spec.host_part shown.now zone host) }
{
    push_box(
        text,
        "host",
        zone_column(shown, zone) + 3,
        lane(shown, host) + 11,
        14,
        14,
    )?;
    push_party(text, shown, zone, host)
}

/// Adds the mark of a zone's guest.
fn push_guest(text: &mut String, shown: &Shown<'_>, zone: u8, guest: u8) -> Result<(), AllocError>
    ensures { OnOk result
        (string_bytes text.new ≡ string_bytes text.old
        ++ spec.guest_part shown.now zone guest) }
{
    push_circle(
        text,
        "guest",
        zone_column(shown, zone) + 10,
        lane(shown, guest) + 18,
        7,
    )?;
    push_party(text, shown, zone, guest)
}

/// Adds the name of a machine by its mark.
fn push_party(text: &mut String, shown: &Shown<'_>, zone: u8, machine: u8) -> Result<(), AllocError>
    ensures { OnOk result
        (string_bytes text.new ≡ string_bytes text.old
        ++ spec.party_label shown.now zone machine) }
{
    let spot = Spot {
        x: zone_column(shown, zone) + 52,
        y: lane(shown, machine) + 22,
        most: 13,
        width: 82,
    };
    push_label(
        text,
        "party",
        spot,
        shown.named_plan().machines().name(machine),
    )
}

/// Adds the ways of plates through a zone.
fn push_ways(text: &mut String, shown: &Shown<'_>, zone: u8) -> Result<(), AllocError>
    ensures { OnOk result
        (string_bytes text.new ≡ string_bytes text.old ++ spec.ways_part shown.now zone) }
{
    let row = shown.named_plan().plan().zone(zone);
    push_way(text, shown, zone_column(shown, zone) + 28, row.inward)?;
    push_way(text, shown, zone_column(shown, zone) + 42, row.outward)
}

/// Adds an arrow from place to place.
fn push_way(
    text: &mut String,
    shown: &Shown<'_>,
    x: usize,
    way: Option<Way>,
) -> Result<(), AllocError>
    ensures { OnOk result (string_bytes text.new
        ≡ string_bytes text.old ++ spec.way_part shown.now x way) }
{
    match way {
        None => Ok(()),
        Some(Way { from, to }) => {
            let from = place_row(shown, from);
            push_upright(text, "way", x, from, place_row(shown, to))
        }
    }
}

/// Adds the names of the places at the ends of a zone's ways.
fn push_ends(text: &mut String, shown: &Shown<'_>, zone: u8) -> Result<(), AllocError>
    ensures { OnOk result
        (string_bytes text.new ≡ string_bytes text.old ++ spec.ends_part shown.now zone) }
{
    'places: for place in 0..shown.named_plan().places().len() as u8 {
        push_end(text, shown, zone, place)?;
    }
    Ok(())
}

/// Adds the name of a place, if a way of the zone begins or ends there.
fn push_end(text: &mut String, shown: &Shown<'_>, zone: u8, place: u8) -> Result<(), AllocError>
    ensures { OnOk result
        (string_bytes text.new ≡ string_bytes text.old
        ++ spec.end_part shown.now zone place) }
{
    if is_on_way(shown.named_plan().plan().zone(zone), place) {
        push_end_label(text, shown, zone, place)
    } else {
        Ok(())
    }
}

/// Whether a way of a zone begins or ends at a place.
fn is_on_way(zone: PlanZone, place: u8) -> bool
    ensures { result ≡ (spec.is_end zone.inward place || spec.is_end zone.outward place) }
{
    is_end(zone.inward, place) || is_end(zone.outward, place)
}

/// Whether a way begins or ends at a place.
fn is_end(way: Option<Way>, place: u8) -> bool
    ensures { result ≡ spec.is_end way place }
{
    match way {
        None => false,
        Some(Way { from, to }) => from == place || to == place,
    }
}

/// Adds the name of a place by its end of a way.
fn push_end_label(
    text: &mut String,
    shown: &Shown<'_>,
    zone: u8,
    place: u8,
) -> Result<(), AllocError>
    ensures { OnOk result
        (string_bytes text.new ≡ string_bytes text.old
        ++ spec.end_label shown.now zone place) }
{
    let spot = Spot {
        x: zone_column(shown, zone) + 52,
        y: place_row(shown, place) + 4,
        most: 13,
        width: 82,
    };
    push_label(text, "end", spot, shown.named_plan().places().name(place))
}

/// Adds the space of a zone, if that has another name: the name, and a line from the host's mark at the zone before to
/// the one here, if both are of one space.
fn push_space(text: &mut String, shown: &Shown<'_>, zone: u8) -> Result<(), AllocError>
    ensures { OnOk result
        (string_bytes text.new ≡ string_bytes text.old ++ spec.space_part shown.now zone) }
{
    push_space_title(text, shown, zone)?;
    push_space_line(text, shown, zone)
}

/// Adds the name of a zone's space, if that is another one than the zone's.
fn push_space_title(text: &mut String, shown: &Shown<'_>, zone: u8) -> Result<(), AllocError>
    ensures { OnOk result
        (string_bytes text.new ≡ string_bytes text.old ++ spec.space_title shown.now zone) }
{
    let space = shown.named_plan().spaces().name(zone);
    if space == shown.named_plan().zones().name(zone) {
        Ok(())
    } else {
        push_space_name(text, shown, zone, space)
    }
}

/// Adds the name of the space of a zone.
fn push_space_name(
    text: &mut String,
    shown: &Shown<'_>,
    zone: u8,
    space: &str,
) -> Result<(), AllocError>
    ensures { OnOk result
        (string_bytes text.new ≡ string_bytes text.old
        ++ spec.space_name_part shown.now zone space.now) }
{
    let spot = Spot {
        x: zone_column(shown, zone) + 34,
        y: 220,
        most: 13,
        width: 280,
    };
    push_slanted(text, "space", spot, space)
}

/// Adds a line to the host's mark from the one at the zone before, if both zones are of one space.
fn push_space_line(text: &mut String, shown: &Shown<'_>, zone: u8) -> Result<(), AllocError>
    ensures { OnOk result
        (string_bytes text.new ≡ string_bytes text.old ++ spec.space_line shown.now zone) }
{
    let row = shown.named_plan().plan().zone(zone);
    if row.joins {
        let column = zone_column(shown, zone);
        let y = lane(shown, row.host) + 11;
        push_level(text, "zone", y, column - 123, column + 3)
    } else {
        Ok(())
    }
}
