//! How C reads a zone of a state's word, in what `plan header` prints.
ghost use Rattle.std.specs.Prelude.{◌≡◌, ◌≤◌, ◌-◌, ◌++◌, OnOk, flat_map, length, string_bytes};
ghost use Rattle.std.specs.List.{range_with_len};
ghost use Rattle.plan_types.specs.Table as table;
ghost use Rattle.plan_types.specs.Table.{space_of};
ghost use Rattle.plan_header.specs.Readings as spec;
ghost use Rattle.plan_header.specs.Words.{capitals, zone_name};

use crate::header::capitals_of;
use plan_text::NamedPlan;
use plan_types::{Posture, Postures, ZoneShape};
use std::alloc::{AllocError, Global};

/// What stands before the macros of zones.
const READINGS: &str = "
/* What a state's word tells of a zone: who owns it, whether a plate is in it, and its posture. */
";

/// Adds the macros of all zones.
pub(crate) fn push_readings(
    alloc: Global,
    text: &mut String,
    named: &NamedPlan,
) -> Result<(), AllocError>
    ensures { OnOk result (string_bytes text.new
        ≡ string_bytes text.old ++ spec.readings_part named.now) }
{
    text.push_str(READINGS)?;
    push_each(alloc, text, named)
}

/// Adds the macros of each zone.
fn push_each(alloc: Global, text: &mut String, named: &NamedPlan) -> Result<(), AllocError>
    ensures { OnOk result (string_bytes text.new
        ≡ string_bytes text.old ++ spec.zone_readings named.now) }
{
    'zones: for zone in 0..named.zones().len() as u8 {
        push_zone(alloc, text, named, zone)?;
    }
    Ok(())
}

/// Adds the macros of a zone.
fn push_zone(
    alloc: Global,
    text: &mut String,
    named: &NamedPlan,
    zone: u8,
) -> Result<(), AllocError>
    ensures { OnOk result (string_bytes text.new
        ≡ string_bytes text.old ++ spec.zone_reading named.now zone) }
{
    let name = capitals_of(alloc, named.zones().name(zone))?;
    let first = capitals_of(alloc, named.zones().name(named.plan().space(zone)))?;
    push_named(text, named, zone, first.as_str(), name.as_str())
}

/// Adds the macros of a zone. Its name and that of the first zone of its space are in capitals.
fn push_named(
    text: &mut String,
    named: &NamedPlan,
    zone: u8,
    first: &str,
    name: &str,
) -> Result<(), AllocError>
    requires first { first.now ≡ spec.first_name named.now zone }
    requires name { name.now ≡ capitals (zone_name named.now zone) }
    ensures { OnOk result (string_bytes text.new
        ≡ string_bytes text.old ++ spec.zone_reading named.now zone) }
{
    push_guest(text, named, zone, first, name)?;
    push_owner_of(text, named, zone, first, name)?;
    push_own(text, named, zone, name)
}

/// Adds what a zone's own bits tell. Its name is in capitals.
fn push_own(text: &mut String, named: &NamedPlan, zone: u8, name: &str) -> Result<(), AllocError>
    requires { name.now ≡ capitals (zone_name named.now zone) }
    ensures { OnOk result (string_bytes text.new
        ≡ string_bytes text.old ++ spec.own_part named.now zone) }
{
    push_shape(text, name, named.plan().zone_shape(zone))
}

/// Adds which number tells a zone's guest, if an earlier zone tells the owner of its space. Its name and that of the
/// first zone are in capitals.
fn push_guest(
    text: &mut String,
    named: &NamedPlan,
    zone: u8,
    first: &str,
    name: &str,
) -> Result<(), AllocError>
    requires first { first.now ≡ spec.first_name named.now zone }
    requires name { name.now ≡ capitals (zone_name named.now zone) }
    ensures { OnOk result (string_bytes text.new
        ≡ string_bytes text.old ++ spec.guest_part named.now zone) }
{
    if named.plan().zone(zone).joins {
        push_note(text, 2 + guest_number(named, zone), first, name)
    } else {
        Ok(())
    }
}

/// Which guest of its space a zone's guest is, from 0.
fn guest_number(named: &NamedPlan, zone: u8) -> usize
    ensures { result ≡ zone - space_of named.now.plan zone }
{
    usize::from(zone.saturating_sub(named.plan().space(zone)))
}

fn push_note(text: &mut String, number: usize, first: &str, zone: &str) -> Result<(), AllocError>
    ensures { OnOk result
        (string_bytes text.new ≡ string_bytes text.old
        ++ spec.guest_note number first.now zone.now) }
{
    write!(
        text,
        "/* {zone} is of one space with {first}, whose bits tell the owner. There this zone's guest is: */\n\
         #define PLAN_OWNER_GUEST_{zone} {number}\n"
    )
}

/// Adds who owns a zone. Its name and that of the first zone of its space are in capitals.
fn push_owner_of(
    text: &mut String,
    named: &NamedPlan,
    zone: u8,
    first: &str,
    name: &str,
) -> Result<(), AllocError>
    requires first { first.now ≡ spec.first_name named.now zone }
    requires name { name.now ≡ capitals (zone_name named.now zone) }
    ensures { OnOk result (string_bytes text.new
        ≡ string_bytes text.old ++ spec.owner_part named.now zone) }
{
    let shape = named.plan().zone_shape(named.plan().space(zone));
    push_owner(text, most_owner(shape), first, name)
}

/// The largest number that the bits of a space's owner tell.
fn most_owner(shape: ZoneShape) -> u8
    ensures { result ≡ spec.most_owner shape }
{
    match shape.guests {
        0 => 0,
        1 | 2 => 3,
        3..=6 => 7,
        _ => 15,
    }
}

/// Adds who owns a zone, by the bits of the first zone of its space.
fn push_owner(text: &mut String, most: u8, first: &str, zone: &str) -> Result<(), AllocError>
    ensures { OnOk result
        (string_bytes text.new ≡ string_bytes text.old
        ++ spec.owner_reading most first.now zone.now) }
{
    writeln!(
        text,
        "#define PLAN_OWNER_OF_{zone}(word) ((word) >> PLAN_BIT_ZONE_{first} & {most})"
    )
}

/// How many bits of a zone tell the owner of its space.
fn owner_bits(shape: ZoneShape) -> u8
    ensures bits { result ≡ table.owner_bits shape.guests }
    ensures few { result ≤ 4 }
{
    match shape.guests {
        0 => 0,
        1 | 2 => 2,
        3..=6 => 3,
        _ => 4,
    }
}

/// Adds what a zone's own bits tell, by what it has in the word. Its name is in capitals.
fn push_shape(text: &mut String, zone: &str, shape: ZoneShape) -> Result<(), AllocError>
    ensures { OnOk result (string_bytes text.new
        ≡ string_bytes text.old ++ spec.own_readings shape zone.now) }
{
    push_plate(text, zone, shape.flag, owner_bits(shape))?;
    push_posture_of(text, zone, shape)
}

/// Adds whether a plate is in a zone, by a bit that is `above` the zone's lowest by this number; never, if it has no
/// flag.
fn push_plate(text: &mut String, zone: &str, flag: bool, above: u8) -> Result<(), AllocError>
    ensures { OnOk result
        (string_bytes text.new ≡ string_bytes text.old ++ spec.plate_reading flag above zone.now) }
{
    if flag {
        writeln!(
            text,
            "#define PLAN_PLATE_IN_{zone}(word) ((word) >> (PLAN_BIT_ZONE_{zone} + {above}) & 1)"
        )
    } else {
        writeln!(text, "#define PLAN_PLATE_IN_{zone}(word) 0")
    }
}

/// Adds the posture of a zone, whose bits begin above those of its owner and its flag.
fn push_posture_of(text: &mut String, zone: &str, shape: ZoneShape) -> Result<(), AllocError>
    ensures { OnOk result (string_bytes text.new
        ≡ string_bytes text.old ++ spec.posture_of shape zone.now) }
{
    let above = owner_bits(shape) + u8::from(shape.flag);
    push_posture(text, zone, shape.postures(), above)
}

fn posture_name(posture: Posture) -> &'static str
    ensures { result.now ≡ spec.posture_name posture }
{
    match posture {
        Posture::Closed => "CLOSED",
        Posture::Moving => "MOVING",
        Posture::OpenIn => "OPENIN",
        Posture::OpenOut => "OPENOUT",
    }
}

/// Adds a zone's posture, whose bits begin `above` bits above the zone's lowest.
fn push_posture(
    text: &mut String,
    zone: &str,
    postures: Postures,
    above: u8,
) -> Result<(), AllocError>
    ensures { OnOk result
        (string_bytes text.new ≡ string_bytes text.old
        ++ spec.posture_reading postures above zone.now) }
{
    match postures {
        Postures::Shut => writeln!(
            text,
            "#define PLAN_POSTURE_OF_{zone}(word) PLAN_POSTURE_CLOSED"
        ),
        Postures::Two(other) => push_two(text, zone, posture_name(other), above),
        Postures::All => writeln!(
            text,
            "#define PLAN_POSTURE_OF_{zone}(word) ((word) >> (PLAN_BIT_ZONE_{zone} + {above}) & 3)"
        ),
    }
}

/// Adds a posture of one bit: closed, or the one of this name.
fn push_two(text: &mut String, zone: &str, other: &str, above: u8) -> Result<(), AllocError>
    ensures { OnOk result
        (string_bytes text.new ≡ string_bytes text.old
        ++ spec.two_reading other.now above zone.now) }
{
    writeln!(
        text,
        "#define PLAN_POSTURE_OF_{zone}(word) ((word) >> (PLAN_BIT_ZONE_{zone} + {above}) & 1 \
         ? PLAN_POSTURE_{other} : PLAN_POSTURE_CLOSED)"
    )
}
