//! What `plan check` prints of any plan.
ghost use Rattle.std.specs.Prelude.{◌≡◌, ◌≤◌, ◌++◌, OnOk, flat_map, length, string_bytes};
ghost use Rattle.std.specs.List.{range_with_len};
ghost use Rattle.plan_word.specs.Layout.{counts_of, start_of};
ghost use Rattle.plan_word.specs.declared.layout.Field.TheVariants.{Zone as ZoneField};
ghost use Rattle.plan_app.specs.Reports as spec;

use crate::words::ending;
use plan_text::{NamedPlan, Names};
use plan_word::{Field, Layout};
use std::alloc::AllocError;

/// Adds what `plan check` prints of any plan: a line for each kind of names, one for the width of its word, and one for
/// each field of the word.
#[tactic(auto, unfolding(crate::specs::Reports::report_text))]
pub fn push_report(text: &mut String, named: &NamedPlan) -> Result<(), AllocError>
    ensures { OnOk result (string_bytes text.new
        ≡ string_bytes text.old ++ spec.report_text named.now) }
{
    push_kinds(text, named)?;
    push_width(text, named.layout())?;
    push_fields(text, named)
}

/// Adds the names of each kind.
fn push_kinds(text: &mut String, named: &NamedPlan) -> Result<(), AllocError>
    ensures { OnOk result (string_bytes text.new
        ≡ string_bytes text.old ++ spec.kind_lines named.now) }
{
    push_names(text, "machine", named.machines())?;
    push_names(text, "zone", named.zones())?;
    push_names(text, "place", named.places())?;
    push_names(text, "pose", named.poses())
}

/// Adds how many names of a kind there are, and the names.
pub fn push_names(text: &mut String, kind: &str, names: &Names) -> Result<(), AllocError>
    ensures { OnOk result (string_bytes text.new
        ≡ string_bytes text.old ++ spec.names_line kind.now names.now) }
{
    let count = names.len();
    let ending = ending(count);
    write!(text, "{count} {kind}{ending}")?;
    push_each(text, names)?;
    text.push_str("\n")
}

/// Adds each of these names.
fn push_each(text: &mut String, names: &Names) -> Result<(), AllocError>
    ensures { OnOk result (string_bytes text.new
        ≡ string_bytes text.old ++ flat_map (spec.listed names.now)
        (range_with_len 0 (length names.now))) }
{
    'numbers: for number in 0..names.len() as u8 {
        push_listed(text, names, number)?;
    }
    Ok(())
}

/// Adds a name, after a colon if it is the first.
fn push_listed(text: &mut String, names: &Names, number: u8) -> Result<(), AllocError>
    ensures { OnOk result (string_bytes text.new
        ≡ string_bytes text.old ++ spec.listed names.now number) }
{
    text.push_str(if number == 0 { ": " } else { " " })?;
    text.push_str(names.name(number))
}

/// Adds the width of the word.
pub(crate) fn push_width(text: &mut String, layout: Layout) -> Result<(), AllocError>
    ensures { OnOk result (string_bytes text.new
        ≡ string_bytes text.old ++ spec.width_line layout) }
{
    let width = layout.width();
    writeln!(text, "a word of {width} bits")
}

/// Adds the fields of the word.
fn push_fields(text: &mut String, named: &NamedPlan) -> Result<(), AllocError>
    ensures { OnOk result (string_bytes text.new
        ≡ string_bytes text.old ++ spec.field_lines named.now) }
{
    push_zones(text, named)?;
    push_places(text, named)?;
    push_field(text, named.layout(), Field::Stamp, "stamp", "")?;
    push_field(text, named.layout(), Field::Stop, "stop", "")
}

/// Adds the fields of the zones, and what their spaces have.
fn push_zones(text: &mut String, named: &NamedPlan) -> Result<(), AllocError>
    ensures { OnOk result (string_bytes text.new ≡ string_bytes text.old
        ++ flat_map (spec.zone_lines named.now) (range_with_len 0 (length named.now.zones))) }
{
    'zones: for zone in 0..named.zones().len() as u8 {
        push_zone_lines(text, named, zone)?;
    }
    Ok(())
}

/// Adds the field of a zone, and before it what its space has, if this is its first zone.
fn push_zone_lines(text: &mut String, named: &NamedPlan, zone: u8) -> Result<(), AllocError>
    ensures { OnOk result (string_bytes text.new
        ≡ string_bytes text.old ++ spec.zone_lines named.now zone) }
{
    push_space(text, named, zone)?;
    push_zone(text, named, zone)
}

/// Adds what a space has, if it has a name of its own and this is its first zone.
fn push_space(text: &mut String, named: &NamedPlan, zone: u8) -> Result<(), AllocError>
    ensures { OnOk result (string_bytes text.new
        ≡ string_bytes text.old ++ spec.space_line named.now zone) }
{
    if begins_space(named, zone) {
        push_space_at(text, named, zone)
    } else {
        Ok(())
    }
}

/// Adds what the space of a zone has; nothing if there is no such zone.
fn push_space_at(text: &mut String, named: &NamedPlan, zone: u8) -> Result<(), AllocError>
    ensures { OnOk result (string_bytes text.new
        ≡ string_bytes text.old ++ spec.space_at named.now zone) }
{
    match named.layout().start(Field::Zone(zone)) {
        Some(first) => push_space_bits(text, named, zone, first),
        None => Ok(()),
    }
}

/// Whether a zone is the first one of a space with a name of its own.
fn begins_space(named: &NamedPlan, zone: u8) -> bool
    ensures { result ≡ spec.begins_space named.now zone }
{
    named.plan().space(zone) == zone && named.spaces().name(zone) != named.zones().name(zone)
}

/// Adds the lowest bit of a space, by its first zone, how many bits it has, and its name.
fn push_space_bits(
    text: &mut String,
    named: &NamedPlan,
    zone: u8,
    first: u8,
) -> Result<(), AllocError>
    requires { first ≡ start_of (counts_of named.now.plan) (ZoneField zone) }
    ensures { OnOk result (string_bytes text.new
        ≡ string_bytes text.old ++ spec.space_words named.now zone) }
{
    let count = space_bits(named, zone);
    let ending = ending(count);
    let name = named.spaces().name(zone);
    writeln!(text, "bit {first}, {count} bit{ending}: space {name}")
}

/// How many bits a zone's space has.
#[tactic(auto, using(plan_types::proofs::lemmas::Below::sum_below_more))]
fn space_bits(named: &NamedPlan, zone: u8) -> usize
    ensures bits { result ≡ spec.space_bits named.now.plan zone }
{
    let mut count = 0;
    for other in 0..named.plan().zone_count() {
        count += bits_near(named, zone, other);
    }
    count
}

/// How many bits another zone adds to those of a zone's space.
fn bits_near(named: &NamedPlan, zone: u8, other: u8) -> usize
    ensures bits { result ≡ spec.bits_near named.now.plan zone other }
    ensures few { result ≤ 20 }
{
    if named.plan().same_space(other, zone) {
        usize::from(named.layout().bits_of(Field::Zone(other)))
    } else {
        0
    }
}

/// Adds the field of a zone.
fn push_zone(text: &mut String, named: &NamedPlan, zone: u8) -> Result<(), AllocError>
    ensures { OnOk result (string_bytes text.new
        ≡ string_bytes text.old ++ spec.zone_line named.now zone) }
{
    let name = named.zones().name(zone);
    push_field(text, named.layout(), Field::Zone(zone), "zone ", name)
}

/// Adds the fields of the places.
fn push_places(text: &mut String, named: &NamedPlan) -> Result<(), AllocError>
    ensures { OnOk result (string_bytes text.new ≡ string_bytes text.old
        ++ flat_map (spec.place_line named.now) (range_with_len 0 (length named.now.places))) }
{
    'places: for place in 0..named.places().len() as u8 {
        push_place(text, named, place)?;
    }
    Ok(())
}

/// Adds the field of a place.
fn push_place(text: &mut String, named: &NamedPlan, place: u8) -> Result<(), AllocError>
    ensures { OnOk result (string_bytes text.new
        ≡ string_bytes text.old ++ spec.place_line named.now place) }
{
    let name = named.places().name(place);
    push_field(text, named.layout(), Field::Place(place), "place ", name)
}

/// Adds a field of the word; nothing if it has no such field.
fn push_field(
    text: &mut String,
    layout: Layout,
    field: Field,
    kind: &str,
    name: &str,
) -> Result<(), AllocError>
    ensures { OnOk result
        (string_bytes text.new ≡ string_bytes text.old
        ++ spec.field_line layout field (kind.now ++ name.now)) }
{
    match layout.start(field) {
        Some(first) => push_bits(text, layout, first, field, kind, name),
        None => Ok(()),
    }
}

/// Adds the lowest bit of a field, how many bits it has, and what it is.
fn push_bits(
    text: &mut String,
    layout: Layout,
    first: u8,
    field: Field,
    kind: &str,
    name: &str,
) -> Result<(), AllocError>
    ensures { OnOk result (string_bytes text.new
        ≡ string_bytes text.old ++ spec.bits_words layout first field (kind.now ++ name.now)) }
{
    let count = layout.bits_of(field);
    let ending = ending(usize::from(count));
    writeln!(text, "bit {first}, {count} bit{ending}: {kind}{name}")
}
