//! What `plan header` prints: a plan's names, the layout of its word, its motors' masks and its bytes, for C and C++.
ghost use Rattle.std.specs.Prelude.{◌≡◌, ◌<◌, ◌++◌, IfOk, OnOk, flat_map, length, string_bytes};
ghost use Rattle.std.specs.List.{range_with_len};
ghost use Rattle.plan_types.specs.Bytes.{bytes_of};
ghost use Rattle.plan_word.specs.Layout.{counts_of};
ghost use Rattle.plan_header.specs.Headers as spec;
ghost use Rattle.plan_header.specs.Printed as printed;
ghost use Rattle.plan_header.specs.Words as words;

use crate::lists::push_lists_part;
use crate::motors::push_motors_part;
use crate::readings::push_readings;
use crate::turns::push_turns_part;
use plan_document::ProgrammedPlan;
use plan_text::{NamedPlan, Names};
use plan_types::{Plan, write_plan};
use plan_word::{Field, Layout};
use std::alloc::{AllocError, Global};

/// How the header begins.
const BEGIN: &str = "\
/* A plan's names and the layout of its word, as `plan header` prints them. The word of a state has the fields below,
   from the lowest bit: the zones, the places, the stamp and the stop. A zone's bits are, from the lowest, two for its
   owner, one for its flag (a plate is in it) if a plate has a way through it, and for its posture two; or one, 0 for
   closed, if poses give it one other posture; or none, if it is always closed. The zones of one space have one owner:
   its bits, two to four, stand in the first of them, and a comment on each other zone names that one. */
#ifndef PLAN_H
#define PLAN_H

#include <stdint.h>

/* Machines. The watch is none of them. */
";

/// What stands before the numbers of zones.
const ZONES: &str = "\
#define PLAN_WATCH 30

/* Zones. */
";

/// What stands before the numbers of places.
const PLACES: &str = "\n/* Places. */\n";

/// What stands before the numbers of poses.
const POSES: &str = "\n/* Poses, by machine and name. */\n";

/// What stands before the parties of zones.
const PARTIES: &str = "\n/* Who hosts a zone, who is its guest, and who keeps a place. */\n";

/// What each plan has.
const CODES: &str = "
/* Who owns a zone, and its posture. */
enum plan_owner { PLAN_OWNER_FREE = 0, PLAN_OWNER_HOST = 1, PLAN_OWNER_GUEST = 2 };
enum plan_posture {
    PLAN_POSTURE_CLOSED = 0,
    PLAN_POSTURE_MOVING = 1,
    PLAN_POSTURE_OPENIN = 2,
    PLAN_POSTURE_OPENOUT = 3
};

/* The lowest bit of each field, and how many bits a field has. */
";

/// How many bits the fields of each plan have; its zones have their own.
const BITS: &str = "\
#define PLAN_BITS_PLACE 1
#define PLAN_BITS_STAMP 20
#define PLAN_BITS_STOP 1
";

/// What stands before the bytes of the plan.
const BYTES: &str =
    "\n/* The plan, for bagunjoki_plan.h. */\nstatic const uint8_t PLAN_BYTES[] = {";

/// How the header ends.
const END: &str = "\n};\n\n#endif\n";

/// What `plan header` prints of a plan: its names' numbers, the parties of its zones, its word's fields, the masks of
/// its motors, its names as texts, the bits of its sensors, its programs and its bytes.
pub fn header_of(alloc: Global, plan: &ProgrammedPlan) -> Result<String, AllocError>
    ensures { IfOk result (λ text. string_bytes text ≡ printed.header_of plan.now) }
{
    let mut text = String::new(alloc);
    match push_header(alloc, &mut text, plan) {
        Ok(()) => Ok(text),
        Err(error) => Err(error),
    }
}

#[tactic(auto, unfolding(crate::specs::Printed::header_text))]
fn push_header(alloc: Global, text: &mut String, plan: &ProgrammedPlan) -> Result<(), AllocError>
    ensures { OnOk result
        (string_bytes text.new ≡ string_bytes text.old ++ printed.header_of plan.now) }
{
    push_names_part(alloc, text, &plan.named)?;
    push_parties_part(alloc, text, &plan.named)?;
    push_word_part(alloc, text, &plan.named)?;
    push_motors_part(alloc, text, &plan.named, &plan.motors)?;
    push_lists_part(text, &plan.named, &plan.motors)?;
    push_turns_part(alloc, text, plan)?;
    push_bytes_part(alloc, text, &plan.named)
}

/// A text in capitals.
pub(crate) fn capitals_of(alloc: Global, text: &str) -> Result<String, AllocError>
    ensures { IfOk result (λ capitals. string_bytes capitals ≡ words.capitals text.now) }
{
    text.to_ascii_uppercase(alloc)
}

/// Adds a definition: a name in capitals, and its number.
pub(crate) fn push_define(
    alloc: Global,
    text: &mut String,
    name: &str,
    number: usize,
) -> Result<(), AllocError>
    ensures { OnOk result (string_bytes text.new
        ≡ string_bytes text.old ++ spec.define_line name.now number) }
{
    let capitals = capitals_of(alloc, name)?;
    push_defined(text, capitals.as_str(), number)
}

/// Adds a definition of a name that is in capitals.
fn push_defined(text: &mut String, capitals: &str, number: usize) -> Result<(), AllocError>
    ensures { OnOk result (string_bytes text.new
        ≡ string_bytes text.old ++ spec.defined capitals.now number) }
{
    writeln!(text, "#define PLAN_{capitals} {number}")
}

// ---- the numbers of names

/// Adds the numbers of machines, zones and places.
fn push_names_part(alloc: Global, text: &mut String, named: &NamedPlan) -> Result<(), AllocError>
    ensures { OnOk result (string_bytes text.new
        ≡ string_bytes text.old ++ spec.names_part named.now) }
{
    push_machines(alloc, text, named)?;
    push_zone_numbers(alloc, text, named)?;
    push_places(alloc, text, named)
}

/// Adds how the header begins, and the numbers of machines.
fn push_machines(alloc: Global, text: &mut String, named: &NamedPlan) -> Result<(), AllocError>
    ensures { OnOk result (string_bytes text.new
        ≡ string_bytes text.old ++ spec.machines_part named.now) }
{
    push_titled(alloc, text, BEGIN, "machine", named.machines())
}

/// Adds the numbers of zones.
fn push_zone_numbers(alloc: Global, text: &mut String, named: &NamedPlan) -> Result<(), AllocError>
    ensures { OnOk result (string_bytes text.new
        ≡ string_bytes text.old ++ spec.zones_part named.now) }
{
    push_titled(alloc, text, ZONES, "zone", named.zones())
}

/// Adds the numbers of places.
fn push_places(alloc: Global, text: &mut String, named: &NamedPlan) -> Result<(), AllocError>
    ensures { OnOk result (string_bytes text.new
        ≡ string_bytes text.old ++ spec.places_part named.now) }
{
    push_titled(alloc, text, PLACES, "place", named.places())
}

/// Adds a title, and the numbers of a kind.
fn push_titled(
    alloc: Global,
    text: &mut String,
    title: &str,
    kind: &str,
    names: &Names,
) -> Result<(), AllocError>
    ensures { OnOk result
        (string_bytes text.new ≡ string_bytes text.old
        ++ spec.titled title.now kind.now names.now) }
{
    text.push_str(title)?;
    push_numbers(alloc, text, kind, names)
}

/// Adds the number of each name of a kind, and how many there are.
pub(crate) fn push_numbers(
    alloc: Global,
    text: &mut String,
    kind: &str,
    names: &Names,
) -> Result<(), AllocError>
    ensures { OnOk result
        (string_bytes text.new ≡ string_bytes text.old ++ spec.number_lines kind.now names.now) }
{
    push_each(alloc, text, kind, names)?;
    let all = format!(in alloc; "{kind}s")?;
    push_define(alloc, text, all.as_str(), names.len())
}

/// Adds the number of each name of a kind.
fn push_each(alloc: Global, text: &mut String, kind: &str, names: &Names) -> Result<(), AllocError>
    ensures { OnOk result (string_bytes text.new ≡ string_bytes text.old
        ++ flat_map (spec.number_line kind.now names.now) (range_with_len 0 (length names.now))) }
{
    'numbers: for number in 0..names.len() as u8 {
        push_number(alloc, text, kind, names, number)?;
    }
    Ok(())
}

/// Adds the number of a name.
fn push_number(
    alloc: Global,
    text: &mut String,
    kind: &str,
    names: &Names,
    number: u8,
) -> Result<(), AllocError>
    ensures { OnOk result
        (string_bytes text.new ≡ string_bytes text.old
        ++ spec.number_line kind.now names.now number) }
{
    let name = names.name(number);
    let word = format!(in alloc; "{kind}_{name}")?;
    push_define(alloc, text, word.as_str(), usize::from(number))
}

// ---- the numbers of poses, and the parties

/// Adds the numbers of poses, and the parties of zones and places.
fn push_parties_part(alloc: Global, text: &mut String, named: &NamedPlan) -> Result<(), AllocError>
    ensures { OnOk result (string_bytes text.new
        ≡ string_bytes text.old ++ spec.parties_part named.now) }
{
    text.push_str(POSES)?;
    push_poses(alloc, text, named)?;
    text.push_str(PARTIES)?;
    push_parties(alloc, text, named)
}

/// Adds the number of each pose, and how many there are.
fn push_poses(alloc: Global, text: &mut String, named: &NamedPlan) -> Result<(), AllocError>
    ensures { OnOk result (string_bytes text.new
        ≡ string_bytes text.old ++ spec.pose_lines named.now) }
{
    push_each_pose(alloc, text, named)?;
    push_define(alloc, text, "poses", named.poses().len())
}

/// Adds the number of each pose.
fn push_each_pose(alloc: Global, text: &mut String, named: &NamedPlan) -> Result<(), AllocError>
    ensures { OnOk result (string_bytes text.new ≡ string_bytes text.old
        ++ flat_map (spec.pose_line named.now) (range_with_len 0 (length named.now.poses))) }
{
    'poses: for pose in 0..named.poses().len() as u8 {
        push_pose(alloc, text, named, pose)?;
    }
    Ok(())
}

/// Adds the number of a pose.
fn push_pose(
    alloc: Global,
    text: &mut String,
    named: &NamedPlan,
    pose: u8,
) -> Result<(), AllocError>
    ensures { OnOk result (string_bytes text.new
        ≡ string_bytes text.old ++ spec.pose_line named.now pose) }
{
    let machine = named.machines().name(named.plan().pose(pose).machine);
    let name = named.poses().name(pose);
    let word = format!(in alloc; "pose_{machine}_{name}")?;
    push_define(alloc, text, word.as_str(), usize::from(pose))
}

/// Adds who hosts each zone, who is its guest, and who keeps each place.
fn push_parties(alloc: Global, text: &mut String, named: &NamedPlan) -> Result<(), AllocError>
    ensures { OnOk result (string_bytes text.new
        ≡ string_bytes text.old ++ spec.party_lines named.now) }
{
    push_zones(alloc, text, named)?;
    push_keepers(alloc, text, named)
}

/// Adds who hosts each zone, and who is its guest.
fn push_zones(alloc: Global, text: &mut String, named: &NamedPlan) -> Result<(), AllocError>
    ensures { OnOk result (string_bytes text.new ≡ string_bytes text.old
        ++ flat_map (spec.zone_parties named.now) (range_with_len 0 (length named.now.zones))) }
{
    'zones: for zone in 0..named.zones().len() as u8 {
        push_zone(alloc, text, named, zone)?;
    }
    Ok(())
}

/// Adds who hosts a zone, and who is its guest.
fn push_zone(
    alloc: Global,
    text: &mut String,
    named: &NamedPlan,
    zone: u8,
) -> Result<(), AllocError>
    ensures { OnOk result (string_bytes text.new
        ≡ string_bytes text.old ++ spec.zone_parties named.now zone) }
{
    let row = named.plan().zone(zone);
    let name = named.zones().name(zone);
    push_party(alloc, text, named, "host_of_", name, row.host)?;
    push_party(alloc, text, named, "guest_of_", name, row.guest)
}

/// Adds who keeps each place.
fn push_keepers(alloc: Global, text: &mut String, named: &NamedPlan) -> Result<(), AllocError>
    ensures { OnOk result (string_bytes text.new ≡ string_bytes text.old
        ++ flat_map (spec.keeper_line named.now) (range_with_len 0 (length named.now.places))) }
{
    'places: for place in 0..named.places().len() as u8 {
        push_keeper(alloc, text, named, place)?;
    }
    Ok(())
}

/// Adds who keeps a place.
fn push_keeper(
    alloc: Global,
    text: &mut String,
    named: &NamedPlan,
    place: u8,
) -> Result<(), AllocError>
    ensures { OnOk result (string_bytes text.new
        ≡ string_bytes text.old ++ spec.keeper_line named.now place) }
{
    let keeper = named.plan().keeper(place);
    push_party(
        alloc,
        text,
        named,
        "keeper_of_",
        named.places().name(place),
        keeper,
    )
}

/// Adds who a machine is to a zone or to a place.
fn push_party(
    alloc: Global,
    text: &mut String,
    named: &NamedPlan,
    role: &str,
    thing: &str,
    machine: u8,
) -> Result<(), AllocError>
    ensures { OnOk result (string_bytes text.new
        ≡ string_bytes text.old ++ spec.party_line named.now role.now thing.now machine) }
{
    let word = format!(in alloc; "{role}{thing}")?;
    push_role(alloc, text, word.as_str(), named.machines().name(machine))
}

/// Adds that a machine has a role.
fn push_role(alloc: Global, text: &mut String, role: &str, machine: &str) -> Result<(), AllocError>
    ensures { OnOk result
        (string_bytes text.new ≡ string_bytes text.old ++ spec.role_line role.now machine.now) }
{
    let role = capitals_of(alloc, role)?;
    push_role_of(alloc, text, role.as_str(), machine)
}

/// Adds that a machine has a role that is in capitals.
fn push_role_of(
    alloc: Global,
    text: &mut String,
    role: &str,
    machine: &str,
) -> Result<(), AllocError>
    ensures { OnOk result
        (string_bytes text.new ≡ string_bytes text.old
        ++ spec.role_of role.now (words.capitals machine.now)) }
{
    let machine = capitals_of(alloc, machine)?;
    push_role_words(text, role, machine.as_str())
}

/// Adds a role and a machine that are in capitals.
fn push_role_words(text: &mut String, role: &str, machine: &str) -> Result<(), AllocError>
    ensures { OnOk result (string_bytes text.new
        ≡ string_bytes text.old ++ spec.role_of role.now machine.now) }
{
    writeln!(text, "#define PLAN_{role} PLAN_MACHINE_{machine}")
}

// ---- the layout of the word

/// Adds the fields of the word.
fn push_word_part(alloc: Global, text: &mut String, named: &NamedPlan) -> Result<(), AllocError>
    ensures { OnOk result (string_bytes text.new
        ≡ string_bytes text.old ++ spec.word_part named.now) }
{
    push_fields_part(alloc, text, named)?;
    push_sizes_part(alloc, text, named)?;
    push_readings(alloc, text, named)
}

/// Adds the lowest bit of each field.
fn push_fields_part(alloc: Global, text: &mut String, named: &NamedPlan) -> Result<(), AllocError>
    ensures { OnOk result (string_bytes text.new
        ≡ string_bytes text.old ++ spec.fields_part named.now) }
{
    text.push_str(CODES)?;
    push_bits(alloc, text, named)
}

/// Adds how many bits fields have.
fn push_sizes_part(alloc: Global, text: &mut String, named: &NamedPlan) -> Result<(), AllocError>
    ensures { OnOk result (string_bytes text.new
        ≡ string_bytes text.old ++ spec.sizes_part named.now) }
{
    push_zone_sizes(alloc, text, named)?;
    text.push_str(BITS)?;
    push_width(alloc, text, named)
}

/// Adds how many bits each zone has.
fn push_zone_sizes(alloc: Global, text: &mut String, named: &NamedPlan) -> Result<(), AllocError>
    ensures { OnOk result (string_bytes text.new
        ≡ string_bytes text.old ++ spec.zone_sizes named.now) }
{
    'zones: for zone in 0..named.zones().len() as u8 {
        push_zone_size(alloc, text, named, zone)?;
    }
    Ok(())
}

/// Adds how many bits a zone has.
fn push_zone_size(
    alloc: Global,
    text: &mut String,
    named: &NamedPlan,
    zone: u8,
) -> Result<(), AllocError>
    ensures { OnOk result (string_bytes text.new
        ≡ string_bytes text.old ++ spec.zone_size named.now zone) }
{
    let name = named.zones().name(zone);
    let layout = named.layout();
    push_size(alloc, text, layout, Field::Zone(zone), "bits_zone_", name)
}

/// Adds how many bits a field has.
fn push_size(
    alloc: Global,
    text: &mut String,
    layout: Layout,
    field: Field,
    kind: &str,
    name: &str,
) -> Result<(), AllocError>
    ensures { OnOk result
        (string_bytes text.new ≡ string_bytes text.old
        ++ spec.size_line layout field (kind.now ++ name.now)) }
{
    let word = format!(in alloc; "{kind}{name}")?;
    push_define(
        alloc,
        text,
        word.as_str(),
        usize::from(layout.bits_of(field)),
    )
}

/// Adds how many bits the word has.
fn push_width(alloc: Global, text: &mut String, named: &NamedPlan) -> Result<(), AllocError>
    ensures { OnOk result (string_bytes text.new
        ≡ string_bytes text.old ++ spec.width_line named.now) }
{
    push_define(alloc, text, "bits", usize::from(named.layout().width()))
}

/// Adds the lowest bit of each field.
fn push_bits(alloc: Global, text: &mut String, named: &NamedPlan) -> Result<(), AllocError>
    ensures { OnOk result (string_bytes text.new
        ≡ string_bytes text.old ++ spec.bit_lines named.now) }
{
    push_zone_bits(alloc, text, named)?;
    push_place_bits(alloc, text, named)?;
    push_last_bits(alloc, text, named)
}

/// Adds the lowest bit of the stamp, and the stop's.
fn push_last_bits(alloc: Global, text: &mut String, named: &NamedPlan) -> Result<(), AllocError>
    ensures { OnOk result (string_bytes text.new
        ≡ string_bytes text.old ++ spec.last_bits named.now) }
{
    push_bit(alloc, text, named.layout(), Field::Stamp, "bit_stamp", "")?;
    push_bit(alloc, text, named.layout(), Field::Stop, "bit_stop", "")
}

/// Adds the lowest bit of each zone.
fn push_zone_bits(alloc: Global, text: &mut String, named: &NamedPlan) -> Result<(), AllocError>
    ensures { OnOk result (string_bytes text.new ≡ string_bytes text.old
        ++ flat_map (spec.zone_bit named.now) (range_with_len 0 (length named.now.zones))) }
{
    'zones: for zone in 0..named.zones().len() as u8 {
        push_zone_bit(alloc, text, named, zone)?;
    }
    Ok(())
}

/// Adds the lowest bit of a zone.
fn push_zone_bit(
    alloc: Global,
    text: &mut String,
    named: &NamedPlan,
    zone: u8,
) -> Result<(), AllocError>
    ensures { OnOk result (string_bytes text.new
        ≡ string_bytes text.old ++ spec.zone_bit named.now zone) }
{
    let name = named.zones().name(zone);
    push_bit(
        alloc,
        text,
        named.layout(),
        Field::Zone(zone),
        "bit_zone_",
        name,
    )
}

/// Adds the bit of each place.
fn push_place_bits(alloc: Global, text: &mut String, named: &NamedPlan) -> Result<(), AllocError>
    ensures { OnOk result (string_bytes text.new ≡ string_bytes text.old
        ++ flat_map (spec.place_bit named.now) (range_with_len 0 (length named.now.places))) }
{
    'places: for place in 0..named.places().len() as u8 {
        push_place_bit(alloc, text, named, place)?;
    }
    Ok(())
}

/// Adds the bit of a place.
fn push_place_bit(
    alloc: Global,
    text: &mut String,
    named: &NamedPlan,
    place: u8,
) -> Result<(), AllocError>
    ensures { OnOk result (string_bytes text.new
        ≡ string_bytes text.old ++ spec.place_bit named.now place) }
{
    let name = named.places().name(place);
    push_bit(
        alloc,
        text,
        named.layout(),
        Field::Place(place),
        "bit_place_",
        name,
    )
}

/// Adds the lowest bit of a field; nothing if the word has no such field.
fn push_bit(
    alloc: Global,
    text: &mut String,
    layout: Layout,
    field: Field,
    kind: &str,
    name: &str,
) -> Result<(), AllocError>
    ensures { OnOk result
        (string_bytes text.new ≡ string_bytes text.old
        ++ spec.bit_line layout field (kind.now ++ name.now)) }
{
    let word = format!(in alloc; "{kind}{name}")?;
    match layout.start(field) {
        Some(first) => push_define(alloc, text, word.as_str(), usize::from(first)),
        None => Ok(()),
    }
}

// ---- the plan as bytes

/// Adds the plan as bytes, for the functions of `bindings/bagunjoki_plan.h`: eight in a line.
fn push_bytes_part(alloc: Global, text: &mut String, named: &NamedPlan) -> Result<(), AllocError>
    ensures { OnOk result (string_bytes text.new
        ≡ string_bytes text.old ++ spec.bytes_part named.now) }
{
    let bytes = bytes_in(alloc, named.plan())?;
    push_table(text, bytes.as_slice())
}

/// The bytes of a plan.
pub(crate) fn bytes_in(alloc: Global, plan: &Plan) -> Result<Vec<u8>, AllocError>
    ensures { IfOk result (λ bytes. bytes.items ≡ bytes_of plan.now) }
{
    write_plan(alloc, plan)
}

/// Adds a table of these bytes.
fn push_table(text: &mut String, bytes: &[u8]) -> Result<(), AllocError>
    ensures { OnOk result (string_bytes text.new
        ≡ string_bytes text.old ++ spec.table_text bytes.now) }
{
    text.push_str(BYTES)?;
    push_bytes(text, bytes)?;
    text.push_str(END)
}

/// Adds these bytes.
pub(crate) fn push_bytes(text: &mut String, bytes: &[u8]) -> Result<(), AllocError>
    ensures { OnOk result (string_bytes text.new
        ≡ string_bytes text.old ++ spec.byte_words bytes.now) }
{
    'bytes: for at in 0..bytes.len() {
        push_byte(text, bytes, at)?;
    }
    Ok(())
}

/// Adds a byte, after a line feed before the first of each eight.
fn push_byte(text: &mut String, bytes: &[u8], at: usize) -> Result<(), AllocError>
    requires { at < length bytes.now }
    ensures { OnOk result (string_bytes text.new
        ≡ string_bytes text.old ++ spec.byte_word bytes.now at) }
{
    let byte = bytes[at];
    text.push_str(if at % 8 == 0 { "\n    " } else { " " })?;
    write!(text, "{byte},")
}
