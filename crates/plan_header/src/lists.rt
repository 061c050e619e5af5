//! The names of each kind as texts in what `plan header` prints, for a panel or a log.
ghost use Rattle.std.specs.Prelude.{◌≡◌, ◌++◌, OnOk, flat_map, length, string_bytes};
ghost use Rattle.std.specs.List.{range_with_len};
ghost use Rattle.plan_header.specs.Turns as spec;

use plan_document::NamedMotors;
use plan_text::{NamedPlan, Names};
use std::alloc::AllocError;

/// What stands before the names.
const NAMES: &str =
    "\n/* The names of each kind, by their numbers. A null comes after the last. */\n";

/// Adds the names of each kind.
pub(crate) fn push_lists_part(
    text: &mut String,
    named: &NamedPlan,
    motors: &NamedMotors,
) -> Result<(), AllocError>
    ensures { OnOk result (string_bytes text.new
        ≡ string_bytes text.old ++ spec.lists_part named.now motors.now.names) }
{
    text.push_str(NAMES)?;
    push_own(text, named)?;
    push_parts(text, named, motors)
}

/// Adds the names of poses and of motors.
fn push_parts(text: &mut String, named: &NamedPlan, motors: &NamedMotors) -> Result<(), AllocError>
    ensures { OnOk result (string_bytes text.new
        ≡ string_bytes text.old ++ spec.part_lists named.now motors.now.names) }
{
    push_poses(text, named)?;
    push_list(text, "MOTORS", &motors.names)
}

/// Adds the names of machines, zones and places.
fn push_own(text: &mut String, named: &NamedPlan) -> Result<(), AllocError>
    ensures { OnOk result (string_bytes text.new
        ≡ string_bytes text.old ++ spec.own_lists named.now) }
{
    push_machines(text, named)?;
    push_zones(text, named)?;
    push_places(text, named)
}

/// Adds the names of machines.
fn push_machines(text: &mut String, named: &NamedPlan) -> Result<(), AllocError>
    ensures { OnOk result (string_bytes text.new
        ≡ string_bytes text.old ++ spec.machine_list named.now) }
{
    push_list(text, "MACHINES", named.machines())
}

/// Adds the names of zones.
fn push_zones(text: &mut String, named: &NamedPlan) -> Result<(), AllocError>
    ensures { OnOk result (string_bytes text.new
        ≡ string_bytes text.old ++ spec.zone_list named.now) }
{
    push_list(text, "ZONES", named.zones())
}

/// Adds the names of places.
fn push_places(text: &mut String, named: &NamedPlan) -> Result<(), AllocError>
    ensures { OnOk result (string_bytes text.new
        ≡ string_bytes text.old ++ spec.place_list named.now) }
{
    push_list(text, "PLACES", named.places())
}

/// Adds the names of poses.
fn push_poses(text: &mut String, named: &NamedPlan) -> Result<(), AllocError>
    ensures { OnOk result (string_bytes text.new
        ≡ string_bytes text.old ++ spec.pose_list named.now) }
{
    push_list(text, "POSES", named.poses())
}

/// Adds the names of a kind.
fn push_list(text: &mut String, kind: &str, names: &Names) -> Result<(), AllocError>
    ensures { OnOk result
        (string_bytes text.new ≡ string_bytes text.old ++ spec.name_list kind.now names.now) }
{
    push_opened(text, kind)?;
    push_names(text, names)?;
    text.push_str("    0,\n};\n")
}

/// Adds how a list begins.
fn push_opened(text: &mut String, kind: &str) -> Result<(), AllocError>
    ensures { OnOk result (string_bytes text.new
        ≡ string_bytes text.old ++ spec.list_opened kind.now) }
{
    writeln!(text, "static const char *const PLAN_NAMES_OF_{kind}[] = {{")
}

/// Adds each name of a kind.
fn push_names(text: &mut String, names: &Names) -> Result<(), AllocError>
    ensures { OnOk result (string_bytes text.new ≡ string_bytes text.old
        ++ flat_map (spec.name_item names.now) (range_with_len 0 (length names.now))) }
{
    'names: for number in 0..names.len() as u8 {
        push_name(text, names, number)?;
    }
    Ok(())
}

/// Adds the name with a number.
fn push_name(text: &mut String, names: &Names, number: u8) -> Result<(), AllocError>
    ensures { OnOk result
        (string_bytes text.new ≡ string_bytes text.old ++ spec.name_item names.now number) }
{
    push_quoted(text, names.name(number))
}

/// Adds a name.
fn push_quoted(text: &mut String, name: &str) -> Result<(), AllocError>
    ensures { OnOk result (string_bytes text.new
        ≡ string_bytes text.old ++ spec.quoted_item name.now) }
{
    writeln!(text, "    \"{name}\",")
}
