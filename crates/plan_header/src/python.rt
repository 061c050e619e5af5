//! What `plan header --python` prints: a plan's bytes, its names in the order of their numbers, and its motors' masks,
//! as a module for `bindings/bagunjoki_plan.py`.
ghost use Rattle.std.specs.Prelude.{◌≡◌, ◌++◌, IfOk, OnOk, flat_map, length, string_bytes};
ghost use Rattle.std.specs.List.{range_with_len};
ghost use Rattle.plan_header.specs.Modules as spec;

use crate::header::{bytes_in, push_bytes};
use crate::motors::mask_with;
use plan_document::{NamedMotors, ProgrammedPlan};
use plan_motors::{Motor, MotorMask};
use plan_text::{NamedPlan, Names};
use std::alloc::{AllocError, Global};

/// How the module begins.
const MODULE: &str = "\
# A plan, as `plan header --python` prints it, for bagunjoki_plan.py: its bytes, its names in the order of their numbers, and
# its motors with the bits of a word that each looks at and what these have to be.
from bagunjoki_plan import Plant

BYTES = bytes((";

/// What stands between the bytes and the names.
const PLANT: &str = "\n))\n\nPLANT = Plant(\n";

/// How the module ends.
const LAST: &str =
    "    plan=BYTES,\n)\n\nif __name__ == \"__main__\":\n    raise SystemExit(PLANT.main())\n";

/// What `plan header --python` prints of a plan.
pub fn module_of(alloc: Global, plan: &ProgrammedPlan) -> Result<String, AllocError>
    ensures { IfOk result (λ text. string_bytes text
        ≡ spec.module_text plan.now.named plan.now.motors.names plan.now.motors.motors.items) }
{
    let mut text = String::new(alloc);
    match push_module(alloc, &mut text, plan) {
        Ok(()) => Ok(text),
        Err(error) => Err(error),
    }
}

#[tactic(auto, unfolding(crate::specs::Modules::module_text))]
fn push_module(alloc: Global, text: &mut String, plan: &ProgrammedPlan) -> Result<(), AllocError>
    ensures { OnOk result (string_bytes text.new ≡ string_bytes text.old
        ++ spec.module_text plan.now.named plan.now.motors.names plan.now.motors.motors.items) }
{
    push_bytes_listed(alloc, text, &plan.named)?;
    push_kinds(text, &plan.named)?;
    push_parts(text, &plan.named, &plan.motors)
}

/// Adds the plan's bytes.
fn push_bytes_listed(alloc: Global, text: &mut String, named: &NamedPlan) -> Result<(), AllocError>
    ensures { OnOk result (string_bytes text.new
        ≡ string_bytes text.old ++ spec.bytes_listed named.now) }
{
    let bytes = bytes_in(alloc, named.plan())?;
    push_bytes_between(text, bytes.as_slice())
}

/// Adds these bytes, between the beginning of the module and the names.
fn push_bytes_between(text: &mut String, bytes: &[u8]) -> Result<(), AllocError>
    ensures { OnOk result (string_bytes text.new
        ≡ string_bytes text.old ++ spec.bytes_between bytes.now) }
{
    text.push_str(MODULE)?;
    push_bytes(text, bytes)?;
    text.push_str(PLANT)
}

/// Adds the names of machines, zones and places.
fn push_kinds(text: &mut String, named: &NamedPlan) -> Result<(), AllocError>
    ensures { OnOk result (string_bytes text.new
        ≡ string_bytes text.old ++ spec.names_of_kinds named.now) }
{
    push_machines(text, named)?;
    push_zones(text, named)?;
    push_places(text, named)
}

/// Adds the names of machines.
fn push_machines(text: &mut String, named: &NamedPlan) -> Result<(), AllocError>
    ensures { OnOk result (string_bytes text.new
        ≡ string_bytes text.old ++ spec.machines_listed named.now) }
{
    push_names(text, "machines", named.machines())
}

/// Adds the names of zones.
fn push_zones(text: &mut String, named: &NamedPlan) -> Result<(), AllocError>
    ensures { OnOk result (string_bytes text.new
        ≡ string_bytes text.old ++ spec.zones_listed named.now) }
{
    push_names(text, "zones", named.zones())
}

/// Adds the names of places.
fn push_places(text: &mut String, named: &NamedPlan) -> Result<(), AllocError>
    ensures { OnOk result (string_bytes text.new
        ≡ string_bytes text.old ++ spec.places_listed named.now) }
{
    push_names(text, "places", named.places())
}

/// Adds poses and motors, and how the module ends.
fn push_parts(text: &mut String, named: &NamedPlan, motors: &NamedMotors) -> Result<(), AllocError>
    ensures { OnOk result (string_bytes text.new
        ≡ string_bytes text.old ++ spec.names_of_parts named.now motors.now.names
        motors.now.motors.items) }
{
    push_poses(text, named)?;
    push_motors(text, named, motors)?;
    text.push_str(LAST)
}

/// Adds how a list begins.
fn push_title(text: &mut String, title: &str) -> Result<(), AllocError>
    ensures { OnOk result (string_bytes text.new ≡ string_bytes text.old ++ spec.opened title.now) }
{
    write!(text, "    {title}=(\n")
}

/// Adds how a list ends.
fn push_end(text: &mut String) -> Result<(), AllocError>
    ensures { OnOk result (string_bytes text.new ≡ string_bytes text.old ++ spec.closed) }
{
    text.push_str("    ),\n")
}

/// Adds the names of a kind.
fn push_names(text: &mut String, title: &str, names: &Names) -> Result<(), AllocError>
    ensures { OnOk result
        (string_bytes text.new ≡ string_bytes text.old ++ spec.names_listed title.now names.now) }
{
    push_title(text, title)?;
    push_each(text, names)?;
    push_end(text)
}

/// Adds each name of a kind.
fn push_each(text: &mut String, names: &Names) -> Result<(), AllocError>
    ensures { OnOk result (string_bytes text.new ≡ string_bytes text.old
        ++ flat_map (spec.name_item names.now) (range_with_len 0 (length names.now))) }
{
    'numbers: for number in 0..names.len() as u8 {
        push_number(text, names, number)?;
    }
    Ok(())
}

/// Adds the name with a number.
fn push_number(text: &mut String, names: &Names, number: u8) -> Result<(), AllocError>
    ensures { OnOk result
        (string_bytes text.new ≡ string_bytes text.old ++ spec.name_item names.now number) }
{
    push_name(text, names.name(number))
}

/// Adds a name.
fn push_name(text: &mut String, name: &str) -> Result<(), AllocError>
    ensures { OnOk result
        (string_bytes text.new ≡ string_bytes text.old ++ spec.item_line (spec.quoted name.now)) }
{
    writeln!(text, "        \"{name}\",")
}

/// Adds the poses.
fn push_poses(text: &mut String, named: &NamedPlan) -> Result<(), AllocError>
    ensures { OnOk result (string_bytes text.new
        ≡ string_bytes text.old ++ spec.poses_listed named.now) }
{
    push_title(text, "poses")?;
    push_each_pose(text, named)?;
    push_end(text)
}

/// Adds each pose.
fn push_each_pose(text: &mut String, named: &NamedPlan) -> Result<(), AllocError>
    ensures { OnOk result (string_bytes text.new ≡ string_bytes text.old
        ++ flat_map (spec.pose_item named.now) (range_with_len 0 (length named.now.poses))) }
{
    'poses: for pose in 0..named.poses().len() as u8 {
        push_pose(text, named, pose)?;
    }
    Ok(())
}

/// Adds a pose.
fn push_pose(text: &mut String, named: &NamedPlan, pose: u8) -> Result<(), AllocError>
    ensures { OnOk result (string_bytes text.new
        ≡ string_bytes text.old ++ spec.pose_item named.now pose) }
{
    let machine = named.machines().name(named.plan().pose(pose).machine);
    let name = named.poses().name(pose);
    writeln!(text, "        (\"{machine}\", \"{name}\"),")
}

/// Adds the motors.
fn push_motors(text: &mut String, named: &NamedPlan, motors: &NamedMotors) -> Result<(), AllocError>
    ensures { OnOk result (string_bytes text.new
        ≡ string_bytes text.old ++ spec.motors_listed named.now motors.now.names
        motors.now.motors.items) }
{
    push_motors_with(text, named, &motors.names, &motors.motors)
}

/// Adds the motors with these names.
fn push_motors_with(
    text: &mut String,
    named: &NamedPlan,
    names: &Names,
    motors: &[Motor],
) -> Result<(), AllocError>
    ensures { OnOk result (string_bytes text.new
        ≡ string_bytes text.old ++ spec.motors_listed named.now names.now motors.now) }
{
    push_title(text, "motors")?;
    push_each_motor(text, named, names, motors)?;
    push_end(text)
}

/// Adds each motor.
fn push_each_motor(
    text: &mut String,
    named: &NamedPlan,
    names: &Names,
    motors: &[Motor],
) -> Result<(), AllocError>
    ensures { OnOk result (string_bytes text.new ≡ string_bytes text.old
        ++ flat_map (spec.motor_item named.now names.now motors.now)
        (range_with_len 0 (length names.now))) }
{
    'motors: for motor in 0..names.len() as u8 {
        push_motor(text, named, names, motors, motor)?;
    }
    Ok(())
}

/// Adds a motor.
fn push_motor(
    text: &mut String,
    named: &NamedPlan,
    names: &Names,
    motors: &[Motor],
    motor: u8,
) -> Result<(), AllocError>
    ensures { OnOk result (string_bytes text.new
        ≡ string_bytes text.old ++ spec.motor_item named.now names.now motors.now motor) }
{
    let MotorMask { mask, pattern } = mask_with(named, motors, motor);
    let name = names.name(motor);
    writeln!(text, "        (\"{name}\", {mask}, {pattern}),")
}
