//! The masks of motors in what `plan header` prints.
ghost use Rattle.std.specs.Prelude.{◌≡◌, ◌++◌, OnOk, flat_map, length, string_bytes};
ghost use Rattle.std.specs.List.{range_with_len};
ghost use Rattle.plan_motors.specs.Mask.{mask_of, pattern_of};
ghost use Rattle.plan_motors.specs.OfPlan.{motor_at as motor_with};
ghost use Rattle.plan_header.specs.Headers as spec;

use crate::header::capitals_of;
use plan_document::NamedMotors;
use plan_motors::{Motor, MotorMask, NO_NEED};
use plan_text::{NamedPlan, Names};
use plan_types::{MAX_PLACES, MAX_ZONES};
use std::alloc::{AllocError, Global};

/// What stands before the masks of motors.
const MOTORS: &str = "
/* Motors, and parts that stand somewhere: which bits of a state's word each looks at, and what they have to be. Load the
   word, and PLAN_MAY_RUN(word, RAM) says whether its state permits the ram. What is permitted stays so until a call of
   the motor's own machine loses the permission: no other machine's call takes it away. Before such a call the motor is
   off and at rest, and the part is out of the space. That is up to you: nothing here sees a motor. */
#define PLAN_MAY_RUN(word, motor) (((word) & PLAN_MASK_##motor) == PLAN_PATTERN_##motor)
";

/// A motor by its number; one that needs nothing if there is no such motor.
pub fn motor_at(motors: &[Motor], motor: u8) -> Motor
    ensures { result ≡ motor_with motors.now motor }
{
    match motors.get(usize::from(motor)) {
        Some(motor) => *motor,
        None => Motor {
            machine: 0,
            zones: [NO_NEED; MAX_ZONES],
            places: [None; MAX_PLACES],
        },
    }
}

/// Adds the masks of motors; nothing if there are none.
#[tactic(auto, unfolding(crate::specs::Headers::motors_part))]
pub(crate) fn push_motors_part(
    alloc: Global,
    text: &mut String,
    named: &NamedPlan,
    motors: &NamedMotors,
) -> Result<(), AllocError>
    ensures { OnOk result (string_bytes text.new
        ≡ string_bytes text.old ++ spec.motors_part named.now motors.now.names
        motors.now.motors.items) }
{
    if motors.names.len() == 0 {
        Ok(())
    } else {
        push_some(alloc, text, named, &motors.names, &motors.motors)
    }
}

/// Adds the masks of motors, and what stands before them.
fn push_some(
    alloc: Global,
    text: &mut String,
    named: &NamedPlan,
    names: &Names,
    motors: &[Motor],
) -> Result<(), AllocError>
    ensures { OnOk result (string_bytes text.new
        ≡ string_bytes text.old ++ spec.some_motors named.now names.now motors.now) }
{
    text.push_str(MOTORS)?;
    push_motors(alloc, text, named, names, motors)
}

/// Adds the masks of all motors.
fn push_motors(
    alloc: Global,
    text: &mut String,
    named: &NamedPlan,
    names: &Names,
    motors: &[Motor],
) -> Result<(), AllocError>
    ensures { OnOk result (string_bytes text.new ≡ string_bytes text.old
        ++ flat_map (spec.mask_lines named.now names.now motors.now)
        (range_with_len 0 (length names.now))) }
{
    'motors: for motor in 0..names.len() as u8 {
        push_motor(alloc, text, named, names, motors, motor)?;
    }
    Ok(())
}

/// Adds the mask and the pattern of a motor.
fn push_motor(
    alloc: Global,
    text: &mut String,
    named: &NamedPlan,
    names: &Names,
    motors: &[Motor],
    motor: u8,
) -> Result<(), AllocError>
    ensures { OnOk result (string_bytes text.new
        ≡ string_bytes text.old ++ spec.mask_lines named.now names.now motors.now motor) }
{
    let MotorMask { mask, pattern } = mask_with(named, motors, motor);
    push_bits(alloc, text, "mask_", names.name(motor), mask)?;
    push_bits(alloc, text, "pattern_", names.name(motor), pattern)
}

/// The bits of the motor with a number.
pub(crate) fn mask_with(named: &NamedPlan, motors: &[Motor], motor: u8) -> MotorMask
    ensures mask { result.mask ≡ mask_of named.now.plan (motor_with motors.now motor) }
    ensures pattern { result.pattern ≡ pattern_of named.now.plan (motor_with motors.now motor) }
{
    MotorMask::of(named.plan(), &motor_at(motors, motor))
}

/// Adds a definition of bits of a word.
fn push_bits(
    alloc: Global,
    text: &mut String,
    kind: &str,
    name: &str,
    bits: u64,
) -> Result<(), AllocError>
    ensures { OnOk result
        (string_bytes text.new ≡ string_bytes text.old ++ spec.bits_line kind.now name.now bits) }
{
    let word = format!(in alloc; "{kind}{name}")?;
    let capitals = capitals_of(alloc, word.as_str())?;
    push_bits_of(text, capitals.as_str(), bits)
}

/// Adds a definition of bits of a word, of a name that is in capitals.
fn push_bits_of(text: &mut String, capitals: &str, bits: u64) -> Result<(), AllocError>
    ensures { OnOk result (string_bytes text.new
        ≡ string_bytes text.old ++ spec.bits_defined capitals.now bits) }
{
    writeln!(text, "#define PLAN_{capitals} UINT64_C({bits})")
}
