//! The hazards of a picture: their names, what keeps their motors apart, and lines between the motors.
ghost use Rattle.std.specs.Prelude.{◌≡◌, ◌++◌, OnOk, slice_get, string_bytes};
ghost use Rattle.plan_picture.specs.Pictures as spec;

use crate::elements::{Spot, push_label, push_slanted, push_upright};
use crate::findings::{Finding, found_class};
use crate::positions::{hazard_column, motor_thing, row};
use crate::shown::Shown;
use plan_motors::Hazard;
use std::alloc::AllocError;

/// Adds each hazard.
pub(crate) fn push_hazards(
    text: &mut String,
    shown: &Shown<'_>,
    found: &[Finding],
) -> Result<(), AllocError>
    ensures { OnOk result (string_bytes text.new
        ≡ string_bytes text.old ++ spec.hazards_part shown.now found.now) }
{
    'hazards: for hazard in 0..shown.hazard_names().len() as u8 {
        push_hazard(text, shown, found, hazard)?;
    }
    Ok(())
}

/// Adds a hazard: its name, what is said of it, and a line from the one to the other.
fn push_hazard(
    text: &mut String,
    shown: &Shown<'_>,
    found: &[Finding],
    hazard: u8,
) -> Result<(), AllocError>
    ensures { OnOk result (string_bytes text.new
        ≡ string_bytes text.old ++ spec.hazard_part shown.now found.now hazard) }
{
    push_hazard_title(text, shown, hazard)?;
    push_found_if(text, shown, found, hazard)?;
    push_danger(text, shown, hazard)
}

/// Adds the name of a hazard.
fn push_hazard_title(text: &mut String, shown: &Shown<'_>, hazard: u8) -> Result<(), AllocError>
    ensures { OnOk result
        (string_bytes text.new ≡ string_bytes text.old
        ++ spec.hazard_title shown.now hazard) }
{
    let spot = Spot {
        x: hazard_column(shown, hazard) + 10,
        y: 220,
        most: 15,
        width: 280,
    };
    push_slanted(text, "hazard", spot, shown.hazard_names().name(hazard))
}

/// Adds what is said of a hazard, if anything is.
fn push_found_if(
    text: &mut String,
    shown: &Shown<'_>,
    found: &[Finding],
    hazard: u8,
) -> Result<(), AllocError>
    ensures { OnOk result (string_bytes text.new
        ≡ string_bytes text.old ++ spec.found_if shown.now hazard
        (slice_get found.now hazard)) }
{
    match found.get(usize::from(hazard)) {
        Some(found) => push_found(text, shown, hazard, found),
        None => Ok(()),
    }
}

/// Adds what is said of a hazard.
fn push_found(
    text: &mut String,
    shown: &Shown<'_>,
    hazard: u8,
    found: &Finding,
) -> Result<(), AllocError>
    ensures { OnOk result
        (string_bytes text.new ≡ string_bytes text.old
        ++ spec.found_part shown.now hazard found.now) }
{
    let spot = Spot {
        x: hazard_column(shown, hazard) + 34,
        y: 220,
        most: 13,
        width: 280,
    };
    push_slanted(text, found_class(found.is_kept()), spot, found.words())
}

/// Adds a line from the one motor of a hazard to the other, and their names.
fn push_danger(text: &mut String, shown: &Shown<'_>, hazard: u8) -> Result<(), AllocError>
    ensures { OnOk result
        (string_bytes text.new ≡ string_bytes text.old
        ++ spec.danger_part shown.now hazard) }
{
    push_danger_by(text, shown, hazard, shown.hazard(hazard))
}

/// Adds a line from the one of these motors to the other, and their names.
fn push_danger_by(
    text: &mut String,
    shown: &Shown<'_>,
    hazard: u8,
    motors: Hazard,
) -> Result<(), AllocError>
    ensures { OnOk result
        (string_bytes text.new ≡ string_bytes text.old
        ++ spec.danger_by shown.now hazard motors) }
{
    push_danger_line(text, shown, hazard, motors)?;
    push_danger_label(text, shown, hazard, motors.first)?;
    push_danger_label(text, shown, hazard, motors.second)
}

/// Adds a line from the one of these motors to the other.
fn push_danger_line(
    text: &mut String,
    shown: &Shown<'_>,
    hazard: u8,
    motors: Hazard,
) -> Result<(), AllocError>
    ensures { OnOk result
        (string_bytes text.new ≡ string_bytes text.old
        ++ spec.danger_line shown.now hazard motors) }
{
    let first = row(shown, motor_thing(shown, motors.first));
    let second = row(shown, motor_thing(shown, motors.second));
    push_upright(
        text,
        "hazard",
        hazard_column(shown, hazard) + 10,
        first,
        second,
    )
}

/// Adds the name of a motor by its end of a hazard's line.
fn push_danger_label(
    text: &mut String,
    shown: &Shown<'_>,
    hazard: u8,
    motor: u8,
) -> Result<(), AllocError>
    ensures { OnOk result
        (string_bytes text.new ≡ string_bytes text.old
        ++ spec.danger_label shown.now hazard motor) }
{
    let spot = Spot {
        x: hazard_column(shown, hazard) + 22,
        y: row(shown, motor_thing(shown, motor)) + 4,
        most: 13,
        width: 112,
    };
    push_label(text, "danger", spot, shown.motor_names().name(motor))
}
