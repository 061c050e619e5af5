//! Which section is refused, and why: more than the fault of its configuration says.

ghost use Rattle.std.specs.Prelude.{◌≡◌, Err, None, IsOk, MatchOption, MatchResult, map};
ghost use Rattle.toml.specs.View.{table_view, view};
ghost use Rattle.cell_config.specs.RefusedSections.{IsCurveFault, IsFirstKey, IsFirstRefusal};
ghost use Rattle.cell_config.specs.RefusedSections.{IsRefusal, config_fault_of, end_of, key_of};
ghost use Rattle.cell_config.specs.RefusedSections.{pairs_given, section_by_key};
ghost use Rattle.cell_config.specs.Settings as settings;

use crate::fault::ConfigFault;
use crate::sections::{curve_at, measured_pairs, pairs_in, points_of, raw_at, tol_at};
use crate::values::value_at;
use cell_parts::parts::crane::GRIPPER_END;
use cell_parts::parts::robot::{ARM_END, ROTATION_END};
use cell_parts::parts::table::TURN_END;
use cell_sensors::{Curve, CurveFault, MAX_PAIRS, Points};
use toml::{Table, Value};

/// The key of a section.
#[derive(Clone, Copy, Debug)]
pub enum SectionKey {
    Arm1,
    Arm2,
    Rotation,
    Turn,
    Gripper,
}

impl SectionKey {
    /// The key's text.
    pub fn text(self) -> &'static str
        ensures { result.now ≡ key_of self }
    {
        match self {
            SectionKey::Arm1 => "arm1",
            SectionKey::Arm2 => "arm2",
            SectionKey::Rotation => "rotation",
            SectionKey::Turn => "turn",
            SectionKey::Gripper => "gripper",
        }
    }

    /// The end of the section's axis, which begins at 0.
    pub fn axis_end(self) -> i32
        ensures value { result ≡ end_of self }
        ensures axis { settings.IsAxisEnd result }
    {
        match self {
            SectionKey::Arm1 | SectionKey::Arm2 => ARM_END,
            SectionKey::Rotation => ROTATION_END,
            SectionKey::Turn => TURN_END,
            SectionKey::Gripper => GRIPPER_END,
        }
    }
}

/// What is wrong with a section: the first fault of its keys, in the order `raw`, `tol`, `points`.
/// The fault of a key is `Kind` or `Range`.
#[derive(Clone, Copy, Debug)]
pub enum SectionFault {
    /// The section is no table.
    NoTable,
    /// The key `raw` has this fault.
    Raw(ConfigFault),
    /// The key `tol` has this fault.
    Tol(ConfigFault),
    /// The key `points` has this fault.
    Points {
        fault: ConfigFault,
        /// The line through the ends of the axis, by `raw` and `tol`.
        line: Points,
        /// Why the pairs make no curve near the line; `None` if they aren't pairs of whole numbers,
        /// or a number doesn't fit.
        curve: Option<CurveFault>,
    },
}

/// Why these pairs make no curve near a line; `None` if they make one, or a number doesn't fit.
fn curve_fault(line: Points, values: &[Value]) -> Option<CurveFault>
    ensures { IsCurveFault line (map view values.now) result }
{
    if values.len() > MAX_PAIRS {
        return Some(CurveFault::Count);
    }
    let pairs = measured_pairs(values)?;
    Curve::new(line, &pairs[..values.len()]).err()
}

/// Why the pairs in a section's key `points` make no curve near a line, if that is what is wrong.
fn curve_fault_at(section: &Table, line: Points) -> Option<CurveFault>
    ensures { MatchOption (pairs_given (table_view section.now))
        (result ≡ None)
        (λ values. IsCurveFault line values result) }
{
    let values = pairs_in(value_at(section, "points")?)?;
    curve_fault(line, values)
}

/// Checks the keys of a section for an axis from 0 to `end`.
fn check_keys(section: &Table, end: i32) -> Result<(), SectionFault>
    requires { settings.IsAxisEnd end }
    ensures { MatchResult result
        (λ _. IsOk (settings.section_of end (table_view section.now)))
        (λ fault. (settings.section_of end (table_view section.now) ≡ Err (config_fault_of fault))
        × IsFirstKey end (table_view section.now) fault) }
{
    let raw = match raw_at(section, end) {
        Ok(raw) => raw,
        Err(fault) => return Err(SectionFault::Raw(fault)),
    };
    let tol = match tol_at(section) {
        Ok(tol) => tol,
        Err(fault) => return Err(SectionFault::Tol(fault)),
    };
    let line = points_of(raw, end, tol);
    match curve_at(section, line) {
        Ok(_) => Ok(()),
        Err(fault) => Err(SectionFault::Points {
            fault,
            line,
            curve: curve_fault_at(section, line),
        }),
    }
}

/// Checks the section with this key. The error is the key, and what is wrong.
fn check_section(table: &Table, key: SectionKey) -> Result<(), (SectionKey, SectionFault)>
    ensures { MatchResult result
        (λ _. IsOk (section_by_key key (table_view table.now)))
        (λ refused. (refused.0 ≡ key) × IsRefusal (table_view table.now) key refused.1) }
{
    let Some(value) = value_at(table, key.text()) else {
        return Ok(());
    };
    let checked = match value.as_table() {
        Some(section) => check_keys(section, key.axis_end()),
        None => Err(SectionFault::NoTable),
    };
    match checked {
        Ok(()) => Ok(()),
        Err(fault) => Err((key, fault)),
    }
}

/// Checks the sections arm1, arm2, rotation, turn and gripper, in this order. The error is the key of
/// the first that is refused, and what is wrong.
pub fn check_sections(table: &Table) -> Result<(), (SectionKey, SectionFault)>
    ensures { MatchResult result
        (λ _. IsOk (settings.sections_at (table_view table.now)))
        (λ refused. IsFirstRefusal (table_view table.now) refused.0 refused.1) }
{
    check_section(table, SectionKey::Arm1)?;
    check_section(table, SectionKey::Arm2)?;
    check_section(table, SectionKey::Rotation)?;
    check_section(table, SectionKey::Turn)?;
    check_section(table, SectionKey::Gripper)
}
