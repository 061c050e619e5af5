//! The sections: how the five potentiometers are calibrated.

ghost use Rattle.std.specs.Prelude.{◌≡◌, pos, ◌-ℤ◌, ◌≤ℤ◌, ◌≤◌, true, false, Ok, Err, IfOk};
ghost use Rattle.std.specs.Prelude.{MatchResult, length, map, option_map};
ghost use Rattle.std.specs.List.{list_all};
ghost use Rattle.cell_sensors.specs.Curve.{pairs_of};
ghost use Rattle.toml.specs.View.{table_view, view};
ghost use Rattle.cell_parts.specs.Axes.{IsAxisScale};
ghost use Rattle.cell_config.specs.Configured.{AreAxisScales};
ghost use Rattle.cell_config.specs.Settings as settings;

use crate::fault::ConfigFault;
use crate::values::{number_at, value_at};
use cell_parts::parts::crane::GRIPPER_END;
use cell_parts::parts::robot::{ARM_END, ROTATION_END};
use cell_parts::parts::table::TURN_END;
use cell_sensors::{Curve, MAX_PAIRS, Points};
use toml::{Table, Value};

/// The default raw values, in sensor counts.
const RAW: (u16, u16) = (0, 4000);

/// The default tolerance, in tenths of a millimetre or of a degree.
const TOL: u32 = 5;

/// The numbers of an array of exactly two whole numbers.
fn pair_of(value: &Value) -> Option<(i64, i64)>
    ensures { result ≡ settings.pair_of (view value.now) }
{
    let items = value.as_array()?;
    match items.as_slice() {
        [low, high] => Some((low.as_integer()?, high.as_integer()?)),
        _ => None,
    }
}

/// The raw value that is this number; `Range` if no raw value is.
fn raw_of(number: i64) -> Result<u16, ConfigFault>
    ensures { result ≡ settings.number_within 0 65535 number }
{
    match u16::try_from(number) {
        Ok(raw) => Ok(raw),
        Err(_) => Err(ConfigFault::Range),
    }
}

/// The raw values at the two ends of an axis. `Range` if one is out of range, or they are closer to
/// one another than the ends.
fn raw_within(pair: (i64, i64), end: i32) -> Result<(u16, u16), ConfigFault>
    ensures value { result ≡ settings.raw_within end pair }
    ensures wide { IfOk result (λ raw. end ≤ℤ (pos raw.1 -ℤ pos raw.0)) }
{
    let low = raw_of(pair.0)?;
    let high = raw_of(pair.1)?;
    if i32::from(high) - i32::from(low) < end {
        Err(ConfigFault::Range)
    } else {
        Ok((low, high))
    }
}

/// The raw values in a section's key `raw`.
pub fn raw_at(section: &Table, end: i32) -> Result<(u16, u16), ConfigFault>
    requires { settings.IsAxisEnd end }
    ensures value { result ≡ settings.raw_at end (table_view section.now) }
    ensures wide { IfOk result (λ raw. end ≤ℤ (pos raw.1 -ℤ pos raw.0)) }
{
    let Some(value) = value_at(section, "raw") else {
        return Ok(RAW);
    };
    let Some(pair) = pair_of(value) else {
        return Err(ConfigFault::Kind);
    };
    raw_within(pair, end)
}

/// The tolerance in a section's key `tol`.
pub fn tol_at(section: &Table) -> Result<u32, ConfigFault>
    ensures value { result ≡ settings.tol_at (table_view section.now) }
    ensures limits { IfOk result (λ tol. (1 ≤ tol) × (tol ≤ 10)) }
{
    number_at(section, "tol", 1, 10, TOL)
}

/// The points of an axis from 0 to its end.
pub fn points_of(raw: (u16, u16), end: i32, tol: u32) -> Points
    requires end { settings.IsAxisEnd end }
    requires wide { end ≤ℤ (pos raw.1 -ℤ pos raw.0) }
    requires tol { (1 ≤ tol) × (tol ≤ 10) }
    ensures value { result ≡ settings.axis_scale end raw tol }
    ensures axis { IsAxisScale end result }
{
    Points::new(raw.0, raw.1, 0, end, tol as i32).unwrap()
}

/// The raw value and the position that two whole numbers are, if both fit.
fn measured_in(pair: (i64, i64)) -> Option<(u16, i32)>
    ensures { result ≡ settings.measured_in pair }
{
    match (u16::try_from(pair.0), i32::try_from(pair.1)) {
        (Ok(raw), Ok(position)) => Some((raw, position)),
        _ => None,
    }
}

/// The measured pair that a value is, if it is two whole numbers that fit.
fn measured_of(value: &Value) -> Option<(u16, i32)>
    ensures { result ≡ settings.measured_of (view value.now) }
{
    measured_in(pair_of(value)?)
}

/// Whether each value is a pair of whole numbers.
fn are_pairs(values: &[Value]) -> bool
    ensures { result ≡ list_all settings.is_pair (map view values.now) }
{
    'values: for value in values {
        if pair_of(value).is_none() {
            return false;
        }
    }
    true
}

/// The values of an array of pairs of whole numbers.
pub fn pairs_in(value: &Value) -> Option<&[Value]>
    ensures { option_map (λ values. map view values.now) result
        ≡ settings.pairs_in (view value.now) }
{
    let items = value.as_array()?;
    let values = items.as_slice();
    if are_pairs(values) {
        Some(values)
    } else {
        None
    }
}

/// An array that begins with the measured pairs of some values, or none if one doesn't fit.
pub fn measured_pairs(values: &[Value]) -> Option<[(u16, i32); MAX_PAIRS]>
    requires { length values.now ≤ 32 }
    ensures { settings.GivesMeasured (map view values.now) (length values.now) result }
{
    let mut pairs = [(0, 0); MAX_PAIRS];
    'values: for i in 0..values.len() {
        let Some(pair) = measured_of(&values[i]) else {
            return None;
        };
        pairs[i] = pair;
    }
    Some(pairs)
}

/// The curve through these pairs; `Range` if they make none near the line of `points`.
fn curve_of(points: Points, pairs: &[(u16, i32)]) -> Result<Curve, ConfigFault>
    ensures value { MatchResult result
        (λ c. settings.curve_of points pairs.now ≡ Ok (pairs_of c))
        (λ fault. settings.curve_of points pairs.now ≡ Err fault) }
    ensures scale { IfOk result (λ c. c.scale ≡ points) }
{
    match Curve::new(points, pairs) {
        Ok(curve) => Ok(curve),
        Err(_) => Err(ConfigFault::Range),
    }
}

/// The curve through the measured pairs of some values. `Range` if a number doesn't fit, or the
/// pairs make no curve near the line of `points`.
fn curve_within(points: Points, values: &[Value]) -> Result<Curve, ConfigFault>
    ensures value { MatchResult result
        (λ c. settings.curve_within points (map view values.now) ≡ Ok (pairs_of c))
        (λ fault. settings.curve_within points (map view values.now) ≡ Err fault) }
    ensures scale { IfOk result (λ c. c.scale ≡ points) }
{
    if values.len() > MAX_PAIRS {
        return Err(ConfigFault::Range);
    }
    let Some(pairs) = measured_pairs(values) else {
        return Err(ConfigFault::Range);
    };
    curve_of(points, &pairs[..values.len()])
}

/// The curve in a section's key `points`, or that of the line if the key is absent.
///
/// `Kind` if the value is no array of pairs of whole numbers; `Range` if a number doesn't fit, or
/// the pairs make no curve near the line of `points`.
pub fn curve_at(section: &Table, points: Points) -> Result<Curve, ConfigFault>
    ensures value { MatchResult result
        (λ c. settings.pairs_at points (table_view section.now) ≡ Ok (pairs_of c))
        (λ fault. settings.pairs_at points (table_view section.now) ≡ Err fault) }
    ensures scale { IfOk result (λ c. c.scale ≡ points) }
{
    let Some(value) = value_at(section, "points") else {
        return Ok(Curve::of_line(points));
    };
    let Some(values) = pairs_in(value) else {
        return Err(ConfigFault::Kind);
    };
    curve_within(points, values)
}

/// The curve in a section, for an axis from 0 to `end`.
fn section_of(section: &Table, end: i32) -> Result<Curve, ConfigFault>
    requires { settings.IsAxisEnd end }
    ensures value { MatchResult result
        (λ c. settings.section_of end (table_view section.now) ≡ Ok (c.scale, pairs_of c))
        (λ fault. settings.section_of end (table_view section.now) ≡ Err fault) }
    ensures axis { IfOk result (λ c. IsAxisScale end c.scale) }
{
    let raw = raw_at(section, end)?;
    let tol = tol_at(section)?;
    curve_at(section, points_of(raw, end, tol))
}

/// The curve in a table's section, for an axis from 0 to `end`.
///
/// `Kind` if a value has another kind; `Range` if a number is out of range, the raw values are
/// closer to one another than the ends of the axis, or the pairs make no curve. The section is
/// checked first, then `raw`, then `tol`, then `points`.
fn section_at(table: &Table, key: &str, end: i32) -> Result<Curve, ConfigFault>
    requires { settings.IsAxisEnd end }
    ensures value { MatchResult result
        (λ c. settings.section_at key.now end (table_view table.now) ≡ Ok (c.scale, pairs_of c))
        (λ fault. settings.section_at key.now end (table_view table.now) ≡ Err fault) }
    ensures axis { IfOk result (λ c. IsAxisScale end c.scale) }
{
    let Some(value) = value_at(table, key) else {
        return Ok(Curve::of_line(points_of(RAW, end, TOL)));
    };
    let Some(section) = value.as_table() else {
        return Err(ConfigFault::Kind);
    };
    section_of(section, end)
}

/// The curves of the potentiometers arm1, arm2, rotation, turn and gripper, in this order.
pub fn curves_at(table: &Table) -> Result<[Curve; 5], ConfigFault>
    ensures value { MatchResult result
        (λ curves. settings.sections_at (table_view table.now)
        ≡ Ok (map (λ c. (c.scale, pairs_of c)) curves))
        (λ fault. settings.sections_at (table_view table.now) ≡ Err fault) }
    ensures axes { IfOk result (λ curves. AreAxisScales (map (λ c. c.scale) curves)) }
{
    let arm1 = section_at(table, "arm1", ARM_END)?;
    let arm2 = section_at(table, "arm2", ARM_END)?;
    let rotation = section_at(table, "rotation", ROTATION_END)?;
    let turn = section_at(table, "turn", TURN_END)?;
    let gripper = section_at(table, "gripper", GRIPPER_END)?;
    Ok([arm1, arm2, rotation, turn, gripper])
}

/// The points of five curves.
pub fn points_of_curves(curves: &[Curve; 5]) -> [Points; 5]
    ensures { result ≡ map (λ c. c.scale) curves.now }
{
    [
        curves[0].points(),
        curves[1].points(),
        curves[2].points(),
        curves[3].points(),
        curves[4].points(),
    ]
}
