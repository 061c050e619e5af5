//! An axis with a potentiometer, for the parts of table, robot and crane.
ghost use Rattle.std.specs.Prelude.{◌≡◌, ◌*◌, ◌/◌, ◌≤◌, ◌<◌, ◌≤ℤ◌, pos, ◌<ℤ◌, ◌-ℤ◌};
ghost use Rattle.cell_parts.specs.Axes.{IsWithin, rotation_end};
ghost use Rattle.cell_parts.specs.Plant.{axis_at_rest, set_axis, moved_axis};
ghost use Rattle.cell_parts.specs.Shows.{ShowsRaw};

use crate::axis::Axis;
use cell_devices::Motor;
use cell_sensors::Points;

/// An axis with a potentiometer. It keeps what the sensor shows, which changes only when the axis
/// moves.
#[derive(Drop)]
pub(crate) struct MeasuredAxis {
    /// The axis.
    pub(crate) axis: Axis,
    /// The points of its potentiometer.
    points: Points,
    // What the potentiometer shows.
    raw: u16,
    // The raw value is the position's.
    ghost shows: { ShowsRaw points axis.position raw },
}

impl MeasuredAxis {
    /// An axis at rest at a position. These are the points of its potentiometer.
    pub(crate) fn at_rest(position: i32, points: Points) -> MeasuredAxis
        ensures axis { result.axis ≡ axis_at_rest position }
        ensures points { result.points ≡ points }
    {
        MeasuredAxis {
            axis: Axis::at_rest(position),
            points,
            raw: raw_at(&points, position),
        }
    }

    /// What the potentiometer shows: the raw value of its position.
    pub(crate) fn raw(&self) -> u16
        ensures { ShowsRaw self.now.points self.now.axis.position result }
    {
        self.raw
    }

    /// Sets its motor, and moves for a tick. A new raw value is worked out only if the axis has
    /// moved.
    pub(crate) fn tick(&mut self, motor: Motor, end: i32)
        requires within { IsWithin end self.old.axis.position }
        requires length { end ≤ℤ rotation_end }
        ensures axis { self.new.axis ≡ moved_axis end (set_axis self.old.axis motor) }
        ensures points { self.new.points ≡ self.old.points }
        ensures within { IsWithin end self.new.axis.position }
    {
        let before = self.axis.position;
        self.axis = self.axis.set(motor).after_tick(end);
        if self.axis.position != before {
            self.raw = raw_at(&self.points, self.axis.position);
        }
    }
}

/// The raw value that an ideal sensor gives at a position, rounded down. Beyond the points it is
/// the nearer point's.
pub(crate) fn raw_at(points: &Points, position: i32) -> u16
    ensures { ShowsRaw points.now position result }
{
    let raw_lo = points.raw_lo();
    let length = distance(points.at_lo(), points.at_hi());
    raw_lo + part_of(along(points, position), points.raw_hi() - raw_lo, length)
}

// The distance of a position from the first point. Beyond the points it is that of the nearer
// point.
fn along(points: &Points, position: i32) -> u32
    ensures is { points.now.at_lo ≤ℤ position → position ≤ℤ points.now.at_hi
        → position -ℤ points.now.at_lo ≡ pos result }
    ensures within { pos result ≤ℤ (points.now.at_hi -ℤ points.now.at_lo) }
    ensures below { position <ℤ points.now.at_lo → result ≡ 0 }
    ensures above { points.now.at_hi <ℤ position → pos result ≡ (points.now.at_hi -ℤ points.now.at_lo) }
{
    let at_lo = points.at_lo();
    let at_hi = points.at_hi();
    if position < at_lo {
        0
    } else if position > at_hi {
        distance(at_lo, at_hi)
    } else {
        distance(at_lo, position)
    }
}

// How far the second position is above the first.
fn distance(from: i32, to: i32) -> u32
    requires { from ≤ℤ to }
    ensures { to -ℤ from ≡ pos result }
{
    (i64::from(to) - i64::from(from)) as u32
}

// The share of a width that `along` is of a length, rounded down.
fn part_of(along: u32, width: u16, length: u32) -> u16
    requires some { 0 < length }
    requires part { along ≤ length }
    ensures value { result ≡ along * width / length }
    ensures within { result ≤ width }
{
    (u64::from(along) * u64::from(width) / u64::from(length)) as u16
}
