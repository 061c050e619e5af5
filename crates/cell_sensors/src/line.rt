//! The line of a calibration in whole numbers, for closures that are exactly that line.
ghost use Rattle.std.specs.Prelude.{◌≡◌, ◌+◌, ◌*◌, ◌/◌, ◌≤◌, ◌<◌};
ghost use Rattle.cell_sensors.specs.Line.{IsLineRoundedDown, IsReading};

use crate::points::Points;

/// The line's position at a raw value from `raw_lo` to `raw_hi`, rounded down.
pub fn position_on_line(points: &Points, raw: u16) -> i32
    requires low { points.now.raw_lo ≤ raw }
    requires high { raw ≤ points.now.raw_hi }
    ensures floor { IsLineRoundedDown points.now raw result }
    ensures reading { IsReading points.now raw result }
{
    let raw_lo = points.raw_lo();
    let at_lo = points.at_lo();
    let height = (points.at_hi() - at_lo) as u32;
    at_lo + part_of(height, raw - raw_lo, points.raw_hi() - raw_lo) as i32
}

// The height times `along` over `width`, rounded down.
fn part_of(height: u32, along: u16, width: u16) -> u32
    requires some { 0 < width }
    requires part { along ≤ width }
    ensures value { result ≡ along * height / width }
    ensures within { result ≤ height }
{
    (u64::from(along) * u64::from(height) / u64::from(width)) as u32
}
