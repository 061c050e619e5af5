//! A potentiometer's calibration, a closure that stays near a line, and what it reads.
ghost use Rattle.std.specs.Prelude.{◌≡◌, ◌≤◌, ◌<◌, ◌↔◌, IsOk, IfOk};
ghost use Rattle.cell_sensors.specs.Scale.{IsScale};
ghost use Rattle.cell_sensors.specs.Line.{IsReading, IsLineRoundedDown};
ghost use Rattle.cell_sensors.specs.Curve.{IsOnCurve, pairs_of};

use crate::curve::Curve;
use crate::gauge::Gauge;
use crate::line::position_on_line;
use crate::points::Points;
use crate::sense::SensorFault;

/// A potentiometer's calibration: a closure from raw values to positions, and the line that the
/// closure stays near.
///
/// The closure may be called with raw values from `raw_lo` to `raw_hi`. It then answers a position
/// from `at_lo` to `at_hi`, within the tolerance of the exact line. The field `near` states this,
/// so code that makes a calibration, or changes a field, has to prove it.
#[derive(Drop)]
pub struct Calibration<F: Gauge> {
    /// The closure, from raw values to positions.
    pub gauge: F,
    /// The points of its line.
    pub points: Points,
    /// The closure is near the points' line.
    pub ghost near: { ∥ F.keeps gauge points ∥₁ },
}

impl<F: Gauge> Calibration<F> {
    /// The calibration of a closure that is near the line of `points`.
    pub fn new(gauge: F, points: Points) -> Calibration<F>
        requires near { F.keeps gauge points }
        ensures gauge { result.gauge ≡ gauge }
        ensures points { result.points ≡ points }
    {
        Calibration { gauge, points }
    }

    /// The points of its line.
    pub fn points(&self) -> Points
        ensures { result ≡ self.now.points }
    {
        self.points
    }

    /// The tolerance of its readings.
    pub fn tol(&self) -> i32
        ensures value { result ≡ self.now.points.tol }
        ensures limits { IsScale self.now.points }
    {
        self.points.tol()
    }

    /// The position at a raw value, as the closure gives it. A raw value below `raw_lo` is `Low`,
    /// one above `raw_hi` is `High`.
    pub fn read(&self, raw: u16) -> Result<i32, SensorFault>
        ensures ok { IsOk result
            ↔ ((self.now.points.raw_lo ≤ raw) × (raw ≤ self.now.points.raw_hi)) }
        ensures low { (result ≡ Err SensorFault.Low) ↔ (raw < self.now.points.raw_lo) }
        ensures high { (result ≡ Err SensorFault.High) ↔ (self.now.points.raw_hi < raw) }
        ensures reading { IfOk result (λ v. IsReading self.now.points raw v) }
        ensures gives { IfOk result (λ v. F.gives self.now.gauge raw v) }
    {
        if raw < self.points.raw_lo() {
            Err(SensorFault::Low)
        } else if raw > self.points.raw_hi() {
            Err(SensorFault::High)
        } else {
            Ok(self.gauge.position(self.points, raw))
        }
    }
}

/// The reading of a calibration whose closure is the exact line, rounded down. A raw value below
/// `raw_lo` is `Low`, one above `raw_hi` is `High`.
pub fn line_reading(points: Points, raw: u16) -> Result<i32, SensorFault>
    ensures ok { IsOk result ↔ ((points.raw_lo ≤ raw) × (raw ≤ points.raw_hi)) }
    ensures low { (result ≡ Err SensorFault.Low) ↔ (raw < points.raw_lo) }
    ensures high { (result ≡ Err SensorFault.High) ↔ (points.raw_hi < raw) }
    ensures floor { IfOk result (λ v. IsLineRoundedDown points raw v) }
{
    reading(move |raw: u16| position_on_line(&points, raw), points, raw)
}

/// The reading of a calibration whose closure is a curve. A raw value below `raw_lo` is `Low`, one
/// above `raw_hi` is `High`.
pub fn curve_reading(curve: Curve, raw: u16) -> Result<i32, SensorFault>
    ensures ok { IsOk result ↔ ((curve.scale.raw_lo ≤ raw) × (raw ≤ curve.scale.raw_hi)) }
    ensures low { (result ≡ Err SensorFault.Low) ↔ (raw < curve.scale.raw_lo) }
    ensures high { (result ≡ Err SensorFault.High) ↔ (curve.scale.raw_hi < raw) }
    ensures curve { IfOk result (λ v. IsOnCurve (pairs_of curve) raw v) }
    ensures near { IfOk result (λ v. IsReading curve.scale raw v) }
{
    reading(move |raw: u16| curve.at(raw), curve.points(), raw)
}

// Makes a closure's calibration and reads by it once. Only a function with the closure's type as a
// parameter can name the calibration's type.
fn reading<F: Gauge>(gauge: F, points: Points, raw: u16) -> Result<i32, SensorFault>
    requires { F.keeps gauge points }
    ensures ok { IsOk result ↔ ((points.raw_lo ≤ raw) × (raw ≤ points.raw_hi)) }
    ensures low { (result ≡ Err SensorFault.Low) ↔ (raw < points.raw_lo) }
    ensures high { (result ≡ Err SensorFault.High) ↔ (points.raw_hi < raw) }
    ensures gives { IfOk result (λ v. F.gives gauge raw v) }
{
    Calibration::new(gauge, points).read(raw)
}
