//! What a calibration is measured by: two points, a tolerance, and the limits of all numbers.
ghost use Rattle.std.specs.Prelude.{◌≡◌, ◌<◌, ◌↔◌};

use std::marker::Model;

/// The line of a potentiometer through two points, and how far a reading may be off it.
///
/// Raw values are sensor counts. Positions and the tolerance are tenths of a millimetre, or of a
/// degree. Every `Points` has `raw_lo < raw_hi`, `at_lo < at_hi`, both positions from -100,000 to
/// 100,000, and a tolerance from 1 to 10.
#[derive(Clone, Copy, Debug, PartialEq, Eq)]
pub struct Points {
    raw_lo: u16,
    raw_hi: u16,
    at_lo: i32,
    at_hi: i32,
    tol: i32,
}

impl Model for Points {
    ghost use Rattle.cell_sensors.specs.Scale.{Scale, IsScale, scale_by};

    ghost Value = { Scale };

    ghost view = { λ p. scale_by p.raw_lo p.raw_hi p.at_lo p.at_hi p.tol };

    ghost invariant = { λ p. IsScale (scale_by p.raw_lo p.raw_hi p.at_lo p.at_hi p.tol) };

    ghost inverse = { λ s. record {
      raw_lo = s.raw_lo;
      raw_hi = s.raw_hi;
      at_lo = s.at_lo;
      at_hi = s.at_hi;
      tol = s.tol;
    } };
}

/// Why there is no line through two points.
#[derive(Clone, Copy, Debug, PartialEq, Eq)]
pub enum PointsFault {
    /// A number is outside its limits, or the two points don't rise.
    Range,
}

impl Points {
    ghost use Rattle.cell_sensors.specs.Scale.{IsScale, scale_by};

    /// The farthest that a point's position may be from 0.
    pub const MAX_POSITION: i32 = 100_000;

    /// The greatest tolerance.
    pub const MAX_TOL: i32 = 10;

    /// The line through (`raw_lo`, `at_lo`) and (`raw_hi`, `at_hi`) with a tolerance.
    ///
    /// `Range` exactly if the numbers are outside the limits of the type.
    pub fn new(
        raw_lo: u16,
        raw_hi: u16,
        at_lo: i32,
        at_hi: i32,
        tol: i32,
    ) -> Result<Points, PointsFault>
        ensures ok { (result ≡ Ok (scale_by raw_lo raw_hi at_lo at_hi tol))
            ↔ IsScale (scale_by raw_lo raw_hi at_lo at_hi tol) }
        ensures range { (result ≡ Err PointsFault.Range)
            ↔ ¬ (IsScale (scale_by raw_lo raw_hi at_lo at_hi tol)) }
    {
        let rises = raw_lo < raw_hi && at_lo < at_hi;
        let within = -Points::MAX_POSITION <= at_lo && at_hi <= Points::MAX_POSITION;
        if rises && within && 1 <= tol && tol <= Points::MAX_TOL {
            Ok(Points {
                raw_lo,
                raw_hi,
                at_lo,
                at_hi,
                tol,
            })
        } else {
            Err(PointsFault::Range)
        }
    }

    /// The least raw value of the line.
    pub fn raw_lo(&self) -> u16
        ensures value { result ≡ self.now.raw_lo }
        ensures limits { IsScale self.now }
    {
        self.raw_lo
    }

    /// The greatest raw value of the line.
    pub fn raw_hi(&self) -> u16
        ensures value { result ≡ self.now.raw_hi }
        ensures limits { IsScale self.now }
    {
        self.raw_hi
    }

    /// The position at the least raw value.
    pub fn at_lo(&self) -> i32
        ensures value { result ≡ self.now.at_lo }
        ensures limits { IsScale self.now }
    {
        self.at_lo
    }

    /// The position at the greatest raw value.
    pub fn at_hi(&self) -> i32
        ensures value { result ≡ self.now.at_hi }
        ensures limits { IsScale self.now }
    {
        self.at_hi
    }

    /// How far a reading may be off the line.
    pub fn tol(&self) -> i32
        ensures value { result ≡ self.now.tol }
        ensures limits { IsScale self.now }
    {
        self.tol
    }
}
