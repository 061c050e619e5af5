//! The trait by which a calibration calls its closure, and knows what the closure keeps.
ghost use Rattle.std.specs.Prelude.{ℕ, ℤ, ◌≤◌};
ghost use Rattle.cell_sensors.specs.Scale.{Scale};
ghost use Rattle.cell_sensors.specs.Line.{KeepsCalibration, IsReading};

use crate::points::Points;

/// A function from raw values to positions. Every closure from `u16` to `i32` is one.
///
/// A struct can state a fact about the members of a trait of its own project, but not about what a
/// closure requires and ensures. So a calibration uses its closure through this trait.
pub trait Gauge: Drop {
    // It may be called with a scale's raw values from raw_lo to raw_hi, and stays near its line.
    ghost keeps: { Self → Scale → Type 0 };

    // What it may give at a raw value.
    ghost gives: { Self → ℕ → ℤ → Type 0 };

    /// The position at a raw value from `raw_lo` to `raw_hi`, near the line of `points`.
    fn position(&self, points: Points, raw: u16) -> i32
        requires keeps { ∥ keeps self.now points ∥₁ }
        requires low { points.raw_lo ≤ raw }
        requires high { raw ≤ points.raw_hi }
        ensures reading { IsReading points raw result }
        ensures gives { gives self.now raw result };
}

impl<F: Fn(u16) -> i32> Gauge for F {
    ghost keeps = { λ f s. KeepsCalibration (F.pre f) (F.post f) s };

    ghost gives = { λ f raw v. F.post f raw v };

    fn position(&self, points: Points, raw: u16) -> i32 {
        reveal(self, points);
        self(raw)
    }
}

// It is enough that the fact has a proof: no computed value depends on which proof.
fn reveal<F: Fn(u16) -> i32>(f: &F, points: Points)
    requires { ∥ KeepsCalibration (F.pre f.now) (F.post f.now) points ∥₁ }
    ensures { KeepsCalibration (F.pre f.now) (F.post f.now) points }
{}
