//! Laws of calibrated readings. Each is the contract of a function with an empty body.

ghost use Rattle.std.specs.Prelude.{◌≡◌, ℕ, ℤ, ◌-ℤ◌, ◌≤ℤ◌, List};
ghost use Rattle.cell_sensors.specs.Curve.{Pair, IsCurve, IsOnCurve};
ghost use Rattle.cell_sensors.specs.CurveExamples.{CurveExamples};
ghost use Rattle.cell_sensors.specs.CurveFaults.{IsFirstFault};
ghost use Rattle.cell_sensors.specs.Examples.{AnswerExamples, LimitExamples, RoundingExamples};
ghost use Rattle.cell_sensors.specs.LineExamples.{LineExamples};
ghost use Rattle.cell_sensors.specs.SenseExamples.{SenseExamples};
ghost use Rattle.cell_sensors.specs.Scale.{Scale, IsScale};
ghost use Rattle.cell_sensors.specs.Line.{raw_width, IsLineNear, IsWithinTolerance, IsNear, IsRawAt};
ghost use Rattle.cell_sensors.specs.declared.curve.CurveFault.{CurveFault};

/// If a reading is within a window less the tolerance, the exact line is within the window.
pub fn line_in_window()
    ensures { (s : Scale) (raw : ℕ) (v target half : ℤ) → IsScale s
        → IsWithinTolerance s raw v → IsNear v target (half -ℤ s.tol)
        → IsLineNear s raw target half }
{}

/// An ideal sensor gives a raw value at a position, rounded down. A reading of that raw value is
/// within the tolerance of the position, if the scale has at least as many raw values as positions.
pub fn near_position()
    ensures { (s : Scale) (position v : ℤ) (raw : ℕ) → IsScale s
        → (s.at_hi -ℤ s.at_lo) ≤ℤ raw_width s → IsRawAt s position raw
        → IsWithinTolerance s raw v → IsNear v position s.tol }
{}

/// Rounding down, in figures, on scales with no whole number of raw values for a position: the raw
/// value of an ideal sensor, and the position of the line.
pub fn roundings_are_met()
    ensures { RoundingExamples }
{}

/// What a calibrated sensor may answer, in figures.
#[tactic(auto, using(crate::proofs::Rounding::answers))]
pub fn answers_are_met()
    ensures { AnswerExamples }
{}

/// The limits of scales, in figures.
#[tactic(auto, using(crate::proofs::Rounding::limits))]
pub fn limits_are_met()
    ensures { LimitExamples }
{}

/// Heights of a line, windows around a position, tolerances, calibrated sensors and scales, in
/// figures.
#[tactic(auto, using(crate::proofs::LineFigures::lines))]
pub fn lines_are_met()
    ensures { LineExamples }
{}

/// The sensors of each machine out of the fourteen, and which switches exclude each other, in
/// figures.
#[tactic(auto, using(crate::proofs::SenseFigures::senses))]
pub fn senses_are_met()
    ensures { SenseExamples }
{}

/// A curve is at one position at a raw value: neighbours that share it agree there.
pub fn one_position()
    ensures { (s : Scale) (pairs : List Pair) (raw : ℕ) (v w : ℤ) → IsCurve s pairs
        → IsOnCurve pairs raw v → IsOnCurve pairs raw w → w ≡ v }
{}

/// Pairs have one first fault.
pub fn one_first_fault()
    ensures { (s : Scale) (pairs : List Pair) (f g : CurveFault) → IsFirstFault s pairs f
        → IsFirstFault s pairs g → g ≡ f }
{}

/// Curves, in figures: what one that bulges and one that falls below 0 read, the first fault of
/// pairs that make none, and a curve's pairs by their places.
pub fn curves_are_met()
    ensures { CurveExamples }
{}
