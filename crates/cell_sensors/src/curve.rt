//! Curves: a potentiometer's positions by measured pairs, with a straight line from each to the
//! next.

ghost use Rattle.std.specs.Prelude.{◌≡◌, ◌+◌, ◌-◌, ◌*◌, ◌/◌, ◌<◌, ◌≤◌, ◌↔◌, ℕ, ℤ, pos, ◌+ℤ◌, ◌-ℤ◌, ◌≤ℤ◌};
ghost use Rattle.std.specs.Prelude.{IsTrue, IsOk, IfOk, IfErr, length, take};
ghost use Rattle.cell_sensors.specs.Scale.{IsScale};
ghost use Rattle.cell_sensors.specs.Line.{IsReading, IsLineRoundedDown};
ghost use Rattle.cell_sensors.specs.Curve.{AreNearLine, AreNeighbours, HasCount, HasEnds, IsCurve, IsNearPair};
ghost use Rattle.cell_sensors.specs.Curve.{IsOnCurve, IsRising, ends_of, line_through, pair_at, pairs_of};
ghost use Rattle.cell_sensors.specs.Curve.{raw_at};
ghost use Rattle.cell_sensors.specs.CurveFaults.{IsFirstFault};

use crate::points::Points;
use std::marker::Model;

/// The most pairs of a curve.
pub const MAX_PAIRS: usize = 32;

/// A potentiometer's curve: 2 to 32 pairs of a raw value and the position measured there, and a
/// straight line from each to the next.
///
/// The raw values rise from `raw_lo` to `raw_hi` of the points. Each position is within the
/// tolerance less 1 of the points' line, and from `at_lo` to `at_hi`. The unit is that of the
/// points. A curve takes no memory.
#[derive(Clone, Copy, Debug, PartialEq, Eq)]
pub struct Curve {
    points: Points,
    places: [(u16, i32); MAX_PAIRS],
    filled: usize,
}

impl Model for Curve {
    ghost use Rattle.cell_sensors.specs.Curve.{Curved, IsKept};

    ghost Value = { Curved };

    ghost view = { λ c. record { scale = c.points; places = c.places; filled = c.filled } };

    ghost invariant = { λ c. IsKept c.points c.places c.filled };

    ghost inverse = { λ c. record { points = c.scale; places = c.places; filled = c.filled } };
}

/// Why pairs make no curve: the first fault in this order.
#[derive(Clone, Copy, Debug, PartialEq, Eq)]
pub enum CurveFault {
    /// There are fewer than 2 pairs, or more than 32.
    Count,
    /// The first raw value isn't `raw_lo`, or the last isn't `raw_hi`.
    Ends,
    /// A raw value isn't below the next.
    Order,
    /// A pair is off the line by more than the tolerance less 1, or outside `at_lo` to `at_hi`.
    OffLine,
}

impl Curve {
    /// The curve through these pairs of a raw value and a position, near the line of `points`.
    ///
    /// The error is the first fault in the order of `CurveFault`.
    pub fn new(points: Points, pairs: &[(u16, i32)]) -> Result<Curve, CurveFault>
        ensures ok { IsOk result ↔ IsCurve points pairs.now }
        ensures scale { IfOk result (λ c. c.scale ≡ points) }
        ensures pairs { IfOk result (λ c. pairs_of c ≡ pairs.now) }
        ensures fault { IfErr result (λ f. IsFirstFault points pairs.now f) }
    {
        check(points, pairs)?;
        Ok(Curve {
            points,
            places: places_of(pairs),
            filled: pairs.len(),
        })
    }

    /// The curve that is the line of `points`: it answers what `position_on_line` answers.
    pub fn of_line(points: Points) -> Curve
        ensures scale { result.scale ≡ points }
        ensures pairs { pairs_of result ≡ ends_of points }
        ensures line { (raw : ℕ) (v : ℤ) → IsOnCurve (pairs_of result) raw v
            → IsLineRoundedDown points raw v }
    {
        let first = (points.raw_lo(), points.at_lo());
        let last = (points.raw_hi(), points.at_hi());
        Curve::new(points, &[first, last]).unwrap()
    }

    /// The position at a raw value from `raw_lo` to `raw_hi`: on the straight line through the two
    /// pairs next to it, rounded down. It finds them in at most 5 steps, each of which halves the
    /// pairs that are left.
    pub fn at(&self, raw: u16) -> i32
        requires low { self.now.scale.raw_lo ≤ raw }
        requires high { raw ≤ self.now.scale.raw_hi }
        ensures value { IsOnCurve (pairs_of self.now) raw result }
        ensures reading { IsReading self.now.scale raw result }
    {
        let points = self.points();
        let pairs = self.pairs();
        let left = left_of(pairs, raw);
        between(points, pair_of(pairs, left), pair_of(pairs, left + 1), raw)
    }

    /// The points of its line.
    pub fn points(&self) -> Points
        ensures { result ≡ self.now.scale }
    {
        self.points
    }

    /// Its pairs.
    pub fn pairs(&self) -> &[(u16, i32)]
        ensures value { result.now ≡ pairs_of self.now }
        ensures curve { IsCurve self.now.scale result.now }
    {
        &self.places[..self.filled]
    }
}

/// An array that begins with these pairs.
fn places_of(pairs: &[(u16, i32)]) -> [(u16, i32); MAX_PAIRS]
    requires { length pairs.now ≤ 32 }
    ensures { take (length pairs.now) result ≡ pairs.now }
{
    let mut places = [(0, 0); MAX_PAIRS];
    places[..pairs.len()].copy_from_slice(pairs);
    places
}

/// Checks that pairs make a curve near the line of `points`. The error is their first fault.
fn check(points: Points, pairs: &[(u16, i32)]) -> Result<(), CurveFault>
    ensures ok { IsOk result ↔ IsCurve points pairs.now }
    ensures fault { IfErr result (λ f. IsFirstFault points pairs.now f) }
{
    if !has_count(pairs) {
        Err(CurveFault::Count)
    } else if !has_ends(points, pairs) {
        Err(CurveFault::Ends)
    } else if !is_rising(pairs) {
        Err(CurveFault::Order)
    } else if !are_near(points, pairs) {
        Err(CurveFault::OffLine)
    } else {
        Ok(())
    }
}

fn has_count(pairs: &[(u16, i32)]) -> bool
    ensures { IsTrue result ↔ HasCount pairs.now }
{
    2 <= pairs.len() && pairs.len() <= MAX_PAIRS
}

/// Whether the first raw value and the last are those of the points.
fn has_ends(points: Points, pairs: &[(u16, i32)]) -> bool
    requires { 2 ≤ length pairs.now }
    ensures { IsTrue result ↔ HasEnds points pairs.now }
{
    raw_of(pairs, 0) == points.raw_lo() && raw_of(pairs, pairs.len() - 1) == points.raw_hi()
}

/// Whether each raw value is below the next.
fn is_rising(pairs: &[(u16, i32)]) -> bool
    requires { 2 ≤ length pairs.now }
    ensures { IsTrue result ↔ IsRising pairs.now }
{
    'steps: for i in 0..pairs.len() - 1 {
        if raw_of(pairs, i + 1) <= raw_of(pairs, i) {
            return false;
        }
    }
    true
}

/// Whether each pair is near the line.
fn are_near(points: Points, pairs: &[(u16, i32)]) -> bool
    requires ends { HasEnds points pairs.now }
    requires rising { IsRising pairs.now }
    ensures { IsTrue result ↔ AreNearLine points pairs.now }
{
    'pairs: for i in 0..pairs.len() {
        if !is_near(points, pair_of(pairs, i)) {
            return false;
        }
    }
    true
}

/// Whether a pair is within the tolerance less 1 of the line, and from `at_lo` to `at_hi`.
fn is_near(points: Points, pair: (u16, i32)) -> bool
    requires { points.raw_lo ≤ pair.0 }
    ensures { IsTrue result ↔ IsNearPair points pair }
{
    let (raw, position) = pair;
    if position < points.at_lo() || points.at_hi() < position {
        return false;
    }
    let width = u64::from(points.raw_hi() - points.raw_lo());
    let height = u64::from(above(points, position)) * width;
    let line = u64::from(raw - points.raw_lo()) * u64::from(above(points, points.at_hi()));
    let slack = u64::from(slack(points)) * width;
    height.abs_diff(line) <= slack
}

/// How far a position is above the first.
fn above(points: Points, position: i32) -> u32
    requires low { points.at_lo ≤ℤ position }
    requires high { position ≤ℤ points.at_hi }
    ensures value { position ≡ points.at_lo +ℤ pos result }
    ensures within { result ≤ 200000 }
    ensures limits { IsScale points }
{
    (position - points.at_lo()) as u32
}

/// The position at a distance above the first.
fn position_at(points: Points, above: u32) -> i32
    requires { (points.at_lo +ℤ pos above) ≤ℤ points.at_hi }
    ensures { result ≡ points.at_lo +ℤ pos above }
{
    points.at_lo() + above as i32
}

/// The tolerance less 1, which is left for rounding.
fn slack(points: Points) -> u16
    ensures value { points.tol -ℤ pos 1 ≡ pos result }
    ensures within { result < 10 }
{
    (points.tol() - 1) as u16
}

fn pair_of(pairs: &[(u16, i32)], i: usize) -> (u16, i32)
    requires { i < length pairs.now }
    ensures { result ≡ pair_at pairs.now i }
{
    pairs[i]
}

fn raw_of(pairs: &[(u16, i32)], i: usize) -> u16
    requires { i < length pairs.now }
    ensures { result ≡ raw_at pairs.now i }
{
    pair_of(pairs, i).0
}

/// The index of the left one of a raw value's two neighbours.
fn left_of(pairs: &[(u16, i32)], raw: u16) -> usize
    requires some { 2 ≤ length pairs.now }
    requires low { raw_at pairs.now 0 ≤ raw }
    requires high { raw ≤ raw_at pairs.now (length pairs.now - 1) }
    ensures { AreNeighbours pairs.now result raw }
{
    let mut left = 0;
    let mut right = pairs.len() - 1;
    'halves: while right - left > 1 {
        let middle = left + (right - left) / 2;
        if raw_of(pairs, middle) <= raw {
            left = middle;
        } else {
            right = middle;
        }
    }
    left
}

/// The position at a raw value from that of one pair to that of another, on the straight line
/// through both, rounded down.
fn between(points: Points, left: (u16, i32), right: (u16, i32), raw: u16) -> i32
    requires inside { points.raw_lo ≤ left.0 }
    requires left { IsNearPair points left }
    requires right { IsNearPair points right }
    requires rising { left.0 < right.0 }
    requires low { left.0 ≤ raw }
    requires high { raw ≤ right.0 }
    ensures line { IsLineRoundedDown (line_through left right) raw result }
    ensures reading { IsReading points raw result }
{
    let low = above(points, left.1);
    let high = above(points, right.1);
    position_at(points, mean_of(low, high, raw - left.0, right.0 - raw))
}

// The mean of two heights, rounded down: the first weighs as much as the second is away, and the
// second as much as the first is away.
fn mean_of(low: u32, high: u32, from_low: u16, to_high: u16) -> u32
    requires { 0 < from_low + to_high }
    ensures value { result ≡ (to_high * low + from_low * high) / (from_low + to_high) }
    ensures within { (most : ℕ) → low ≤ most → high ≤ most → result ≤ most }
{
    let weighed = u64::from(to_high) * u64::from(low) + u64::from(from_low) * u64::from(high);
    let weight = u64::from(from_low) + u64::from(to_high);
    (weighed / weight) as u32
}
