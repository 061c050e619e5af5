//! Drives to a stop by a calibrated reading, for the programs of table, robot and crane.
ghost use Rattle.std.specs.Prelude.{◌≡◌, ◌↔◌, pos, ◌+ℤ◌, ◌-ℤ◌, ◌*ℤ◌, ◌≤ℤ◌, ◌<ℤ◌, ◌≤◌, IfSome};
ghost use Rattle.cell_sensors.specs.Line.{IsNear};
ghost use Rattle.cell_devices.specs.Drives.{MovesLine, DrivesTo, narrowest_half, coarsest_tol};

use crate::motor::Motor;
use crate::stops::Stop;

/// Drives towards a stop by a reading. The motor is off if the reading is at most `half` less the
/// tolerance from the target. Otherwise it goes plus from below and minus from above.
///
/// So if the reading is within the tolerance of the exact line: while the motor is off, the line is
/// at most `half` from the target; while it is on, the line is on the side that it drives from.
pub fn drive(stop: Stop, tol: i32, read: i32) -> Motor
    requires { (pos 2 *ℤ tol) ≤ℤ pos stop.half }
    ensures off { (result ≡ Motor.Off) ↔ IsNear read stop.target (pos stop.half -ℤ tol) }
    ensures plus { (result ≡ Motor.Plus) ↔ (read <ℤ (stop.target -ℤ (pos stop.half -ℤ tol))) }
    ensures minus { (result ≡ Motor.Minus) ↔ ((stop.target +ℤ (pos stop.half -ℤ tol)) <ℤ read) }
    ensures line { MovesLine stop.target (pos stop.half) tol read result }
{
    let above = i64::from(read) - i64::from(stop.target);
    towards(above, i64::from(stop.half) - i64::from(tol))
}

// Off within a window around 0, plus below it, minus above it.
fn towards(above: i64, window: i64) -> Motor
    requires { pos 0 ≤ℤ window }
    ensures off { (result ≡ Motor.Off) ↔ IsNear above (pos 0) window }
    ensures plus { (result ≡ Motor.Plus) ↔ ((above +ℤ window) <ℤ pos 0) }
    ensures minus { (result ≡ Motor.Minus) ↔ (window <ℤ above) }
{
    if above < -window {
        Motor::Plus
    } else if above > window {
        Motor::Minus
    } else {
        Motor::Off
    }
}

/// Drives towards the stop of a step, by a reading. Without a stop the motor is off.
pub fn drive_to(stop: Option<Stop>, tol: i32, read: i32) -> Motor
    requires half { IfSome stop (λ s. narrowest_half ≤ s.half) }
    requires coarsest { tol ≤ℤ coarsest_tol }
    ensures { DrivesTo stop tol read result }
{
    match stop {
        Some(stop) => drive(stop, tol, read),
        None => Motor::Off,
    }
}
