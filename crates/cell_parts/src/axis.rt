//! An axis that its motor moves, for all parts but the belts.
ghost use Rattle.std.specs.Prelude.{◌≡◌, ◌≤ℤ◌};
ghost use Rattle.cell_parts.specs.Axes.{IsWithin, rotation_end};
ghost use Rattle.cell_parts.specs.Plant.{axis_at_rest, set_axis, moved_axis};

use cell_devices::Motor;

/// How far an axis goes in a tick, in tenths of a millimetre or of a degree; also how far a running
/// belt carries its plates.
pub const SPEED: i32 = 20;

/// An axis of the plant, from 0 to its end, with its motor.
#[derive(Clone, Copy, Debug, PartialEq, Eq)]
pub struct Axis {
    /// Its position, in tenths of a millimetre or of a degree.
    pub position: i32,
    /// The last command to its motor.
    pub motor: Motor,
}

impl Axis {
    /// An axis at rest at a position.
    pub fn at_rest(position: i32) -> Axis
        ensures { result ≡ axis_at_rest position }
    {
        Axis {
            position,
            motor: Motor::Off,
        }
    }

    /// The axis after a command to its motor.
    pub fn set(self, motor: Motor) -> Axis
        ensures { result ≡ set_axis self motor }
    {
        Axis { motor, ..self }
    }

    /// The axis a tick later. If its motor is on, it has moved on, but not past its end.
    pub(crate) fn after_tick(self, end: i32) -> Axis
        requires within { IsWithin end self.position }
        requires length { end ≤ℤ rotation_end }
        ensures value { result ≡ moved_axis end self }
        ensures within { IsWithin end result.position }
    {
        let position = match self.motor {
            Motor::Off => self.position,
            Motor::Plus => (self.position + SPEED).min(end),
            Motor::Minus => (self.position - SPEED).max(0),
        };
        Axis { position, ..self }
    }
}
