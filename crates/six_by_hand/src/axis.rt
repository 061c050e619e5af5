//! An axis with a motor.

ghost use Rattle.std.specs.Prelude.{◌≡◌};
ghost use Rattle.six_by_hand.specs.Devices as devices;

use cell_devices::Motor;

/// How far an axis or a belt goes in a turn.
pub const STEP: u16 = 20;

/// An axis that goes from 0 to its end. Its potentiometer's raw value is its position.
#[derive(Clone, Copy, Debug)]
pub struct Axis {
    at: u16,
    end: u16,
}

impl Axis {
    /// An axis that stands here.
    pub fn new(at: u16, end: u16) -> Axis {
        Axis { at, end }
    }

    /// Its position, in tenths of a millimetre or of a degree.
    pub fn at(&self) -> u16
        ensures { result ≡ devices.position self.now }
    {
        self.at
    }

    /// Whether a switch from `first` to `last` is on.
    pub fn is_between(&self, first: u16, last: u16) -> bool
        ensures { result ≡ devices.is_between first last self.now }
    {
        first <= self.at && self.at <= last
    }

    /// Goes a step as its motor is told, and not past its ends.
    pub fn drive(&mut self, motor: Motor)
        ensures { self.new ≡ devices.driven motor self.old }
    {
        self.at = match motor {
            Motor::Off => self.at,
            Motor::Plus => self.at.saturating_add(STEP).min(self.end),
            Motor::Minus => self.at.saturating_sub(STEP),
        };
    }
}
