//! Why a line may not run its motors.
use plan_types::Posture;

/// What a motor needs that its machine doesn't know.
#[derive(Clone, Copy, Debug, PartialEq, Eq)]
pub enum Lack {
    /// There is no such motor.
    NoSuchMotor,
    /// The motor is this machine's.
    OtherMachine(u8),
    /// The machine isn't known to hold this zone.
    NotHeld(u8),
    /// A zone isn't known to have the posture.
    NotInPosture {
        /// The zone.
        zone: u8,
        /// The posture that the motor needs.
        needed: Posture,
        /// The one that is known, if any is.
        known: Option<Posture>,
    },
    /// A place isn't known to be full, or to be empty.
    NotFilled {
        /// The place.
        place: u8,
        /// Whether the motor needs it full.
        needed: bool,
        /// Whether it is full, as far as that is known.
        known: Option<bool>,
    },
}

/// A line that runs a motor of which the machine doesn't know all that it needs.
#[derive(Clone, Copy, Debug, PartialEq, Eq)]
pub struct Undriven {
    /// The line, from 0.
    pub line: usize,
    /// The motor, by its number.
    pub motor: u8,
    /// What it lacks.
    pub lack: Lack,
}
