//! What is wrong with motors and hazards of a plan.

/// The first fault of motors and hazards, in this order: too many motors, each motor from first to last, each hazard.
/// Motors and hazards are numbers: their places in their tables, from 0.
#[derive(Clone, Copy, Debug, PartialEq, Eq)]
pub enum MotorFault {
    /// There are more than 64 motors.
    TooManyMotors,
    /// A motor's machine isn't in the plan.
    NoSuchMachine { motor: usize },
    /// A motor needs a zone of which its machine is neither host nor guest, or that isn't in the plan.
    ForeignZone { motor: usize, zone: usize },
    /// A motor needs a posture of a zone that its machine doesn't host and doesn't have to hold: another machine could
    /// change it.
    NotHeld { motor: usize, zone: usize },
    /// A motor needs a place that its machine doesn't keep.
    ForeignPlace { motor: usize, place: usize },
    /// No sound state permits a motor.
    NeverPermitted { motor: usize },
    /// A hazard's first motor isn't there.
    NoSuchFirst { hazard: usize },
    /// A hazard's second motor isn't there.
    NoSuchSecond { hazard: usize },
}
