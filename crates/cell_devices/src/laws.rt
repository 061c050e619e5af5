//! Examples of directions and drives. They are the contract of a function with an empty body.
ghost use Rattle.cell_devices.specs.Examples.{DevicesAreMet};

/// Figures: the last direction after each command; how far a reading may be off the line; a motor
/// that is off may not leave the line farther from its stop than half, and one that is on may not
/// have reached it; the motor at each side of a stop; the limits of arms, crane and stops.
pub fn devices_are_met()
    ensures { DevicesAreMet }
{}
