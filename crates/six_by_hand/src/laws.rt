//! Laws of the six machines and of rounds, each the contract of a function that does nothing.

ghost use Rattle.six_by_hand.specs.DeviceExamples.{MovesAreMet, SensorsAreMet};
ghost use Rattle.six_by_hand.specs.DeviceLaws.{DevicesByNumber};
ghost use Rattle.six_by_hand.specs.RoundExamples.{RoundsAreMet};

/// Examples: what the sensors show, at the first and at the last position where a switch is on.
pub fn sensors_are_met()
    ensures { SensorsAreMet }
{}

/// Examples: how axes, belts and machines move in a turn.
pub fn moves_are_met()
    ensures { MovesAreMet }
{}

/// At whatever number: how axes and belts move in a turn, and when a switch is on.
pub fn devices_by_number()
    ensures { DevicesByNumber }
{}

/// What a round that an audit is handed has to be, in other words.
pub fn rounds_are_met()
    ensures { RoundsAreMet }
{}
