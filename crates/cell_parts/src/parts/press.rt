//! The press as a part: its axis, and what its three switches show.
ghost use Rattle.std.specs.Prelude.{◌≡◌};
ghost use Rattle.cell_parts.specs.Axes.{IsWithin, press_end};
ghost use Rattle.cell_parts.specs.Plant.{press_at_start};

use crate::axis::Axis;
use cell_control::Part;
use cell_devices::PressAct;
use cell_sensors::PressSense;
use cell_types::Event;
use std::marker::Model;

/// The press's top; its bottom is 0.
pub const PRESS_END: i32 = 1000;

/// The highest position at which the switch at the bottom is on.
pub const PRESS_BOTTOM_TO: i32 = 10;

/// The lowest position at which the switch at the middle is on.
pub const PRESS_MIDDLE_FIRST: i32 = 490;

/// The highest position at which the switch at the middle is on.
pub const PRESS_MIDDLE_LAST: i32 = 510;

/// The lowest position at which the switch at the top is on.
pub const PRESS_TOP_FROM: i32 = 990;

/// The press: an axis from 0 to 1000, with a switch at its bottom, its middle and its top.
#[derive(Clone, Copy)]
pub struct PressPart {
    axis: Axis,
}

impl Model for PressPart {
    ghost use Rattle.cell_parts.specs.declared.axis.Axis.{Axis};
    ghost use Rattle.cell_parts.specs.Axes.{IsWithin, press_end};

    ghost Value = { Axis };

    ghost view = { λ p. p.axis };

    ghost invariant = { λ p. IsWithin press_end p.axis.position };

    ghost inverse = { λ a. record { axis = a } };
}

impl PressPart {
    /// The press at the start: at its top.
    pub fn start() -> PressPart
        ensures { result ≡ press_at_start }
    {
        PressPart {
            axis: Axis::at_rest(PRESS_END),
        }
    }

    /// Its axis, with its motor.
    pub fn plant(&self) -> Axis
        ensures { result ≡ self.now }
    {
        self.axis
    }

    /// Its position, in tenths of a millimetre.
    pub fn position(&self) -> i32
        ensures value { result ≡ self.now.position }
        ensures within { IsWithin press_end result }
    {
        self.axis.position
    }
}

impl Part for PressPart {
    ghost use Rattle.cell_parts.specs.declared.axis.Axis.{Axis};
    ghost use Rattle.cell_parts.specs.Rigs.{press_rig};

    type Sense = PressSense;

    type Act = PressAct;

    ghost State = { Axis };

    ghost Make = { Unit {0} };

    ghost rig = { λ _. press_rig };

    ghost make = { λ _. tt };

    ghost state = { λ p. p };

    fn sensors(&self) -> PressSense {
        let position = self.axis.position;
        PressSense {
            bottom: position <= PRESS_BOTTOM_TO,
            middle: PRESS_MIDDLE_FIRST <= position && position <= PRESS_MIDDLE_LAST,
            top: PRESS_TOP_FROM <= position,
        }
    }

    fn note(&mut self, _event: &Event) {}

    fn tick(&mut self, act: &PressAct) {
        self.axis = self.axis.set(act.press).after_tick(PRESS_END);
    }
}
