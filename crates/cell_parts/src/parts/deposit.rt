//! The deposit belt as a part: it carries plates, and notes the calls that bring and take them.
ghost use Rattle.std.specs.Prelude.{◌≡◌};
ghost use Rattle.cell_parts.specs.Plant.{deposit_at_start, deposit_called};

use crate::belt::Belt;
use cell_control::Part;
use cell_devices::DepositAct;
use cell_rules::State;
use cell_sensors::DepositSense;
use cell_types::{Answer, Call, Event, Machine, Zone};

/// The deposit belt, with a light barrier.
#[derive(Clone, Copy)]
pub struct DepositPart {
    /// The belt with its plates.
    pub belt: Belt,
}

impl DepositPart {
    /// The deposit belt at the start: it doesn't run, and has a plate at each of its places that is
    /// full.
    pub fn start(state: &State) -> DepositPart
        ensures { result.belt ≡ deposit_at_start state.now }
    {
        DepositPart {
            belt: Belt::deposit(state),
        }
    }
}

impl Part for DepositPart {
    ghost use Rattle.cell_parts.specs.declared.belt.Belt.{Belt};
    ghost use Rattle.cell_parts.specs.Rigs.{deposit_rig};

    type Sense = DepositSense;

    type Act = DepositAct;

    ghost State = { Belt };

    ghost Make = { Unit {0} };

    ghost rig = { λ _. deposit_rig };

    ghost make = { λ _. tt };

    ghost state = { λ p. p.belt };

    fn sensors(&self) -> DepositSense {
        DepositSense {
            barrier: self.belt.is_seen(),
        }
    }

    // The belt notes only its own machine's calls that are Done: a plate came, moved on or left.
    fn note(&mut self, event: &Event) {
        if event.answer == Answer::Done && event.machine == Machine::Deposit {
            self.belt = belt_after_call(self.belt, event.call);
        }
    }

    fn tick(&mut self, act: &DepositAct) {
        self.belt = self.belt.set(act.belt).after_tick();
    }
}

// The belt after a Done call of its own machine.
fn belt_after_call(belt: Belt, call: Call) -> Belt
    ensures { result ≡ deposit_called belt call }
{
    match call {
        Call::Take(Zone::Z4) => belt.with_plate_at_entry(),
        Call::Advance => belt.with_plate_at_end(),
        Call::Give(Zone::Z5) => belt.without_plate_at_end(),
        _ => belt,
    }
}
