//! The feed belt as a part: it carries plates, and notes the calls that bring and take them.
ghost use Rattle.std.specs.Prelude.{◌≡◌};
ghost use Rattle.cell_parts.specs.Plant.{feed_at_start, feed_called};

use crate::belt::Belt;
use cell_control::Part;
use cell_devices::FeedAct;
use cell_rules::State;
use cell_sensors::FeedSense;
use cell_types::{Answer, Call, Event, Machine, Zone};

/// The feed belt, with a light barrier.
#[derive(Clone, Copy)]
pub struct FeedPart {
    /// The belt with its plates.
    pub belt: Belt,
}

impl FeedPart {
    /// The feed belt at the start: it doesn't run, and has a plate at each of its places that is
    /// full.
    pub fn start(state: &State) -> FeedPart
        ensures { result.belt ≡ feed_at_start state.now }
    {
        FeedPart {
            belt: Belt::feed(state),
        }
    }
}

impl Part for FeedPart {
    ghost use Rattle.cell_parts.specs.declared.belt.Belt.{Belt};
    ghost use Rattle.cell_parts.specs.Rigs.{feed_rig};

    type Sense = FeedSense;

    type Act = FeedAct;

    ghost State = { Belt };

    ghost Make = { Unit {0} };

    ghost rig = { λ _. feed_rig };

    ghost make = { λ _. tt };

    ghost state = { λ p. p.belt };

    fn sensors(&self) -> FeedSense {
        FeedSense {
            barrier: self.belt.is_seen(),
        }
    }

    // The belt notes only its own machine's calls that are Done: a plate came, moved on or left.
    fn note(&mut self, event: &Event) {
        if event.answer == Answer::Done && event.machine == Machine::Feed {
            self.belt = belt_after_call(self.belt, event.call);
        }
    }

    fn tick(&mut self, act: &FeedAct) {
        self.belt = self.belt.set(act.belt).after_tick();
    }
}

// The belt after a Done call of its own machine.
fn belt_after_call(belt: Belt, call: Call) -> Belt
    ensures { result ≡ feed_called belt call }
{
    match call {
        Call::Take(Zone::Z6) => belt.with_plate_at_entry(),
        Call::Advance => belt.with_plate_at_end(),
        Call::Give(Zone::Z1) => belt.without_plate_at_end(),
        _ => belt,
    }
}
