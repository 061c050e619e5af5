//! The traits of a caller's line to an interlock, whichever interlock it is.

use crate::heard::{Heard, LineFault};
use crate::state::State;
use cell_types::{Call, Machine, Reply};

/// A machine's line to an interlock.
///
/// What a caller knows of its line: the state that the interlock opened with, the history that it
/// has seen, and what came back last. The relation `asks` may say more of a call.
pub trait Line {
    ghost use Rattle.std.specs.Prelude.{◌≡◌, List, Result};
    ghost use Rattle.cell_types.specs.declared.machine.Machine.{Machine};
    ghost use Rattle.cell_types.specs.declared.call.Call.{Call};
    ghost use Rattle.cell_types.specs.declared.answer.Event.{Event};
    ghost use Rattle.cell_types.specs.declared.reply.Reply.{Reply};
    ghost use Rattle.cell_rules.specs.declared.heard.LineFault.{LineFault};
    ghost use Rattle.cell_rules.specs.declared.heard.Heard.{Heard};
    ghost use Rattle.cell_rules.specs.ModelState.{ModelState};
    ghost use Rattle.cell_rules.specs.Sound.{IsSound};
    ghost use Rattle.cell_rules.specs.History.{IsLegal};
    ghost use Rattle.cell_rules.specs.Seen.{SeenAfter, heard_after};

    // The machine that calls on this line.
    ghost machine: { Self → Machine };

    // The state that the interlock opened with.
    ghost opening: { Self → ModelState };

    // The events that the caller has seen, the oldest first.
    ghost seen: { Self → List Event };

    ghost heard: { Self → Heard };

    // What else holds of a call: the line before it, the call, what came back, the line after it.
    ghost asks: { Self → Call → Result Reply LineFault → Self → Type 0 };

    /// The machine that asks.
    fn machine(&self) -> Machine
        ensures { result ≡ machine self.now };

    /// How many calls were asked, and what came back from the last.
    fn heard(&self) -> Heard
        ensures { result ≡ heard self.now };

    /// Makes one call.
    ///
    /// `Memory` if memory ran out: the call was not made, and only what was heard has changed.
    fn ask(&mut self, call: Call) -> Result<Reply, LineFault>
        ensures asks { asks self.old call result self.new }
        ensures machine { machine self.new ≡ machine self.old }
        ensures opening { opening self.new ≡ opening self.old }
        ensures seen { SeenAfter (machine self.old) call result
            (opening self.old) (seen self.old) (seen self.new) }
        ensures heard { heard self.new ≡ heard_after (heard self.old) call result };

    // The interlock opened with a sound state.
    ghost sound: { (l : Self) → IsSound (opening l) };

    // What the caller has seen is a legal history.
    ghost legal: { (l : Self) → IsLegal (opening l) (seen l) };
}

/// A line whose caller can see the whole state, as on the screen of a plant.
pub trait Survey: Line {
    ghost use Rattle.std.specs.Prelude.{◌≡◌};
    ghost use Rattle.cell_rules.specs.History.{after};
    ghost use Rattle.cell_rules.specs.Seen.{Waits};

    // What else holds of a survey: the line before it, and after it.
    ghost surveys: { Self → Self → Type 0 };

    /// The whole state after all that the caller has now seen. No call is made.
    fn survey(&mut self) -> State
        ensures surveys { surveys self.old self.new }
        ensures machine { Self.machine self.new ≡ Self.machine self.old }
        ensures opening { Self.opening self.new ≡ Self.opening self.old }
        ensures heard { Self.heard self.new ≡ Self.heard self.old }
        ensures seen { Waits (Self.machine self.old) (Self.seen self.old) (Self.seen self.new) }
        ensures state { result ≡ after (Self.opening self.new) (Self.seen self.new) };
}
