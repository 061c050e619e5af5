//! The trait of a machine's line to the interlock of a plan, whichever interlock it is.

use plan_types::{Answer, Call};

/// A machine's line to the interlock of a plan.
///
/// What a caller knows of its line: the plan, the machine that calls, the state that the interlock opened with, and the
/// events that the caller has seen. The relation `asks` may say more of a call.
pub trait PlanLine {
    ghost use Rattle.std.specs.Prelude.{◌≡◌, ℕ, List, Option};
    ghost use Rattle.plan_types.specs.declared.call.Call.{Call};
    ghost use Rattle.plan_types.specs.declared.answer.Answer.{Answer};
    ghost use Rattle.plan_types.specs.declared.answer.Event.{Event};
    ghost use Rattle.plan_types.specs.Table.{PlanTable};
    ghost use Rattle.plan_types.specs.Plan.{IsPlan};
    ghost use Rattle.plan_rules.specs.declared.state.State.{State};
    ghost use Rattle.plan_rules.specs.Sound.{IsSound};
    ghost use Rattle.plan_rules.specs.History.{IsLegal};
    ghost use Rattle.plan_controller.specs.Seen.{SeenAfter};

    // The plan's tables.
    ghost table: { Self → PlanTable };

    // The machine that calls on this line.
    ghost machine: { Self → ℕ };

    // The state that the interlock opened with.
    ghost opening: { Self → State };

    // The events that the caller has seen, the oldest first.
    ghost seen: { Self → List Event };

    // What else holds of a call: the line before it, the call, what came back, the line after it.
    ghost asks: { Self → Call → Option Answer → Self → Type 0 };

    /// The machine that calls.
    fn machine(&self) -> u8
        ensures { result ≡ machine self.now };

    /// Makes one call. `None` if it wasn't made, as by an interlock that is busy.
    fn ask(&mut self, call: Call) -> Option<Answer>
        ensures asks { asks self.old call result self.new }
        ensures table { table self.new ≡ table self.old }
        ensures machine { machine self.new ≡ machine self.old }
        ensures opening { opening self.new ≡ opening self.old }
        ensures seen { SeenAfter (machine self.old) call result (seen self.old) (seen self.new) };

    // The tables are a plan's.
    ghost plan: { (l : Self) → IsPlan (table l) };

    // The interlock opened with a sound state.
    ghost sound: { (l : Self) → IsSound (table l) (opening l) };

    // What the caller has seen is a legal history.
    ghost legal: { (l : Self) → IsLegal (table l) (opening l) (seen l) };
}
