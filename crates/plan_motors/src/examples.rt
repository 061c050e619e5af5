//! Motors of the press and of the lift of `plan_types`.
ghost use Rattle.std.specs.Prelude.{◌≡◌, None};
ghost use Rattle.plan_motors.specs.Examples as examples;
ghost use Rattle.plan_motors.specs.Examples.{CausesAreRight, StatesForBoth, MasksAreRight, FirstFaults, FaultsInOrder};
ghost use Rattle.plan_motors.specs.RunExamples.{RunsAreRight};
ghost use Rattle.plan_motors.specs.NeedExamples.{NeedsAreRight, PermitsAreRight, BadAnswers, AnswersTell};
ghost use Rattle.plan_motors.specs.PartExamples.{PartsAreRight};
ghost use Rattle.plan_motors.specs.SpaceExamples.{SpaceCauses, SpaceMasks, SpacePermits, SpaceFaults};
ghost use Rattle.plan_motors.specs.PoseExamples.{GatesAreApart, PosesLeadOn, PosesAreTaken, PosturesAreOf};

use crate::motor::{Motor, NO_NEED, ZoneNeed};
use plan_rules::laws::lawful_histories;
use plan_types::{MAX_PLACES, MAX_ZONES, Posture};

fn motor(machine: u8, first: ZoneNeed, second: ZoneNeed) -> Motor
    ensures { result ≡ examples.motor machine first second None None }
{
    let mut zones = [NO_NEED; MAX_ZONES];
    zones[0] = first;
    zones[1] = second;
    Motor {
        machine,
        zones,
        places: [None; MAX_PLACES],
    }
}

/// The press's ram: it is driven only while the press holds its zone, which moves.
pub fn ram() -> Motor
    ensures { result ≡ examples.ram }
{
    let moving = ZoneNeed {
        holds: true,
        posture: Some(Posture::Moving),
    };
    motor(1, moving, NO_NEED)
}

const HELD: ZoneNeed = ZoneNeed {
    holds: true,
    posture: None,
};

/// The loader's arm in the press, driven or not.
pub fn arm() -> Motor
    ensures { result ≡ examples.arm }
{
    motor(0, HELD, NO_NEED)
}

/// The gate of the lift's lower floor.
pub fn lower_gate() -> Motor
    ensures { result ≡ examples.lower_gate }
{
    motor(1, HELD, NO_NEED)
}

/// The gate of its upper floor.
pub fn upper_gate() -> Motor
    ensures { result ≡ examples.upper_gate }
{
    motor(2, NO_NEED, HELD)
}

/// Which zone or place keeps literal motors apart, and the states that permit others both.
pub fn causes_are_right()
    ensures causes { CausesAreRight }
    ensures states { StatesForBoth }
{}

/// The bits that literal motors look at.
pub fn masks_are_right()
    ensures { MasksAreRight }
{}

/// Motors and hazards that don't fit a plan, and the first fault of each.
pub fn first_faults()
    ensures faults { FirstFaults }
    ensures order { FaultsInOrder }
{}

/// What the machines of the press may run after literal histories, and which calls end it.
pub fn runs_are_right()
    ensures { RunsAreRight }
{
    lawful_histories();
}

/// What literal motors need, which states permit them, and answers that aren't shown. And the parts of exclusions, of
/// masks and of poses, and what fits a plan, or doesn't by one rule.
pub fn needs_are_right()
    ensures needs { NeedsAreRight }
    ensures states { PermitsAreRight }
    ensures shown { BadAnswers }
    ensures answers { AnswersTell }
    ensures parts { PartsAreRight }
{}

/// The lift's gates are kept apart by its poses alone; and which literal poses are taken.
pub fn poses_are_right()
    ensures gates { GatesAreApart }
    ensures lead { PosesLeadOn }
    ensures poses { PosesAreTaken }
    ensures postures { PosturesAreOf }
{
    lawful_histories();
}

/// Of a press with two robots, whose zones are of one space: what keeps its motors apart, which bits they look at,
/// which states permit them, and which don't fit.
pub fn spaces_are_met()
    ensures causes { SpaceCauses }
    ensures masks { SpaceMasks }
    ensures permits { SpacePermits }
    ensures faults { SpaceFaults }
{}
