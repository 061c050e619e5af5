//! Interlocks that are closed, and the states that they leave.

use super::callers::{Step, StepOutcome};
use super::played::{Taken, state_left};
use super::steps::{ABANDONED, OVERTAKEN, PRESS_CLAIMS};
use cell_rules::{Places, State, ZoneState, Zones};
use cell_types::{Answer, Call, Machine, Posture, Zone};

pub(super) type Owned = (Zone, Machine);

const TABLE_1: &[Owned] = &[(Zone::Z1, Machine::Table)];

const TABLE_2: &[Owned] = &[(Zone::Z2, Machine::Table)];

pub(super) const PRESS_3: &[Owned] = &[(Zone::Z3, Machine::Press)];

/// The state without plates in which these zones are owned and all zones are closed.
pub(super) fn state_of(stamp: u32, owned: &[Owned], stopped: bool) -> Option<State> {
    let mut zones = Zones::all_free();
    for (zone, owner) in owned {
        let held = ZoneState {
            owner: Some(*owner),
            flag: false,
            posture: Posture::Closed,
        };
        zones.set(*zone, held);
    }
    State::from_parts(zones, Places::from_flags([false; 10]), stamp, stopped)
}

const WATCH_STOPS: Taken = (
    Machine::Watch,
    Step::Ask(Call::Stop),
    StepOutcome::Settled(Answer::Done, 2),
);

const STOPS: &[Taken] = &[PRESS_CLAIMS, WATCH_STOPS];

// What the row shows, the number of exchanges that a call may lose, the steps, and of the state that
// they leave the stamp, the owned zones, and whether the cell is stopped.
const ROWS: &[(&str, u8, &[Taken], u32, &[Owned], bool)] = &[
    ("at once", 1, &[], 0, &[], false),
    ("overtaken", 2, OVERTAKEN, 3, TABLE_1, false),
    ("stopped", 1, STOPS, 2, PRESS_3, true),
    ("abandoned", 1, ABANDONED, 1, TABLE_2, false),
];

#[test]
fn interlocks_close(rt: HostRuntime) {
    for (shown, tries, steps, stamp, owned, stopped) in ROWS {
        let (left, are_taken) = state_left(&rt, rt.alloc(), 0, *tries, steps);
        let is_right = Some(left) == state_of(*stamp, owned, *stopped);
        assert!(rt; are_taken && is_right, "{shown}");
    }
}
