//! Steps that overlap as each row says, and their outcomes.

use super::callers::{Step, StepOutcome};
use super::played::{Taken, state_left};
use cell_types::{Answer, Call, Machine, Pose, Posture, Refusal, Zone};

const CLAIM_1: Call = Call::Claim(Zone::Z1);

const CLAIM_3: Call = Call::Claim(Zone::Z3);

const CLAIM_6: Call = Call::Claim(Zone::Z6);

const RELEASE_3: Call = Call::Release(Zone::Z3);

const HELD: Answer = Answer::Refused(Refusal::Held(Machine::Press));

const SHUT: Answer = Answer::Refused(Refusal::Shut(Posture::Closed));

const STOPPED: Answer = Answer::Refused(Refusal::Stopped);

const STRANGER: Answer = Answer::Refused(Refusal::NotParty);

const WORN: Answer = Answer::Refused(Refusal::Worn);

const SHOWN: Answer = Answer::Shown {
    owner: Some(Machine::Press),
    flag: false,
    posture: Posture::Closed,
};

const FREE: Answer = Answer::Shown {
    owner: None,
    flag: false,
    posture: Posture::Closed,
};

const DONE_1: StepOutcome = StepOutcome::Settled(Answer::Done, 1);

const DONE_2: StepOutcome = StepOutcome::Settled(Answer::Done, 2);

const DONE_3: StepOutcome = StepOutcome::Settled(Answer::Done, 3);

const DONE_4: StepOutcome = StepOutcome::Settled(Answer::Done, 4);

const DONE_5: StepOutcome = StepOutcome::Settled(Answer::Done, 5);

pub const TABLE_LOOKS: Taken = (Machine::Table, Step::Look(CLAIM_1), StepOutcome::Pending);

const TABLE_LOSES: Taken = (Machine::Table, Step::Attempt, StepOutcome::Lost);

pub const PRESS_CLAIMS: Taken = (Machine::Press, Step::Ask(CLAIM_3), DONE_1);

const PRESS_RELEASES: Taken = (Machine::Press, Step::Ask(RELEASE_3), DONE_2);

const FEED_CLAIMS: Taken = (Machine::Feed, Step::Ask(CLAIM_6), DONE_3);

// No machine has seen what the others did, and no call is overtaken.
const APART: &[Taken] = &[
    (Machine::Press, Step::Ask(CLAIM_3), DONE_1),
    (Machine::Table, Step::Ask(CLAIM_1), DONE_2),
    (Machine::Feed, Step::Look(CLAIM_6), StepOutcome::Pending),
    (Machine::Feed, Step::Attempt, DONE_3),
];

// The zones are as they were, but the word isn't.
pub const OVERTAKEN: &[Taken] = &[
    (Machine::Table, Step::Look(CLAIM_1), StepOutcome::Pending),
    (Machine::Press, Step::Ask(CLAIM_3), DONE_1),
    (Machine::Table, Step::Attempt, StepOutcome::Lost),
    (Machine::Press, Step::Ask(RELEASE_3), DONE_2),
    (Machine::Table, Step::Attempt, StepOutcome::Busy(2, 2)),
    (Machine::Table, Step::Ask(CLAIM_1), DONE_3),
];

const REFUSED: &[Taken] = &[
    (Machine::Press, Step::Ask(CLAIM_3), DONE_1),
    (
        Machine::Press,
        Step::Ask(Call::Inquire(Zone::Z3)),
        StepOutcome::Settled(SHOWN, 1),
    ),
    (
        Machine::Robot,
        Step::Ask(CLAIM_3),
        StepOutcome::Settled(HELD, 1),
    ),
    (
        Machine::Watch,
        Step::Look(Call::Inquire(Zone::Z3)),
        StepOutcome::Settled(SHOWN, 1),
    ),
    (
        Machine::Feed,
        Step::Look(CLAIM_3),
        StepOutcome::Settled(STRANGER, 1),
    ),
];

// A lost exchange finds a word that refuses the call.
const REFUSED_LATE: &[Taken] = &[
    (Machine::Press, Step::Ask(CLAIM_3), DONE_1),
    (
        Machine::Press,
        Step::Ask(Call::SetPose(Pose::Travelling)),
        DONE_2,
    ),
    (
        Machine::Press,
        Step::Ask(Call::SetPose(Pose::Middle)),
        DONE_3,
    ),
    (Machine::Press, Step::Ask(RELEASE_3), DONE_4),
    (Machine::Robot, Step::Look(CLAIM_3), StepOutcome::Pending),
    (Machine::Press, Step::Ask(CLAIM_3), DONE_5),
    (Machine::Robot, Step::Attempt, StepOutcome::Settled(HELD, 5)),
];

const WORN_LATE: &[Taken] = &[
    (Machine::Table, Step::Look(CLAIM_1), StepOutcome::Pending),
    (
        Machine::Press,
        Step::Ask(CLAIM_3),
        StepOutcome::Settled(Answer::Done, 1_048_575),
    ),
    (
        Machine::Table,
        Step::Attempt,
        StepOutcome::Settled(WORN, 1_048_575),
    ),
];

// The stop comes between a look and its exchange.
const STOPPED_LATE: &[Taken] = &[
    (Machine::Press, Step::Look(CLAIM_3), StepOutcome::Pending),
    (Machine::Watch, Step::Ask(Call::Stop), DONE_1),
    (
        Machine::Press,
        Step::Attempt,
        StepOutcome::Settled(STOPPED, 1),
    ),
];

// No call of others comes between.
pub const ALONE: &[Taken] = &[TABLE_LOOKS, (Machine::Table, Step::Attempt, DONE_1)];

const LOST_ONCE: &[Taken] = &[
    TABLE_LOOKS,
    PRESS_CLAIMS,
    TABLE_LOSES,
    (Machine::Table, Step::Attempt, DONE_2),
];

const LOST_TWICE: &[Taken] = &[
    TABLE_LOOKS,
    PRESS_CLAIMS,
    TABLE_LOSES,
    PRESS_RELEASES,
    TABLE_LOSES,
    (Machine::Table, Step::Attempt, DONE_3),
];

const LOST_THRICE: &[Taken] = &[
    TABLE_LOOKS,
    PRESS_CLAIMS,
    TABLE_LOSES,
    PRESS_RELEASES,
    TABLE_LOSES,
    FEED_CLAIMS,
    (Machine::Table, Step::Attempt, StepOutcome::Busy(3, 3)),
];

// The table hasn't seen the changes, but they come before its load.
const UNSEEN: &[Taken] = &[
    PRESS_CLAIMS,
    PRESS_RELEASES,
    FEED_CLAIMS,
    (
        Machine::Table,
        Step::Ask(CLAIM_1),
        StepOutcome::Settled(Answer::Done, 4),
    ),
];

// A refusal makes no other call lose an exchange.
const UNDISTURBED: &[Taken] = &[
    (Machine::Table, Step::Look(CLAIM_1), StepOutcome::Pending),
    (
        Machine::Robot,
        Step::Ask(CLAIM_3),
        StepOutcome::Settled(SHUT, 0),
    ),
    (Machine::Table, Step::Attempt, DONE_1),
];

// The abandoned call was never made.
pub const ABANDONED: &[Taken] = &[
    TABLE_LOOKS,
    (Machine::Table, Step::Abandon, StepOutcome::Abandoned),
    (Machine::Table, Step::Ask(Call::Claim(Zone::Z2)), DONE_1),
    (
        Machine::Watch,
        Step::Ask(Call::Inquire(Zone::Z1)),
        StepOutcome::Settled(FREE, 1),
    ),
    (Machine::Table, Step::Attempt, StepOutcome::OutOfTurn),
];

// What the row shows, the number of exchanges that a call may lose, the first stamp, and the steps.
const ROWS: &[(&str, u8, u32, &[Taken])] = &[
    ("apart", 1, 0, APART),
    ("alone", 3, 0, ALONE),
    ("lost once", 3, 0, LOST_ONCE),
    ("lost twice", 3, 0, LOST_TWICE),
    ("lost thrice", 3, 0, LOST_THRICE),
    ("unseen", 3, 0, UNSEEN),
    ("overtaken", 2, 0, OVERTAKEN),
    ("refused", 1, 0, REFUSED),
    ("refused late", 3, 0, REFUSED_LATE),
    ("worn late", 1, 1_048_574, WORN_LATE),
    ("stopped late", 1, 0, STOPPED_LATE),
    ("undisturbed", 1, 0, UNDISTURBED),
    ("abandoned", 1, 0, ABANDONED),
];

#[test]
fn steps_overlap(rt: HostRuntime) {
    for (shown, tries, first, steps) in ROWS {
        let (_, are_taken) = state_left(&rt, rt.alloc(), *first, *tries, steps);
        assert!(rt; are_taken, "{shown}");
    }
}
