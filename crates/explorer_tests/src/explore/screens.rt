//! How plates starve. The numbers of turns are those that plain Rust finds, written apart from the proved program.

use super::doubles::run_unseen;
use cell_config::read_config;
use cell_configured::simulate_configured;
use cell_types::{Answer, Call, Entry, Machine, Posture, Refusal, Zone};
use std::alloc::Global;

/// What the screen of how plates starve begins with: the robot goes round past the press.
const STARVING: &str = "\
# plates 1
# no plate moves any more, if after 127 turns these go on for ever:
# feed waits for crane: take z6: notowner free
# table waits for feed: take z1: notowner free
# deposit waits for robot: take z4: notowner free
# crane waits for deposit: inquire z5: zone deposit 0 closed
# robot goes on: claim z3: done
# press waits for robot: claim z3: held robot
# robot goes on: inquire z3: zone robot 0 openout
# robot goes on: release z3: done
start = \"1000000000\"
schedule = \"f";

/// What each of the six machines asks last in a simulation of that schedule, and what it is answered.
const LAST: [(Call, Answer); 6] = [
    (Call::Take(Zone::Z6), UNOWNED),
    (Call::Take(Zone::Z1), UNOWNED),
    (Call::Release(Zone::Z3), Answer::Done),
    (
        Call::Claim(Zone::Z3),
        Answer::Refused(Refusal::Held(Machine::Robot)),
    ),
    (Call::Take(Zone::Z4), UNOWNED),
    (Call::Inquire(Zone::Z5), DEPOSITS),
];

const UNOWNED: Answer = Answer::Refused(Refusal::NotOwner(None));

const DEPOSITS: Answer = Answer::Shown {
    owner: Some(Machine::Deposit),
    flag: false,
    posture: Posture::Closed,
};

/// Whether a journal ends with this.
fn ends(journal: &[Entry], last: (Call, Answer)) -> bool {
    match journal.last() {
        Some(entry) => (entry.call, entry.answer) == last,
        None => false,
    }
}

/// Whether each of the six machines has asked so last in a simulation by a configuration, and was answered so.
fn have_asked(alloc: Global, config: &str, last: &[(Call, Answer); 6]) -> bool {
    let Ok(config) = read_config(alloc, &mut config.as_bytes()) else {
        return false;
    };
    match simulate_configured(alloc, &config) {
        Ok(run) => {
            let journals = &run.journals;
            ends(&journals.feed, last[0])
                && ends(&journals.table, last[1])
                && ends(&journals.robot, last[2])
                && ends(&journals.press, last[3])
                && ends(&journals.deposit, last[4])
                && ends(&journals.crane, last[5])
        }
        Err(_) => false,
    }
}

// A simulation of the schedule goes round four times: the press has claimed its zone four times, and was refused.
#[test]
fn shows_how_plates_starve(rt: HostRuntime) {
    let mut reader = "start = \"1000000000\"\n".as_bytes();
    let mut written = Vec::new(rt.alloc());
    let line = "./explore --starve";
    let status = run_unseen(&rt, rt.alloc(), line, &mut reader, &mut written);
    let is_shown = match str::from_utf8(written.as_slice()) {
        Ok(screen) => screen.starts_with(STARVING) && have_asked(rt.alloc(), screen, &LAST),
        Err(_) => false,
    };
    assert!(rt; status == 1 && is_shown);
}
