//! Receipts between threads.

use super::letters::two_threads;
use super::ring::three_threads;
use super::{open_interlock, stations_of};
use cell_interlock::Pass;
use cell_types::{Answer, Call, Reply, Zone};
use std::marker::Brand;

const HEARD: Reply = Reply::Settled(Answer::Done, 2);

/// Whether both calls were Done, and the one that followed the letter got the higher stamp.
fn is_heard(told: Reply, heard: Option<(Reply, Pass)>) -> bool {
    match heard {
        Some((reply, _)) => told == Reply::Settled(Answer::Done, 1) && reply == HEARD,
        None => false,
    }
}

#[test]
fn a_letter_is_heard(rt: HostRuntime) {
    let (interlock, passes) = open_interlock(&rt, rt.alloc(), 2);
    let (_feed, table, _robot, press) = stations_of(&interlock, passes);
    let first = (press, Call::Claim(Zone::Z3));
    let second = (table, Call::Claim(Zone::Z1));
    let (told, heard) = two_threads::<Brand, HostRuntime>(
        &rt,
        rt.alloc(),
        &interlock,
        first,
        second,
    );
    assert!(rt; is_heard(told, heard));
}

// Each caller gets higher stamps than its letters'.
#[test]
fn letters_go_round(rt: HostRuntime) {
    let (interlock, passes) = open_interlock(&rt, rt.alloc(), 64);
    let (feed, table, _robot, press) = stations_of(&interlock, passes);
    let callers = (table, press, feed);
    let are_done = three_threads::<Brand, HostRuntime>(&rt, rt.alloc(), &interlock, callers);
    assert!(rt; are_done == [true; 3]);
}
