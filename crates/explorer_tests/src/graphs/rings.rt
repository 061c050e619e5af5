//! Progress on rings.

use crate::graphs::Ring;
use graph_progress::{Answer, progress};

// Whether an answer is that of a bound.
fn is_within(
    rt: HostRuntime,
    start: u8,
    who: Option<usize>,
    strong: &[usize],
    wanted: (usize, usize),
) -> bool {
    match progress(rt.alloc(), &Ring { way_out: true }, start, who, strong) {
        Ok(Answer::Within { plain, helped }) => (plain, helped) == wanted,
        _ => false,
    }
}

// Whether an answer is that of a stem and a cycle.
fn starves(
    rt: HostRuntime,
    way_out: bool,
    start: u8,
    who: Option<usize>,
    strong: &[usize],
    wanted: (&[usize], &[usize]),
) -> bool {
    match progress(rt.alloc(), &Ring { way_out }, start, who, strong) {
        Ok(Answer::Starves { stem, cycle }) => (stem.as_slice(), cycle.as_slice()) == wanted,
        _ => false,
    }
}

#[test]
fn a_way_out_is_found(rt: HostRuntime) {
    assert!(rt; is_within(rt, 0, None, &[1], (2, 2)));
    assert!(rt; is_within(rt, 2, Some(1), &[0, 1], (2, 2)));
}

#[test]
fn without_strong_fairness_the_ring_starves(rt: HostRuntime) {
    assert!(rt; starves(rt, true, 0, None, &[], (&[], &[0, 0, 0])));
    assert!(rt; starves(rt, true, 3, None, &[0], (&[1], &[0, 0, 0])));
}

#[test]
fn without_a_way_out_it_starves(rt: HostRuntime) {
    assert!(rt; starves(rt, false, 0, None, &[1], (&[], &[0, 0, 0, 1, 0, 0])));
    assert!(rt; starves(rt, true, 0, Some(0), &[1], (&[], &[0, 0, 0, 1, 1])));
}

#[test]
fn a_standstill_is_a_turn_that_changes_nothing(rt: HostRuntime) {
    assert!(rt; starves(rt, true, 7, None, &[0, 1], (&[], &[0])));
}
