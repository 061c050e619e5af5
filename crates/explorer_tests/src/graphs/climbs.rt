//! Searches of climbs: the fewest turns to a number, or how many numbers can be reached, or how far a search came.

use crate::graphs::Climb;
use graph_search::{Found, FoundWithin, search, search_within};

// The turns that are found, as a text; or the number of nodes.
fn found_is(rt: HostRuntime, start: u8, goal: u8, wanted: &[usize]) -> bool {
    match search(rt.alloc(), &Climb { goal }, start) {
        Ok(Found::Turns(turns)) => turns.as_slice() == wanted,
        _ => false,
    }
}

fn reaches(rt: HostRuntime, start: u8, goal: u8, wanted: usize) -> bool {
    matches!(search(rt.alloc(), &Climb { goal }, start), Ok(Found::Nothing(count)) if count == wanted)
}

#[test]
fn the_fewest_turns_are_found(rt: HostRuntime) {
    assert!(rt; found_is(rt, 1, 1, &[]));
    assert!(rt; found_is(rt, 1, 2, &[0]));
    assert!(rt; found_is(rt, 3, 6, &[1]));
    assert!(rt; found_is(rt, 1, 10, &[0, 1, 0, 1]));
    assert!(rt; found_is(rt, 5, 22, &[1, 0, 1]));
}

#[test]
fn the_nodes_that_can_be_reached_are_counted(rt: HostRuntime) {
    assert!(rt; reaches(rt, 1, 39, 29));
    assert!(rt; reaches(rt, 19, 39, 3));
    assert!(rt; reaches(rt, 20, 39, 1));
    assert!(rt; reaches(rt, 0, 21, 30));
}

// With a limit of nodes: how many turns lead to the first number at which the search hasn't looked.
fn stops_at(rt: HostRuntime, goal: u8, most: usize, wanted: usize) -> bool {
    match search_within(rt.alloc(), &Climb { goal }, 1, most) {
        Ok(FoundWithin::Unfinished(turns)) => turns == wanted,
        _ => false,
    }
}

// With a limit that is just enough, all numbers are counted, and a goal at the start is found.
fn counts_all(rt: HostRuntime, most: usize) -> bool {
    match search_within(rt.alloc(), &Climb { goal: 39 }, 1, most) {
        Ok(FoundWithin::Nothing(nodes)) => nodes == most,
        _ => false,
    }
}

fn finds_at_once(rt: HostRuntime) -> bool {
    match search_within(rt.alloc(), &Climb { goal: 1 }, 1, 1) {
        Ok(FoundWithin::Turns(turns)) => turns.is_empty(),
        _ => false,
    }
}

// From 1 turns lead to 2, then to 3 and 4, to 6, 5 and 8, and to 7, 12 and others. The goal 39 isn't reached.
#[test]
fn a_search_stops_past_its_limit(rt: HostRuntime) {
    assert!(rt; stops_at(rt, 39, 0, 0));
    assert!(rt; stops_at(rt, 39, 1, 1));
    assert!(rt; stops_at(rt, 39, 5, 3));
    assert!(rt; stops_at(rt, 39, 28, 6));
    assert!(rt; stops_at(rt, 1, 0, 0));
    assert!(rt; stops_at(rt, 10, 9, 3));
    assert!(rt; counts_all(rt, 29));
    assert!(rt; finds_at_once(rt));
}
