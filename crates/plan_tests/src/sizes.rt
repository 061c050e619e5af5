//! How far an exploration comes that has a limit of situations.

use super::answered_examples::PRESS;
use super::explorations::{opening_with, plan_in};
use plan_explorer::{Explored, explore};
use std::alloc::Global;

/// What an exploration of the press finds, with plates at these places, up to this number of situations.
fn explore_places(alloc: Global, places: [bool; 2], most: usize) -> Option<Explored> {
    let plan = plan_in(alloc, PRESS)?;
    let opening = opening_with(places);
    explore(alloc, plan.named.plan(), &opening, &plan.programs, most).ok()
}

/// In fewer turns than this nothing stands still; `None` if there aren't more situations.
fn turns_within(alloc: Global, places: [bool; 2], most: usize) -> Option<usize> {
    match explore_places(alloc, places, most)? {
        Explored::Unfinished(turns) => Some(turns),
        Explored::Free(_) | Explored::Standstill(_) => None,
    }
}

// With one plate the press comes to 15 situations. With two it comes to a standstill, which is the third situation.
#[test]
fn explorations_stop_past_their_limit(rt: HostRuntime) {
    let (one, two) = ([true, false], [true, true]);
    let alloc = rt.alloc();
    assert!(rt; matches!(explore_places(alloc, one, 15), Some(Explored::Free(15))));
    assert!(rt; turns_within(alloc, one, 14).is_some());
    assert!(rt; turns_within(alloc, one, 1) == Some(1));
    assert!(rt; turns_within(alloc, two, 2).is_some());
    assert!(rt; matches!(explore_places(alloc, two, 3), Some(Explored::Standstill(_))));
}
