//! A search of a crossing: turns that commute are taken in one order alone.

use crate::graphs::Crossing;
use graph_search::{Found, search};
use std::cell::Cell;

// All four nodes are found, and this many turns are taken.
fn takes(rt: HostRuntime, knows: bool, wanted: u64) -> bool {
    let crossing = Crossing {
        knows,
        taken: Cell::new(0),
    };
    let found = search(rt.alloc(), &crossing, 0);
    matches!(found, Ok(Found::Nothing(4))) && crossing.taken.get() == wanted
}

// Turn 1 led to the nodes 2 and 3, so turn 0 is spared there.
#[test]
fn turns_that_commute_are_spared(rt: HostRuntime) {
    assert!(rt; takes(rt, true, 6));
    assert!(rt; takes(rt, false, 8));
}
