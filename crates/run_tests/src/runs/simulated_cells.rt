//! Runs by a schedule of a cell with the default scales. So each closure is on its potentiometer's line.

use cell_config::read_config;
use cell_configured::simulate_configured_observed;
use cell_plant::{NoObserver, RunRecord, Turn};
use cell_rules::State;
use cell_types::Place;
use std::alloc::Global;

/// A run from the start of this configuration. Without memory there may be none.
pub fn run(alloc: Global, config: &str, turns: &[Turn]) -> Option<RunRecord> {
    match read_config(alloc, &mut config.as_bytes()) {
        Ok(config) => { simulate_configured_observed(alloc, &config, turns, &mut NoObserver).ok() }
        Err(_) => None,
    }
}

/// The places that have a plate in a state.
pub fn full_places(state: &State) -> [bool; 10] {
    let mut full = [false; 10];
    for at in 0..10usize {
        full[at] = state.is_full(Place::ALL[at]);
    }
    full
}

/// The places that have a plate, by their digits.
pub fn places_of(digits: &[u8; 10]) -> [bool; 10] {
    digits.map(|digit| digit == b'1')
}
