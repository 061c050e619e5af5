//! A turn of a round.

use cell_explorer::Walk;
use cell_types::{Call, Machine};

/// A turn of a round in which no plate moves.
#[derive(Drop)]
pub struct Step {
    /// Whose it is.
    pub machine: Machine,
    /// What the machine asks.
    pub call: Call,
    /// Whether it goes on; else it waits.
    pub goes_on: bool,
    /// The walk that ends before it.
    pub walk: Walk,
}
