//! Runs by a schedule, and by six workers.

mod ends;
mod gates;
pub mod rounds;
pub mod simulated_cells;
mod wired_workers;
mod worker_cells;
mod workers;
