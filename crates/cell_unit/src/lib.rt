//! A machine in a run: its controller with its part, and their turn over any line and over a bench.
#![tactic(auto)]

pub mod bench_turn;
pub mod fault;
pub mod laws;
pub mod status;
pub mod unit;

pub use bench_turn::take_bench_turn;
pub use fault::SimFault;
pub use status::status_of;
pub use unit::MachineUnit;
