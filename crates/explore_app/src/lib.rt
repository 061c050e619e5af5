//! What the program `explore` does: it says of a start whether the six programs can come to a standstill, and by which
//! schedule; and within how many steps of a fair schedule plates move.
#![tactic(auto)]

pub mod bound;
pub mod ending;
pub mod every_start;
pub mod laws;
pub mod liveness;
pub mod request;
pub mod ring;
pub mod schedule;
pub mod screen;
pub mod serve;
pub mod starve;
pub mod step;
pub mod tally;
pub mod timing;
