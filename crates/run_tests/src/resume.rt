//! Going on from 14 bytes.

mod machines;
mod plant;
mod power_cuts;
mod wired;
