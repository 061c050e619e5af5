//! Texts of faults, masks, a calibration and a bench: what no clause says, and literal masks.

mod benches;
mod names;
mod readings;
mod words;
