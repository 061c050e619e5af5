//! Each plate arrives: the cell's places and the zones between them are one ring, which plates go
//! round in one direction. These are laws; nothing here runs.
#![tactic(auto)]

pub mod laws;
