//! Tests of what moves, by public calls only: six machines that go on from 14 bytes, runs by a schedule and by six
//! workers, and films. They are a crate of their own, so that a change of a test doesn't prove
//! the plant again.
#![tactic(auto)]

#[cfg(test)]
mod drives;
#[cfg(test)]
mod faults;
#[cfg(test)]
mod film;
#[cfg(test)]
mod resume;
#[cfg(test)]
mod runs;
