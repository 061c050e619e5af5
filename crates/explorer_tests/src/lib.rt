//! Tests of searches, by public calls only: small graphs, the bounds of whole starts, and what `explore` prints.
#![tactic(auto)]

#[cfg(test)]
mod explore;
pub mod graphs;
#[cfg(test)]
mod liveness;
#[cfg(test)]
mod plans;
#[cfg(test)]
mod plant_liveness;
#[cfg(test)]
mod plant_seeking;
#[cfg(test)]
mod plant_turns;
#[cfg(test)]
mod plants;
