//! A plan, or a plant on several words, as a picture.
#![tactic(auto)]

mod elements;
mod findings;
mod hazards;
pub mod laws;
pub mod picture;
mod positions;
mod shown;
mod verdicts;
mod zones;

pub use findings::Finding;
pub use picture::{picture_of, plant_picture_of};
pub use verdicts::{push_verdict, verdict_of};
