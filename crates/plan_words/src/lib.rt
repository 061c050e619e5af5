//! A plan on several words: which zones share a word, each word's plan, and, in laws, what holds of all words together.
#![tactic(auto)]

pub mod cutting;
pub mod fault;
mod joining;
mod labelling;
pub mod laws;
pub mod members;
pub mod plant;
pub mod routing;
mod rules;
mod sharing;
mod word_tables;
pub mod words;

pub use cutting::CutPlant;
pub use fault::{Limit, PlantFault};
pub use plant::{
    MAX_PLANT_MACHINES, MAX_PLANT_PLACES, MAX_PLANT_POSES, MAX_PLANT_ZONES, MAX_WORDS, PlantPose,
    PlantTables,
};
pub use routing::{OnWord, Routed};
pub use words::{PlantWord, Words};
