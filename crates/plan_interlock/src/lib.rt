//! The interlock of any plant, by its plan, on one atomic word.
#![tactic(auto)]

pub mod examples;
pub mod laws;
pub mod motors;
pub mod plant;
pub mod plant_make;
mod plant_motors;
mod plant_stop;
pub mod rules;

pub use motors::permitted_motors;
pub use plant::{PlantInterlock, PlantPass};
pub use plant_make::{PlantFault, WordOpening};
pub use plant_stop::WordReplies;
pub use rules::PlanRules;

/// The interlock of a plant, which threads share.
pub type PlanInterlock = word_interlock::Interlock<PlanRules>;

/// The right to make the calls of one machine of a plant.
pub type PlanPass = word_interlock::Pass<PlanRules>;
