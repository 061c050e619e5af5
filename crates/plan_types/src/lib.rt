//! Plans of plants: which machines share which zones, the poses of the machines, and the ways of plates. A plan is
//! checked once, by `Plan::new`, and is then a value that the interlock of any plant answers by.
#![tactic(auto)]

pub mod answer;
pub mod byte_laws;
pub mod call;
mod check;
pub mod examples;
pub mod fault;
pub mod laws;
pub mod plan;
pub mod posture;
mod read;
mod rows;
mod shape;
mod sheet;
pub mod table;
mod write;

pub use answer::{Answer, Event, Refusal};
pub use call::Call;
pub use fault::PlanFault;
pub use plan::Plan;
pub use posture::Posture;
pub use read::read_plan;
pub use shape::{Postures, ZoneShape};
pub use table::{
    MAX_MACHINES, MAX_PLACES, MAX_POSES, MAX_ZONES, PlanPlace, PlanPose, PlanZone, Tables,
    Transfer, WATCH, Way,
};
pub use write::write_plan;
