//! The six programs together: over one interlock no machine is refused but for what its step waits
//! for, or as worn, so none stops another.
#![tactic(auto)]

pub mod laws;
pub mod team;

pub use team::Team;
