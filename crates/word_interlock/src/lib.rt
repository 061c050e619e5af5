//! An interlock on one atomic word, for any rules of calls.
#![tactic(auto)]

mod calls;
pub mod close;
pub mod interlock;
pub mod laws;
pub mod make;
mod meet;
pub mod pass;
pub mod passes;
pub mod receipt;
pub mod reply;
pub mod rule;
pub mod rules;
pub mod settle;
mod steps;
mod survey;
mod survey_word;
mod tell;
pub mod tries;
pub mod views;

pub use interlock::Interlock;
pub use make::MakeFault;
pub use pass::Pass;
pub use passes::Passes;
pub use receipt::Receipt;
pub use reply::Reply;
pub use rules::Rules;
pub use tries::{Look, Tried, Try};
