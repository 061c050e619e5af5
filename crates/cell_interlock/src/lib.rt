//! The interlock of the cell on one atomic word, which threads share.
#![tactic(auto)]

mod calls;
pub mod close;
pub mod interlock;
pub mod laws;
pub mod make;
mod meet;
pub mod pass;
pub mod pass_line;
pub mod receipt;
pub mod rules;
pub mod settle;
mod survey;
mod tell;
pub mod tries;

pub use close::Ended;
pub use interlock::Interlock;
pub use make::MakeFault;
pub use pass::{Pass, Passes};
pub use pass_line::PassLine;
pub use receipt::Receipt;
pub use tries::{Look, Tried, Try};
