//! The controllers of the belts and of the crane.
#![tactic(auto)]

pub mod belt_share;
pub mod crane;
pub mod deposit;
pub mod feed;
pub mod laws;

pub use belt_share::{BeltPlates, BeltShare};
pub use cell_control::CtlFault;
pub use crane::{CraneCtl, CraneProgram, CraneProgress, CraneReading, CraneShare, CraneStep};
pub use deposit::{DepositCtl, DepositProgram, DepositProgress, DepositStep};
pub use feed::{FeedCtl, FeedProgram, FeedProgress, FeedStep};
