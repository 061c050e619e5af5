//! Machines with devices of your own as workers, and six workers over one interlock after another.
#![tactic(auto)]

pub mod going_worker;
pub mod laws;
pub mod renewed;
pub mod renewed_laws;
pub mod renewed_worker;
pub mod rounds;
pub mod wired_laws;
pub mod wired_worker;

pub use going_worker::{GoingOutput, GoingWorker};
pub use renewed::{Renewal, RenewalFault, run_renewed};
pub use renewed_worker::RenewedWorker;
pub use rounds::{Leave, Round, RoundSink};
pub use wired_worker::{Devices, WiredOutput, WiredWorker};
