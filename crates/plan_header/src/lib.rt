//! What `plan header` prints of a plan for other languages: a header for C and C++, a module for Python.
#![tactic(auto)]

pub mod header;
pub mod laws;
mod lists;
mod motors;
mod numbered;
pub mod plants;
pub mod python;
mod readings;
mod turns;

pub use header::header_of;
pub use motors::motor_at;
pub use plants::plant_header_of;
pub use python::module_of;
