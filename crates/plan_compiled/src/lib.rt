//! A plan, compiled once into rows of masks, by which a call on a word is a comparison or two and one addition.
#![tactic(auto)]

mod compiled;
mod covering;
mod drafts;
mod every_row;
mod finding;
mod index;
mod needs;
mod part;
mod plain;
mod right;
mod row;
mod told;

pub use compiled::Compiled;
pub use finding::{SLOTS_OF_ALL, slot};
pub use index::ROWS_OF_ALL;
pub use part::Part;
pub use row::Row;
