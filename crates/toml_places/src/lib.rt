//! Where things stand in TOML texts: at which byte and on which line a head, a key, or an item of an array is. `toml`
//! gives no places, so the text is read again by the readers of `toml_parser`.
#![tactic(auto)]

pub mod laws;
pub mod lines;
pub mod places;
pub mod scanning;
mod skipping;

pub use lines::line_number;
pub use places::{OwnedStep, Place, Step, key_around, nearest_place, place_of};
pub use scanning::places_in;
