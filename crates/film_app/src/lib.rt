//! A film of a run: a page on which the cell moves, with a line for each turn.
#![tactic(auto)]

pub mod configured;
mod fields;
pub mod film;
pub mod laws;
pub mod looped;
mod page_head;
mod page_tail;
mod parts;
pub mod request;
pub mod serve;
mod words;

pub use configured::{film_configured, lines_configured, show_configured};
pub use film::FilmWriter;
pub use looped::loop_configured;
pub use serve::{serve_film, serve_loop};
