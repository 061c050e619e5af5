//! The questions whether plates go on, from whole starts.

mod bounds;
mod rounds;
mod starving;
