//! Rows of films: pages, pictures, and what the program answers. The lines come from plain Rust.

mod doubles;
mod expected;
mod memory;
mod pages;
mod served;
