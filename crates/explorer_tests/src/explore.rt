//! Rows of explorations: screens, words, exit statuses, times.

mod doubles;
mod explorations;
mod memory;
mod refusals;
mod screens;
mod served;
mod starts;
mod times;
