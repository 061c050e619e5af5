//! Tests of plans, of their interlock, their words and bytes, by public calls only.
#![tactic(auto)]

#[cfg(test)]
mod answered_examples;
#[cfg(test)]
mod apart;
#[cfg(test)]
mod at_work;
#[cfg(test)]
mod compiled;
#[cfg(test)]
mod doubles;
#[cfg(test)]
mod drives;
#[cfg(test)]
mod explorations;
#[cfg(test)]
mod faults;
#[cfg(test)]
mod going;
#[cfg(test)]
mod headers;
#[cfg(test)]
mod later_faults;
#[cfg(test)]
mod limits;
#[cfg(test)]
mod modules;
#[cfg(test)]
mod motor_faults;
#[cfg(test)]
mod motors;
#[cfg(test)]
mod pages;
#[cfg(test)]
mod pictures;
#[cfg(test)]
mod plant_at_work;
#[cfg(test)]
mod plant_headers;
#[cfg(test)]
mod plant_interlocks;
#[cfg(test)]
mod plant_pictures;
#[cfg(test)]
mod plant_runs;
#[cfg(test)]
mod plant_workers;
#[cfg(test)]
mod plants;
#[cfg(test)]
mod progress;
#[cfg(test)]
mod served;
#[cfg(test)]
mod sizes;
#[cfg(test)]
mod spaces;
#[cfg(test)]
mod thirty_machines;
#[cfg(test)]
mod two_presses;
#[cfg(test)]
mod word_calls;
#[cfg(test)]
mod words;
#[cfg(test)]
mod words_of_plants;
#[cfg(test)]
mod words_together;
#[cfg(test)]
mod workers;
