//! Rows of the programs `cell`, `history` and `explain`: what they answer and write. The expectations were worked out
//! apart from them: by hand from the rules of the cell and from the formats; those of long runs by another program.
//! They use public calls only.
#![tactic(auto)]

#[cfg(test)]
mod arguments;
#[cfg(test)]
mod configurations;
#[cfg(test)]
mod doubles;
#[cfg(test)]
mod explain_configurations;
#[cfg(test)]
mod explain_keys;
#[cfg(test)]
mod explain_long;
#[cfg(test)]
mod explain_scripts;
#[cfg(test)]
mod explain_sections;
#[cfg(test)]
mod explain_served;
#[cfg(test)]
mod gated;
#[cfg(test)]
mod gates;
#[cfg(test)]
mod history_recordings;
#[cfg(test)]
mod history_served;
#[cfg(test)]
mod hostile_configurations;
#[cfg(test)]
mod memory;
#[cfg(test)]
mod reports;
#[cfg(test)]
mod served;
#[cfg(test)]
mod streams;
