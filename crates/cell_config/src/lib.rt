//! Configurations of a run of the whole cell: TOML texts with its start, its schedule, and the
//! calibrations of the five potentiometers.
#![tactic(auto)]

pub mod configuration;
pub mod fault;
mod keys;
pub mod laws;
mod letters;
pub mod refused_sections;
mod schedules;
mod sections;
mod starts;
mod values;

pub use configuration::{Config, MAX_BYTES, read_config};
pub use fault::ConfigFault;
pub use keys::{INNER_KEYS, PLAIN_KEYS, SECTION_KEYS};
pub use letters::{is_letter, letter_word};
pub use refused_sections::{SectionFault, SectionKey, check_sections};
pub use schedules::MAX_LETTERS;
