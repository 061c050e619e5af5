//! The text of a configuration, and the places in it.

use std::alloc::AllocError;
use toml_places::{Place, Step, line_number, nearest_place};

/// The most brackets of a value in which a key is looked for: those of a section that is written as a table.
pub const MAX_DEPTH: usize = 1;

/// A configuration's text, with the places of its keys.
#[derive(Clone, Copy)]
pub struct Source<'a> {
    pub bytes: &'a [u8],
    pub places: &'a [Place],
}

impl Source<'_> {
    /// Adds the line of the key to which these steps lead; of its section, if it isn't found.
    pub fn push_line(&self, words: &mut String, steps: &[Step<'_>]) -> Result<(), AllocError> {
        let place = nearest_place(self.places, steps);
        self.push_line_at(words, place.map_or(0, |place| place.start))
    }

    /// Adds the line of the byte at offset `before`.
    pub fn push_line_at(&self, words: &mut String, before: usize) -> Result<(), AllocError> {
        let line = line_number(self.bytes, before);
        write!(words, "line {line}: ")
    }
}
