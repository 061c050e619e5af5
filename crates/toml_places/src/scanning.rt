//! Finds the places of a TOML text.

use crate::places::{OwnedStep, Place};
use crate::skipping::{after_char, after_line, after_mark, after_scalar, head_key, key_and_value};
use std::alloc::{AllocError, Global};
use toml_parser::text::{first, skip_blank};
use toml_parser::{Key, ParseError};

/// The places of a text, in its order: of heads, and of keys and items in at most `depth` brackets of a value. Of a
/// text that is no TOML they are those before the fault.
///
/// The error says that memory ran out.
pub fn places_in(alloc: Global, text: &str, depth: usize) -> Result<Vec<Place>, AllocError> {
    let mut scan = Scan {
        alloc,
        text,
        depth,
        path: Vec::new(alloc),
        section: 0,
        open: Vec::new(alloc),
        places: Vec::new(alloc),
    };
    match scan.read_text() {
        Err(ParseError::OutOfMemory) => Err(AllocError),
        Ok(()) | Err(ParseError::At(..)) => Ok(scan.places),
    }
}

/// A text that is read, and what was found in it.
#[derive(Drop)]
struct Scan<'a> {
    alloc: Global,
    text: &'a str,
    depth: usize,
    /// The steps to what is read.
    path: Vec<OwnedStep>,
    /// How many first steps lead to the section.
    section: usize,
    /// For each bracket that is open: how many first steps lead to what it opens.
    open: Vec<usize>,
    places: Vec<Place>,
}

impl Scan<'_> {
    /// Reads all heads and pairs.
    fn read_text(&mut self) -> Result<(), ParseError> {
        let text = self.text;
        let mut rest = text.strip_prefix('\u{feff}').unwrap_or(text);
        for _ in 0..text.len() {
            rest = skip_blank(rest, true);
            if rest.is_empty() {
                return Ok(());
            }
            rest = after_line(self.read_entry(rest)?);
        }
        Ok(())
    }

    /// Reads a head or a pair. Returns what follows it.
    fn read_entry<'b>(&mut self, entry: &'b str) -> Result<&'b str, ParseError> {
        if first(entry) == b'[' {
            self.read_head(entry)
        } else {
            self.path.truncate(self.section);
            self.read_pair(entry)
        }
    }

    /// Reads the head of a section. Returns what follows its name.
    fn read_head<'b>(&mut self, head: &'b str) -> Result<&'b str, ParseError> {
        self.path.clear();
        let (key, after) = head_key(self.alloc, head)?;
        self.enter_section(key)?;
        if head.starts_with("[[") {
            self.enter_next_item()?;
        }
        self.section = self.path.len();
        let count = self.places.len();
        self.add(head, after)?;
        self.close_places(count, after);
        Ok(after)
    }

    /// Reads a key and its value. Returns what follows the value.
    fn read_pair<'b>(&mut self, pair: &'b str) -> Result<&'b str, ParseError> {
        let count = self.places.len();
        let value = self.read_key(pair)?;
        let after = self.read_value(value)?;
        self.close_places(count, after);
        Ok(after)
    }

    /// Reads a key. Returns the text from its value on.
    fn read_key<'b>(&mut self, pair: &'b str) -> Result<&'b str, ParseError> {
        let (key, value) = key_and_value(self.alloc, pair)?;
        self.enter_key(key)?;
        self.add(pair, value)?;
        Ok(value)
    }

    /// Reads a value. Returns what follows it.
    fn read_value<'b>(&mut self, value: &'b str) -> Result<&'b str, ParseError> {
        self.open.clear();
        let mut rest = value;
        for _ in 0..value.len() {
            rest = self.read_token(rest)?;
            if self.open.is_empty() {
                return Ok(rest);
            }
            rest = skip_blank(rest, true);
            if rest.is_empty() {
                return Ok(rest);
            }
        }
        Ok(rest)
    }

    /// Reads a bracket, a comma, or a value that has no bracket. Returns what follows it; of a member of a table the
    /// text from its value on.
    fn read_token<'b>(&mut self, token: &'b str) -> Result<&'b str, ParseError> {
        match first(token) {
            b'[' | b'{' => self.read_opening(token),
            b',' => self.read_comma(token),
            b']' | b'}' => {
                let steps = self.open.pop().unwrap_or(0);
                self.path.truncate(steps);
                Ok(after_char(token))
            }
            _ => after_scalar(self.alloc, token),
        }
    }

    /// Reads a bracket that opens an array or a table, and a first key in it.
    fn read_opening<'b>(&mut self, opening: &'b str) -> Result<&'b str, ParseError> {
        self.open.push(self.path.len())?;
        let inner = after_mark(opening);
        if self.open.len() > self.depth {
            Ok(inner)
        } else if first(opening) == b'{' {
            self.read_member(inner)
        } else {
            self.read_item(inner, 0)
        }
    }

    /// Reads a comma, and a key after it.
    fn read_comma<'b>(&mut self, comma: &'b str) -> Result<&'b str, ParseError> {
        let inner = after_mark(comma);
        let steps = self.open.last().copied().unwrap_or(0);
        let number = match self.path.get(steps) {
            Some(OwnedStep::Item(item)) => Some(item.saturating_add(1)),
            Some(OwnedStep::Key(_)) => None,
            None => return Ok(inner),
        };
        self.path.truncate(steps);
        match number {
            Some(item) => self.read_item(inner, item),
            None => self.read_member(inner),
        }
    }

    /// Reads the key of a member of a table, if there is one.
    fn read_member<'b>(&mut self, member: &'b str) -> Result<&'b str, ParseError> {
        if first(member) == b'}' {
            Ok(member)
        } else {
            self.read_key(member)
        }
    }

    /// Adds the place of an item of an array, if there is one. Returns the item.
    fn read_item<'b>(&mut self, item: &'b str, number: usize) -> Result<&'b str, ParseError> {
        if !item.is_empty() && first(item) != b']' {
            self.path.push(OwnedStep::Item(number))?;
            self.add(item, item)?;
        }
        Ok(item)
    }

    /// Takes the steps to the value of a key.
    fn enter_key(&mut self, key: Key) -> Result<(), AllocError> {
        let Key { mut path, last } = key;
        path.push(last)?;
        for name in path {
            self.path.push(OwnedStep::Key(name))?;
        }
        Ok(())
    }

    /// Takes the steps to the section of a head: through an array to its last item.
    fn enter_section(&mut self, key: Key) -> Result<(), AllocError> {
        let Key { mut path, last } = key;
        path.push(last)?;
        for name in path {
            self.enter_last_item(name)?;
        }
        Ok(())
    }

    /// Takes the step to the value of a key, and if that is an array with heads, to its last item.
    fn enter_last_item(&mut self, name: String) -> Result<(), AllocError> {
        self.path.push(OwnedStep::Key(name))?;
        if let Some(number) = self.last_item() {
            self.path.push(OwnedStep::Item(number))?;
        }
        Ok(())
    }

    /// Takes the step to a further item of an array.
    fn enter_next_item(&mut self) -> Result<(), AllocError> {
        if let Some(OwnedStep::Item(number)) = self.path.last_mut() {
            *number = number.saturating_add(1);
            return Ok(());
        }
        self.path.push(OwnedStep::Item(0))?;
        Ok(())
    }

    /// The number of the last item that was found of the value to which the path leads.
    fn last_item(&self) -> Option<usize> {
        self.places
            .iter()
            .rev()
            .find_map(|place| place.item_in(self.path.as_slice()))
    }

    /// Adds the place to which the path leads. It stands at `start`, and its value at `value`.
    fn add(&mut self, start: &str, value: &str) -> Result<(), AllocError> {
        let start = self.before(start);
        let value = self.before(value);
        let steps = self.path.clone()?;
        self.places.push(Place {
            steps,
            start,
            value,
            end: None,
        })?;
        Ok(())
    }

    /// Says of all places but the first `count` where their pair ends.
    fn close_places(&mut self, count: usize, after: &str) {
        let end = Some(self.before(after));
        for place in self.places.iter_mut().skip(count) {
            place.end = end;
        }
    }

    /// How many bytes are before the rest of the text.
    fn before(&self, rest: &str) -> usize {
        self.text.len().saturating_sub(rest.len())
    }
}
