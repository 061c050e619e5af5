//! A text of limited length, which allocates nothing.

ghost use Rattle.std.specs.Prelude.{◌≡◌, ◌≤◌, List, ℕ, [], ◌++◌, take, IfSome, OnOk};

use std::fmt;
use std::fmt::{Display, Write};
use std::marker::Model;

/// How many bytes a page has room for.
const CAPACITY: usize = 2048;

/// A text of at most 2,048 bytes, stored in place.
#[derive(Drop)]
pub struct Page {
    bytes: [u8; CAPACITY],
    len: usize,
}

impl Model for Page {
    ghost Value = { List ℕ };

    ghost view = { λ page. take page.len page.bytes };

    ghost invariant = { λ page. page.len ≤ 2048 };
}

impl Page {
    /// The empty text.
    pub fn new() -> Page
        ensures { result ≡ [] }
    {
        Page {
            bytes: [0; CAPACITY],
            len: 0,
        }
    }

    /// The bytes of the text.
    pub fn as_bytes(&self) -> &[u8]
        ensures { result.now ≡ self.now }
    {
        &self.bytes[..self.len]
    }

    /// Appends the arguments of `write!` and `writeln!`. An error says that there is no room.
    pub fn write_fmt<D: Display + Drop>(&mut self, text: D) -> fmt::Result
        ensures { OnOk result (IfSome (D.output text) (λ bytes. self.new ≡ self.old ++ bytes)) }
    {
        Write::write_fmt(self, text)
    }
}

impl Write for Page {
    ghost write_str_gives = { λ old bytes new. new ≡ old ++ bytes };

    fn write_str(&mut self, text: &str) -> fmt::Result {
        if text.len() > CAPACITY - self.len {
            return Err(fmt::Error);
        }
        let end = self.len + text.len();
        self.bytes[self.len..end].copy_from_slice(text.as_bytes());
        self.len = end;
        Ok(())
    }
}
