//! Bytes that wait to be written, in a block that allocates nothing.

ghost use Rattle.std.specs.Prelude.{◌≡◌, ◌≤◌, ◌-◌, List, ℕ, [], ◌++◌, length, take, drop};

use std::marker::Model;

/// How many bytes a block has room for.
const CAPACITY: usize = 8192;

/// At most 8,192 bytes, stored in place.
#[derive(Drop)]
pub struct Block {
    bytes: [u8; CAPACITY],
    len: usize,
}

impl Model for Block {
    ghost Value = { List ℕ };

    ghost view = { λ block. take block.len block.bytes };

    ghost invariant = { λ block. block.len ≤ 8192 };
}

impl Block {
    /// No bytes.
    pub fn new() -> Block
        ensures { result ≡ [] }
    {
        Block {
            bytes: [0; CAPACITY],
            len: 0,
        }
    }

    /// The bytes.
    pub fn as_bytes(&self) -> &[u8]
        ensures { result.now ≡ self.now }
    {
        &self.bytes[..self.len]
    }

    /// For how many more bytes there is room.
    pub fn room(&self) -> usize
        ensures { result ≡ 8192 - length self.now }
    {
        CAPACITY - self.len
    }

    /// Appends a part, for which there must be room.
    pub fn push(&mut self, part: &[u8])
        requires { length part.now ≤ 8192 - length self.old }
        ensures { self.new ≡ self.old ++ part.now }
    {
        let end = self.len + part.len();
        self.bytes[self.len..end].copy_from_slice(part);
        self.len = end;
    }

    /// Removes the first `count` bytes; there must be as many.
    pub fn remove_first(&mut self, count: usize)
        requires { count ≤ length self.old }
        ensures { self.new ≡ drop count self.old }
    {
        self.bytes.copy_within(count..self.len, 0);
        self.len -= count;
    }
}
