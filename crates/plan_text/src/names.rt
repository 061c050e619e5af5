//! Names of one kind, in the order of their numbers.
ghost use Rattle.std.specs.Prelude.{◌≡◌, ◌≤◌, ◌<◌, ◌++◌, ◌∷◌, [], length, slice_index, OnOk, string_bytes};
ghost use Rattle.std.specs.Char.{is_ascii_lowercase};
ghost use Rattle.std.specs.List.{list_all};
ghost use Rattle.plan_text.specs.Names as spec;
ghost use Rattle.plan_text.specs.Names.{name_in, number_if, number_in};

use std::alloc::{AllocError, Global};
use std::marker::Model;

/// The most names of one kind.
pub const MAX_NAMES: usize = 64;

/// The most characters of a name.
const MAX_CHARACTERS: usize = 32;

/// Names of one kind. The number of a name is its place among them, from 0.
#[derive(Debug, Drop)]
pub struct Names {
    names: Vec<String>,
}

impl Model for Names {
    ghost use Rattle.std.specs.Prelude.{ℕ, ◌≤◌, List, length, map, string_bytes};

    ghost Value = { List (List ℕ) };

    ghost view = { λ a. map string_bytes a.names.items };

    ghost invariant = { λ a. length a.names.items ≤ 64 };
}

impl Names {
    /// No names.
    pub fn new(alloc: Global) -> Names
        ensures { result ≡ [] }
    {
        Names {
            names: Vec::new(alloc),
        }
    }

    /// How many names there are: at most 64.
    pub fn len(&self) -> usize
        ensures count { result ≡ length self.now }
        ensures few { result ≤ 64 }
    {
        self.names.len()
    }

    /// Adds a name at the end, where there must be room. An error says that memory ran out; the names are as before.
    pub fn push(&mut self, name: String) -> Result<(), AllocError>
        requires { length self.old < 64 }
        ensures { OnOk result (self.new ≡ self.old ++ string_bytes name ∷ []) }
    {
        self.names.push(name)?;
        Ok(())
    }

    /// The name with a number, or an empty text if there is none.
    pub fn name(&self, number: u8) -> &str
        ensures { result.now ≡ name_in self.now number }
    {
        match self.names.get(usize::from(number)) {
            Some(name) => name.as_str(),
            None => "",
        }
    }

    /// A number, if its name is this.
    fn number_if(&self, name: &[u8], number: usize) -> Option<u8>
        requires { number < 64 }
        ensures { result ≡ number_if self.now name.now number }
    {
        let number = number as u8;
        (self.name(number).as_bytes() == name).then_some(number)
    }

    /// The number of a name, or `None` if it isn't among them.
    #[tactic(auto, using(plan_types::proofs::lemmas::Below::first_below_more))]
    pub fn number_of(&self, name: &[u8]) -> Option<u8>
        ensures { result ≡ number_in self.now name.now }
    {
        let mut found = None;
        for number in 0..self.names.len() {
            found = found.or(self.number_if(name, number));
        }
        found
    }
}

/// Whether a text is a name: a letter, then letters, digits and underscores, all in lower case; at most 32 characters.
pub fn is_name(text: &str) -> bool
    ensures { result ≡ spec.is_name text.now }
{
    let bytes = text.as_bytes();
    begins_with_letter(bytes) && bytes.len() <= MAX_CHARACTERS && are_name_bytes(bytes)
}

fn begins_with_letter(bytes: &[u8]) -> bool
    ensures { result ≡ is_ascii_lowercase (slice_index bytes.now 0) }
{
    !bytes.is_empty() && bytes[0].is_ascii_lowercase()
}

fn are_name_bytes(bytes: &[u8]) -> bool
    ensures { result ≡ list_all spec.is_name_byte bytes.now }
{
    bytes.iter().all(|byte| is_name_byte(*byte))
}

fn is_name_byte(byte: u8) -> bool
    ensures { result ≡ spec.is_name_byte byte }
{
    byte.is_ascii_lowercase() || byte.is_ascii_digit() || byte == b'_'
}

/// `watch`, `free`, `start` and the words of calls, which name no machine.
const RESERVED: [&str; 13] = [
    "watch", "free", "start", "claim", "give", "yield", "take", "release", "inquire", "pose",
    "advance", "stop", "resume",
];

/// Whether a word is `watch`, `free`, `start` or that of a call. Such a word names no machine.
pub fn is_reserved(text: &str) -> bool
    ensures { result ≡ spec.is_reserved text.now }
{
    RESERVED.contains(&text)
}
