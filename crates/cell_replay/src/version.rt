//! The versions of scripts.

ghost use Rattle.std.specs.Prelude.{◌≡◌};
ghost use Rattle.cell_replay.specs.Versions.{has_call, version_of, version_word};

use cell_types::Call;

/// The version of a script.
#[derive(Clone, Copy)]
pub enum Version {
    /// Its first word is `start`. It can't stop the cell.
    First,
    /// Its first word is `start2`. Its watch can stop the cell, and resume.
    Second,
}

impl Version {
    /// The version's word, the first field of record 0.
    pub fn word(self) -> &'static str
        ensures { result.now ≡ version_word self }
    {
        match self {
            Version::First => "start",
            Version::Second => "start2",
        }
    }

    /// The version with this word, or `None` if none has it.
    pub fn read(word: &[u8]) -> Option<Version>
        ensures { result ≡ version_of word.now }
    {
        if word == Version::First.word().as_bytes() {
            return Some(Version::First);
        }
        if word == Version::Second.word().as_bytes() {
            return Some(Version::Second);
        }
        None
    }

    /// Whether a script of this version may have the call.
    pub fn has(self, call: Call) -> bool
        ensures { result ≡ has_call self call }
    {
        match self {
            Version::First => !matches!(call, Call::Stop | Call::Resume),
            Version::Second => true,
        }
    }
}
