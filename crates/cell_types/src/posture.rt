//! The postures of zones, with their words.
ghost use Rattle.std.specs.Prelude.{◌≡◌, ◌↔◌};
ghost use Rattle.cell_types.specs.Words.{posture_word};

use crate::words::{Worded, find_by_word};

/// The posture of a zone, which its host sets.
#[derive(Clone, Copy, Debug, PartialEq, Eq)]
pub enum Posture {
    /// The guest may not enter, and nothing moves.
    Closed,
    /// The host moves in it.
    Moving,
    /// Open for a plate of the guest.
    OpenIn,
    /// Open for a plate of the host.
    OpenOut,
}

impl Posture {
    /// The postures, in order.
    pub const ALL: [Posture; 4] = [
        Posture::Closed,
        Posture::Moving,
        Posture::OpenIn,
        Posture::OpenOut,
    ];

    /// The posture's word in scripts and reports.
    pub fn word(self) -> &'static str
        ensures { result.now ≡ posture_word self }
    {
        match self {
            Posture::Closed => "closed",
            Posture::Moving => "moving",
            Posture::OpenIn => "openin",
            Posture::OpenOut => "openout",
        }
    }

    /// The posture with this word, or `None` if none has it.
    pub fn read(word: &[u8]) -> Option<Posture>
        ensures { (posture : Posture)
            → (result ≡ Some posture) ↔ (word.now ≡ posture_word posture) }
    {
        find_by_word(&Posture::ALL, word)
    }
}

impl Worded for Posture {
    ghost use Rattle.cell_types.specs.Words.{posture_word};

    ghost word_of = { λ posture. posture_word posture };

    fn own_word(self) -> &'static str {
        self.word()
    }
}
