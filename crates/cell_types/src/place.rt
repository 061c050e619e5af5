//! The places of plates, with their words.
ghost use Rattle.std.specs.Prelude.{◌≡◌, ◌↔◌};
ghost use Rattle.cell_types.specs.Words.{place_word};

use crate::words::{Worded, find_by_word};

/// A place for one plate.
#[derive(Clone, Copy, Debug, PartialEq, Eq, PartialOrd, Ord)]
pub enum Place {
    /// Where the crane puts a plate on the feed belt.
    FeedEntry,
    /// The feed belt's end, at the table.
    FeedEnd,
    /// On the table.
    Table,
    /// At the magnet of the first arm.
    Arm1,
    /// In the press, not forged yet.
    PressIn,
    /// In the press, forged.
    PressOut,
    /// At the magnet of the second arm.
    Arm2,
    /// Where the second arm puts a plate on the deposit belt.
    DepEntry,
    /// The deposit belt's end, under the crane.
    DepEnd,
    /// At the gripper of the crane.
    Crane,
}

impl Place {
    /// The places, in the order of the digits of a start.
    pub const ALL: [Place; 10] = [
        Place::FeedEntry,
        Place::FeedEnd,
        Place::Table,
        Place::Arm1,
        Place::PressIn,
        Place::PressOut,
        Place::Arm2,
        Place::DepEntry,
        Place::DepEnd,
        Place::Crane,
    ];

    /// The short name, p1 to p10, in the order of the digits of a start.
    pub fn word(self) -> &'static str
        ensures { result.now ≡ place_word self }
    {
        match self {
            Place::FeedEntry => "p1",
            Place::FeedEnd => "p2",
            Place::Table => "p3",
            Place::Arm1 => "p4",
            Place::PressIn => "p5",
            Place::PressOut => "p6",
            Place::Arm2 => "p7",
            Place::DepEntry => "p8",
            Place::DepEnd => "p9",
            Place::Crane => "p10",
        }
    }

    /// The place with this short name, or `None` if none has it.
    pub fn read(word: &[u8]) -> Option<Place>
        ensures { (place : Place) → (result ≡ Some place) ↔ (word.now ≡ place_word place) }
    {
        find_by_word(&Place::ALL, word)
    }
}

impl Worded for Place {
    ghost use Rattle.cell_types.specs.Words.{place_word};

    ghost word_of = { λ place. place_word place };

    fn own_word(self) -> &'static str {
        self.word()
    }
}
