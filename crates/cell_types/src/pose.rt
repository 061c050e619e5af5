//! The poses of machines, with their words.
ghost use Rattle.std.specs.Prelude.{◌≡◌, ◌↔◌};
ghost use Rattle.cell_types.specs.Words.{pose_word};

use crate::words::{Worded, find_by_word};

/// A pose of a machine, which gives the zones that it hosts their postures.
#[derive(Clone, Copy, Debug, PartialEq, Eq)]
pub enum Pose {
    /// The table moves.
    Turning,
    /// The table takes a plate from the feed belt.
    Loading,
    /// The table offers its plate to the first arm.
    Unloading,
    /// The press moves.
    Travelling,
    /// The press takes a plate from the first arm.
    Middle,
    /// The press offers its plate to the second arm.
    Low,
    /// The press is shut, and forges.
    Top,
    /// A belt runs.
    Running,
    /// A belt is at rest, open for a plate at its entry.
    Landing,
    /// A belt is at rest, with its zones closed.
    Halted,
    /// The deposit belt is at rest and offers the plate at its end.
    Offering,
    /// The deposit belt is at rest, open at both ends.
    Standing,
}

impl Pose {
    /// The poses of all machines.
    pub const ALL: [Pose; 12] = [
        Pose::Turning,
        Pose::Loading,
        Pose::Unloading,
        Pose::Travelling,
        Pose::Middle,
        Pose::Low,
        Pose::Top,
        Pose::Running,
        Pose::Landing,
        Pose::Halted,
        Pose::Offering,
        Pose::Standing,
    ];

    /// The pose's word in scripts.
    pub fn word(self) -> &'static str
        ensures { result.now ≡ pose_word self }
    {
        match self {
            Pose::Turning => "turning",
            Pose::Loading => "loading",
            Pose::Unloading => "unloading",
            Pose::Travelling => "travelling",
            Pose::Middle => "middle",
            Pose::Low => "low",
            Pose::Top => "top",
            Pose::Running => "running",
            Pose::Landing => "landing",
            Pose::Halted => "halted",
            Pose::Offering => "offering",
            Pose::Standing => "standing",
        }
    }

    /// The pose with this word, or `None` if none has it.
    pub fn read(word: &[u8]) -> Option<Pose>
        ensures { (pose : Pose) → (result ≡ Some pose) ↔ (word.now ≡ pose_word pose) }
    {
        find_by_word(&Pose::ALL, word)
    }
}

impl Worded for Pose {
    ghost use Rattle.cell_types.specs.Words.{pose_word};

    ghost word_of = { λ pose. pose_word pose };

    fn own_word(self) -> &'static str {
        self.word()
    }
}
