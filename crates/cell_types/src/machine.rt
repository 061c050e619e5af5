//! The machines and the watch, with their words.
ghost use Rattle.std.specs.Prelude.{◌≡◌, ◌↔◌};
ghost use Rattle.cell_types.specs.Words.{machine_word};

use crate::words::{Worded, find_by_word};

/// A machine of the production cell (LNCS 891), or the watch: an observer, which inquires, stops the
/// cell and resumes it.
#[derive(Clone, Copy, Debug, PartialEq, Eq)]
pub enum Machine {
    /// The feed belt.
    Feed,
    /// The elevating rotary table.
    Table,
    /// The robot with its two arms.
    Robot,
    /// The press.
    Press,
    /// The deposit belt.
    Deposit,
    /// The travelling crane.
    Crane,
    /// An observer, which inquires, stops the cell and resumes it.
    Watch,
}

impl Machine {
    /// The machines, in the order of reports.
    pub const ALL: [Machine; 7] = [
        Machine::Feed,
        Machine::Table,
        Machine::Robot,
        Machine::Press,
        Machine::Deposit,
        Machine::Crane,
        Machine::Watch,
    ];

    /// The machine's word in scripts and reports.
    pub fn word(self) -> &'static str
        ensures { result.now ≡ machine_word self }
    {
        match self {
            Machine::Feed => "feed",
            Machine::Table => "table",
            Machine::Robot => "robot",
            Machine::Press => "press",
            Machine::Deposit => "deposit",
            Machine::Crane => "crane",
            Machine::Watch => "watch",
        }
    }

    /// The machine with this word, or `None` if none has it.
    pub fn read(word: &[u8]) -> Option<Machine>
        ensures { (machine : Machine)
            → (result ≡ Some machine) ↔ (word.now ≡ machine_word machine) }
    {
        find_by_word(&Machine::ALL, word)
    }
}

impl Worded for Machine {
    ghost use Rattle.cell_types.specs.Words.{machine_word};

    ghost word_of = { λ machine. machine_word machine };

    fn own_word(self) -> &'static str {
        self.word()
    }
}
