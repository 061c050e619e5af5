//! The zones, with their words, and how a plate passes through one.
ghost use Rattle.std.specs.Prelude.{◌≡◌, ◌↔◌};
ghost use Rattle.cell_types.specs.Words.{zone_word};

use crate::machine::Machine;
use crate::place::Place;
use crate::words::{Worded, find_by_word};

/// A space that two machines share: at most one of them may be in it at a time.
#[derive(Clone, Copy, Debug, PartialEq, Eq, PartialOrd, Ord)]
pub enum Zone {
    /// From the feed belt to the table.
    Z1,
    /// From the table to the first arm.
    Z2,
    /// The interior of the press.
    Z3,
    /// From the second arm to the deposit belt.
    Z4,
    /// From the deposit belt to the crane.
    Z5,
    /// From the crane to the feed belt.
    Z6,
}

impl Zone {
    /// The zones, in order.
    pub const ALL: [Zone; 6] = [Zone::Z1, Zone::Z2, Zone::Z3, Zone::Z4, Zone::Z5, Zone::Z6];

    /// The zone's word in scripts and reports.
    pub fn word(self) -> &'static str
        ensures { result.now ≡ zone_word self }
    {
        match self {
            Zone::Z1 => "z1",
            Zone::Z2 => "z2",
            Zone::Z3 => "z3",
            Zone::Z4 => "z4",
            Zone::Z5 => "z5",
            Zone::Z6 => "z6",
        }
    }

    /// The zone with this word, or `None` if none has it.
    pub fn read(word: &[u8]) -> Option<Zone>
        ensures { (zone : Zone) → (result ≡ Some zone) ↔ (word.now ≡ zone_word zone) }
    {
        find_by_word(&Zone::ALL, word)
    }
}

impl Worded for Zone {
    ghost use Rattle.cell_types.specs.Words.{zone_word};

    ghost word_of = { λ zone. zone_word zone };

    fn own_word(self) -> &'static str {
        self.word()
    }
}

/// How a plate passes through a zone: who gives it, who receives it, and from which place to which.
#[derive(Clone, Copy, PartialEq, Eq)]
pub struct Transfer {
    /// Who gives the plate.
    pub giver: Machine,
    /// Who receives it.
    pub receiver: Machine,
    /// The place that it leaves.
    pub from: Place,
    /// The place that it comes to.
    pub to: Place,
}
