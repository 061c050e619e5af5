//! What a belt keeps while it stands at a step of its program.

ghost use Rattle.std.specs.Prelude.{◌≡◌};
ghost use Rattle.cell_belts_crane.specs.BeltShares as shares;

use cell_control::ZoneShare;

/// What a belt keeps at a step.
#[derive(Clone, Copy, Debug, PartialEq, Eq)]
pub struct BeltShare {
    /// Its share of the zone at its entry.
    pub entry: ZoneShare,
    /// Its share of the zone at its end.
    pub exit: ZoneShare,
    /// Its plates.
    pub plates: BeltPlates,
}

/// The plates on a belt.
#[derive(Clone, Copy, Debug, PartialEq, Eq)]
pub enum BeltPlates {
    /// Any.
    Any,
    /// None.
    Empty,
    /// One at its entry, and none at its end.
    AtEntry,
    /// One at its end, and perhaps another at its entry.
    AtEnd,
    /// None at its end.
    NoneAtEnd,
}

impl BeltShare {
    /// These shares of its zones, with these plates.
    #[inline(always)]
    pub(crate) fn new(entry: ZoneShare, exit: ZoneShare, plates: BeltPlates) -> BeltShare
        ensures { result ≡ shares.keeps entry exit plates }
    {
        BeltShare {
            entry,
            exit,
            plates,
        }
    }
}

impl BeltPlates {
    /// Whether the belt has these plates, by whether one is at its entry and one at its end.
    pub fn are_there(self, entry: bool, last: bool) -> bool
        ensures { result ≡ shares.are_there self entry last }
    {
        match self {
            BeltPlates::Any => true,
            BeltPlates::Empty => !entry && !last,
            BeltPlates::AtEntry => entry && !last,
            BeltPlates::AtEnd => last,
            BeltPlates::NoneAtEnd => !last,
        }
    }
}
