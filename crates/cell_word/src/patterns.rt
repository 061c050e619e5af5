//! Some bits of a word and their wanted values: to test a word, and to write into one.
ghost use Rattle.std.specs.Prelude.{◌≡◌, ◌+◌, ◌<◌, ◌≤◌, ◌^◌, ◌∷◌, [], Some, IfOk};
ghost use Rattle.cell_word.specs.Patterns as patterns;
ghost use Rattle.cell_word.specs.Changes as changes;
ghost use Rattle.cell_word.specs.Guards as guards;
ghost use Rattle.cell_word.specs.Parties as parties;

use crate::codes::{MARK_BIT, STAMP_BIT, owner_code, place_bit, posture_code, zone_bit};
use crate::parties::Party;
use cell_types::{Machine, Place, Posture, Refusal, Zone};

/// Wanted values of some bits of a word: those under the mask.
#[derive(Clone, Copy)]
pub(crate) struct Pattern {
    pub mask: u64,
    pub wanted: u64,
}

impl Pattern {
    /// The pattern of every word, which has no bits.
    pub const ANYTHING: Pattern = Pattern { mask: 0, wanted: 0 };

    /// The pattern of no word: the bit that it wants is not under its mask.
    pub const NOTHING: Pattern = Pattern {
        mask: 0,
        wanted: 0x8000_0000_0000_0000,
    };

    /// A field of a word has this value.
    #[inline(always)]
    pub fn field(lowest: u32, width: u32, value: u64) -> Pattern
        requires narrow { width < 64 }
        requires begins { lowest < 64 }
        requires in_word { lowest + width ≤ 64 }
        requires fits { value < 2 ^ width }
        ensures { result ≡ patterns.field_is lowest width value }
    {
        Pattern {
            mask: ((1 << width) - 1) << lowest,
            wanted: value << lowest,
        }
    }

    /// A zone has this owner, or none.
    #[inline(always)]
    pub fn owner(zone: Zone, owner: Option<Machine>) -> Pattern
        ensures { result ≡ patterns.owner_is zone owner }
    {
        Pattern::field(zone_bit(zone), 2, owner_code(zone, owner))
    }

    /// The owner of a zone is this party.
    #[inline(always)]
    pub fn owned_by(zone: Zone, party: Party) -> Pattern
        ensures { result ≡ patterns.owner_is zone (Some (parties.machine_of zone party)) }
    {
        Pattern::field(zone_bit(zone), 2, party.code())
    }

    /// A plate is in a zone, or isn't.
    #[inline(always)]
    pub fn flag(zone: Zone, set: bool) -> Pattern
        ensures { result ≡ patterns.flag_is zone set }
    {
        Pattern::field(zone_bit(zone) + 2, 1, u64::from(set))
    }

    /// A zone has this posture.
    #[inline(always)]
    pub fn posture(zone: Zone, posture: Posture) -> Pattern
        ensures { result ≡ patterns.posture_is zone posture }
    {
        Pattern::field(zone_bit(zone) + 3, 2, posture_code(posture))
    }

    /// A place is full, or empty.
    #[inline(always)]
    pub fn place(place: Place, full: bool) -> Pattern
        ensures { result ≡ patterns.place_is place full }
    {
        Pattern::field(place_bit(place), 1, u64::from(full))
    }

    /// The stamp is this number.
    #[inline(always)]
    pub fn stamp(stamp: u32) -> Pattern
        requires { stamp < 2 ^ 20 }
        ensures { result ≡ patterns.stamp_is stamp }
    {
        Pattern::field(STAMP_BIT, 20, u64::from(stamp))
    }

    /// Both patterns at once.
    #[inline(always)]
    pub fn and(self, other: Pattern) -> Pattern
        ensures { result ≡ patterns.both self other }
    {
        Pattern {
            mask: self.mask | other.mask,
            wanted: self.wanted | other.wanted,
        }
    }

    /// Whether the bits of a word under the mask are as wanted.
    #[inline(always)]
    pub fn stands_in(self, word: u64) -> bool
        ensures { result ≡ patterns.stands word self }
    {
        word & self.mask == self.wanted
    }

    /// The word with the bits under the mask as they are wanted.
    #[inline(always)]
    #[tactic(auto, using(crate::proofs::Writing::cleared))]
    pub fn written_into(self, word: u64) -> u64
        ensures { result ≡ patterns.with_written word self.mask self.wanted }
    {
        word & !self.mask | self.wanted
    }

    /// The guard that refuses words of this pattern.
    #[inline(always)]
    pub fn refuses(self, refusal: Refusal) -> Guard
        ensures { result ≡ guards.guard self refusal }
    {
        Guard {
            pattern: self,
            refusal,
        }
    }
}

/// The word after a call whose guards gave this: the same word if they refuse the call, or else the
/// word with what the call writes and with the next stamp.
#[inline(always)]
pub(crate) fn word_after_check(word: u64, checked: Result<Pattern, Refusal>) -> u64
    requires room { IfOk checked
        (λ written. patterns.with_written word written.mask written.wanted + 2 ^ 40 < 2 ^ 64) }
    ensures { result ≡ changes.word_after word checked }
{
    match checked {
        Ok(written) => written.written_into(word) + (1 << STAMP_BIT),
        Err(_) => word,
    }
}

/// The cell is stopped, or isn't.
#[inline(always)]
pub(crate) fn mark_pattern(stopped: bool) -> Pattern
    ensures { result ≡ patterns.mark_is stopped }
{
    Pattern::field(MARK_BIT, 1, u64::from(stopped))
}

/// What refuses a call: a pattern, and the refusal of the words that match it.
#[derive(Clone, Copy)]
pub(crate) struct Guard {
    pub pattern: Pattern,
    pub refusal: Refusal,
}

impl Guard {
    /// Refuses a word that matches the pattern.
    #[inline(always)]
    pub fn check(self, word: u64) -> Result<(), Refusal>
        ensures { result ≡ guards.checked word (self ∷ []) }
    {
        if self.pattern.stands_in(word) {
            Err(self.refusal)
        } else {
            Ok(())
        }
    }
}
