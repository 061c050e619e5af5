//! The two parties of a zone, and a zone's bits in a word.
ghost use Rattle.std.specs.Prelude.{◌≡◌, ◌/◌, ◌<◌, ◌^◌, Some, None, true};
ghost use Rattle.cell_types.specs.Tables.{transfer_of};
ghost use Rattle.cell_word.specs.Layout as layout;
ghost use Rattle.cell_word.specs.Changes.{row_received as row_received_of};
ghost use Rattle.cell_word.specs.Patterns.{stands, owner_is, flag_is, posture_is};
ghost use Rattle.cell_word.specs.Guards.{row_given as row_given_of};
ghost use Rattle.cell_word.specs.Parties as parties;

use crate::codes::{posture_code, zone_bit};
use cell_types::{Machine, Posture, Transfer, Zone, guest, host, transfer};

/// A party of a zone.
#[derive(Clone, Copy, PartialEq, Eq)]
pub(crate) enum Party {
    Host,
    Guest,
}

/// Which party of a zone a machine is, if it is one.
#[inline(always)]
pub(crate) fn party_of(machine: Machine, zone: Zone) -> Option<Party>
    ensures { result ≡ parties.party_of machine zone }
{
    if machine == host(zone) {
        Some(Party::Host)
    } else if machine == guest(zone) {
        Some(Party::Guest)
    } else {
        None
    }
}

impl Party {
    /// The other party.
    #[inline(always)]
    pub fn opposite(self) -> Party
        ensures { result ≡ parties.opposite self }
    {
        match self {
            Party::Host => Party::Guest,
            Party::Guest => Party::Host,
        }
    }

    /// The machine that is this party of a zone.
    #[inline(always)]
    pub fn machine(self, zone: Zone) -> Machine
        ensures { result ≡ parties.machine_of zone self }
    {
        match self {
            Party::Host => host(zone),
            Party::Guest => guest(zone),
        }
    }

    /// The code of this party as the owner.
    #[inline(always)]
    pub fn code(self) -> u64
        ensures code { (zone : Zone)
            → result ≡ layout.owner_code zone (Some (parties.machine_of zone self)) }
        ensures fits { result < 4 }
    {
        match self {
            Party::Host => 1,
            Party::Guest => 2,
        }
    }

    /// The posture in which this party gives: plates come in from the guest, and go out from the
    /// host.
    #[inline(always)]
    pub fn giving_posture(self) -> Posture
        ensures { result ≡ parties.giving_posture self }
    {
        match self {
            Party::Host => Posture::OpenOut,
            Party::Guest => Posture::OpenIn,
        }
    }
}

/// The row of transfers in which a party of a zone gives.
#[inline(always)]
pub(crate) fn row_given(zone: Zone, party: Party) -> Option<Transfer>
    ensures row { result ≡ transfer_of zone (parties.giving_posture party) }
    ensures given { result ≡ row_given_of (parties.machine_of zone party) zone }
{
    transfer(zone, party.giving_posture())
}

/// The row of transfers in which a party of a zone receives.
#[inline(always)]
pub(crate) fn row_received(zone: Zone, party: Party) -> Option<Transfer>
    ensures { result ≡ row_received_of (parties.machine_of zone party) zone }
{
    transfer(zone, party.opposite().giving_posture())
}

/// A zone's bits in a word. The word is shifted down, so that all zones share the masks of the
/// first.
#[derive(Clone, Copy)]
pub(crate) struct ZoneBits {
    pub word: u64,
    pub zone: Zone,
}

impl ZoneBits {
    /// The word shifted down by the zone's lowest bit.
    #[inline(always)]
    fn lowest(self) -> u64
        ensures { result ≡ self.word / 2 ^ layout.zone_bit self.zone }
    {
        self.word >> zone_bit(self.zone)
    }

    /// Whether nobody owns the zone.
    #[inline(always)]
    pub fn is_free(self) -> bool
        ensures { result ≡ stands self.word (owner_is self.zone None) }
    {
        self.lowest() & 0b11 == 0
    }

    /// Whether this party owns the zone.
    #[inline(always)]
    pub fn is_owned_by(self, party: Party) -> bool
        ensures { result ≡ stands self.word
            (owner_is self.zone (Some (parties.machine_of self.zone party))) }
    {
        self.lowest() & 0b11 == party.code()
    }

    /// Whether a plate is in the zone.
    #[inline(always)]
    pub fn has_plate(self) -> bool
        ensures { result ≡ stands self.word (flag_is self.zone true) }
    {
        self.lowest() & 0b100 == 0b100
    }

    /// Whether the zone has this posture.
    #[inline(always)]
    pub fn is(self, posture: Posture) -> bool
        ensures { result ≡ stands self.word (posture_is self.zone posture) }
    {
        self.lowest() >> 3 & 0b11 == posture_code(posture)
    }
}
