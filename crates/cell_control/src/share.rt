//! What a machine keeps of its zones while it stands at a step of its program.

ghost use Rattle.std.specs.Prelude.{◌≡◌};
ghost use Rattle.cell_control.specs.Keeping as keeping;

use cell_rules::State;
use cell_types::{Machine, Posture, Zone};

/// A machine's share of a zone.
#[derive(Clone, Copy, Debug, PartialEq, Eq)]
pub enum Share {
    /// It holds the zone, and no plate is there.
    Clear,
    /// It holds the zone, and a plate is there.
    Loaded,
    /// It holds the zone.
    Held,
    /// If it holds the zone, a plate is there.
    Lent,
    /// It hasn't claimed the zone since its start, which left it as if it were lent.
    Unclaimed,
    /// It may hold the zone or not.
    Any,
}

/// What a machine keeps of a zone.
#[derive(Clone, Copy, Debug, PartialEq, Eq)]
pub struct ZoneShare {
    /// Its share.
    pub share: Share,
    /// The zone's posture; `None` if it may be any.
    pub posture: Option<Posture>,
}

impl Share {
    /// The share of a zone in this posture.
    #[inline(always)]
    pub fn in_posture(self, posture: Posture) -> ZoneShare
        ensures { result ≡ keeping.posed self posture }
    {
        ZoneShare {
            share: self,
            posture: Some(posture),
        }
    }

    /// The share of a zone in any posture.
    #[inline(always)]
    pub fn in_any_posture(self) -> ZoneShare
        ensures { result ≡ keeping.unposed self }
    {
        ZoneShare {
            share: self,
            posture: None,
        }
    }

    // Whether the machine has this share, by whether it holds the zone, and whether a plate is
    // there.
    fn is_had(self, held: bool, plate: bool) -> bool
        ensures { result ≡ keeping.has_share self held plate }
    {
        match self {
            Share::Clear => held && !plate,
            Share::Loaded => held && plate,
            Share::Held => held,
            Share::Lent | Share::Unclaimed => !held || plate,
            Share::Any => true,
        }
    }
}

impl ZoneShare {
    /// Whether the machine keeps this of the zone in a state.
    pub fn is_kept(self, machine: Machine, state: &State, zone: Zone) -> bool
        ensures { result ≡ keeping.is_kept self machine state.now zone }
    {
        let held = state.owner(zone) == Some(machine);
        self.share.is_had(held, state.flag(zone)) && self.is_posed(state.posture(zone))
    }

    fn is_posed(self, now: Posture) -> bool
        ensures { result ≡ keeping.is_posed self.posture now }
    {
        match self.posture {
            Some(posture) => now == posture,
            None => true,
        }
    }
}

/// Whether the machine keeps all this of its zones in a state.
pub fn are_kept(zones: &[(Zone, ZoneShare)], machine: Machine, state: &State) -> bool
    ensures { result ≡ keeping.are_kept zones.now machine state.now }
{
    zones
        .iter()
        .all(|(zone, share)| share.is_kept(machine, state, *zone))
}
