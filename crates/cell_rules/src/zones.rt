//! The state of a zone, and the map that a state keeps of all six.
ghost use Rattle.std.specs.Prelude.{◌≡◌, ◌≤◌};
ghost use Rattle.cell_rules.specs.ModelState.{flags_of};
ghost use Rattle.cell_rules.specs.ZoneMap.{zone_in, put_zone, everywhere, free_zone};

use cell_types::{Machine, Posture, Zone};
use std::marker::Model;

/// The state of a zone.
#[derive(Clone, Copy, Debug, PartialEq, Eq)]
pub struct ZoneState {
    /// Who holds the zone.
    pub owner: Option<Machine>,
    /// Whether a plate is on its way through the zone.
    pub flag: bool,
    /// Its posture.
    pub posture: Posture,
}

impl ZoneState {
    /// The same zone state with this owner.
    pub(crate) fn with_owner(self, owner: Option<Machine>) -> ZoneState
        ensures { result ≡ record self { owner = owner } }
    {
        ZoneState { owner, ..self }
    }

    /// The same zone state with this flag.
    pub(crate) fn with_flag(self, flag: bool) -> ZoneState
        ensures { result ≡ record self { flag = flag } }
    {
        ZoneState { flag, ..self }
    }
}

/// The state of each zone: a map from the zones.
#[derive(Clone, Copy, Debug, PartialEq, Eq)]
pub struct Zones {
    pub(crate) z1: ZoneState,
    pub(crate) z2: ZoneState,
    pub(crate) z3: ZoneState,
    pub(crate) z4: ZoneState,
    pub(crate) z5: ZoneState,
    pub(crate) z6: ZoneState,
}

impl Model for Zones {
    ghost use Rattle.cell_rules.specs.ZoneMap.{ZoneMap, zone_map};

    ghost Value = { ZoneMap };

    ghost view = { λ a. zone_map a.z1 a.z2 a.z3 a.z4 a.z5 a.z6 };

    ghost inverse = { λ m. record {
      z1 = m.at_z1;
      z2 = m.at_z2;
      z3 = m.at_z3;
      z4 = m.at_z4;
      z5 = m.at_z5;
      z6 = m.at_z6;
    } };
}

impl Zones {
    /// All zones free and Closed.
    pub fn all_free() -> Zones
        ensures { result ≡ everywhere free_zone }
    {
        let free = ZoneState {
            owner: None,
            flag: false,
            posture: Posture::Closed,
        };
        Zones {
            z1: free,
            z2: free,
            z3: free,
            z4: free,
            z5: free,
            z6: free,
        }
    }

    /// The state of a zone.
    pub fn get(&self, zone: Zone) -> ZoneState
        ensures { result ≡ zone_in self.now zone }
    {
        match zone {
            Zone::Z1 => self.z1,
            Zone::Z2 => self.z2,
            Zone::Z3 => self.z3,
            Zone::Z4 => self.z4,
            Zone::Z5 => self.z5,
            Zone::Z6 => self.z6,
        }
    }

    /// Sets the value at a zone, and leaves the others.
    pub fn set(&mut self, zone: Zone, value: ZoneState)
        ensures { self.new ≡ put_zone self.old zone value }
    {
        match zone {
            Zone::Z1 => self.z1 = value,
            Zone::Z2 => self.z2 = value,
            Zone::Z3 => self.z3 = value,
            Zone::Z4 => self.z4 = value,
            Zone::Z5 => self.z5 = value,
            Zone::Z6 => self.z6 = value,
        }
    }

    /// How many zones have a plate.
    pub fn flags(&self) -> u32
        ensures flags { result ≡ flags_of self.now }
        ensures six { result ≤ 6 }
    {
        u32::from(self.z1.flag)
            + u32::from(self.z2.flag)
            + u32::from(self.z3.flag)
            + u32::from(self.z4.flag)
            + u32::from(self.z5.flag)
            + u32::from(self.z6.flag)
    }
}
