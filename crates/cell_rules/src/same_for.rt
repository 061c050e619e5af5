//! Comparing what a machine knows of two states.
ghost use Rattle.std.specs.Prelude.{◌≡◌, ◌↔◌, true};
ghost use Rattle.std.specs.List.{list_all};
ghost use Rattle.cell_types.specs.Everything.{all_zones, all_places};
ghost use Rattle.cell_rules.specs.Restamping as tests;
ghost use Rattle.cell_rules.specs.Restamping.{IsSameFor};

use crate::state::State;
use cell_types::{Machine, Place, Zone, host, keeper};

impl State {
    /// Whether what a machine knows of this state is so in another one: of each zone that it owns
    /// here, owner, flag and posture; the postures of the zones that it hosts; its own places.
    pub fn is_same_for(&self, machine: Machine, other: &State) -> bool
        ensures { (result ≡ true) ↔ IsSameFor machine self.now other.now }
    {
        self.has_same_zones(machine, other) && self.has_same_places(machine, other)
    }

    fn has_same_zones(&self, machine: Machine, other: &State) -> bool
        ensures { result ≡ list_all (tests.is_same_zone machine self.now other.now) all_zones }
    {
        Zone::ALL
            .iter()
            .all(|zone| self.is_same_zone(machine, other, *zone))
    }

    fn is_same_zone(&self, machine: Machine, other: &State, zone: Zone) -> bool
        ensures { result ≡ tests.is_same_zone machine self.now other.now zone }
    {
        let is_same_posture = other.posture(zone) == self.posture(zone);
        let is_same_plate = same_flag(other.flag(zone), self.flag(zone));
        let is_kept = other.owns(machine, zone) && is_same_plate && is_same_posture;
        (!self.owns(machine, zone) || is_kept) && (host(zone) != machine || is_same_posture)
    }

    fn has_same_places(&self, machine: Machine, other: &State) -> bool
        ensures { result ≡ list_all (tests.is_same_place machine self.now other.now) all_places }
    {
        Place::ALL
            .iter()
            .all(|place| self.is_same_place(machine, other, *place))
    }

    fn is_same_place(&self, machine: Machine, other: &State, place: Place) -> bool
        ensures { result ≡ tests.is_same_place machine self.now other.now place }
    {
        keeper(place) != machine || same_flag(other.is_full(place), self.is_full(place))
    }
}

// Both are set, or neither.
fn same_flag(one: bool, other: bool) -> bool
    ensures { result ≡ tests.same_flag one other }
{
    if one { other } else { !other }
}
