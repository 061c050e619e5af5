//! Motors and parts: what each use of a space needs of the interlock while it lasts.
ghost use Rattle.std.specs.Prelude.{◌≡◌, ◌↔◌, IsTrue};
ghost use Rattle.plan_motors.specs.Motor as needs;
ghost use Rattle.plan_motors.specs.Motor.{Permits};

use plan_rules::{State, ZoneState};
use plan_types::{MAX_PLACES, MAX_ZONES, Plan, Posture};

/// What a motor needs of a zone.
#[derive(Clone, Copy, Debug, PartialEq, Eq)]
pub struct ZoneNeed {
    /// Whether the motor's machine has to hold it.
    pub holds: bool,
    /// The posture that it has to have; `None` if any will do.
    pub posture: Option<Posture>,
}

/// A use of a space: a motor that is driven, or a part that stands somewhere, driven or not, as an arm in a press. It
/// may last only while the interlock's state is as it needs it: before its machine's next call that loses the
/// permission the motor is off and at rest, and the part is out.
#[derive(Clone, Copy, Debug, PartialEq, Eq)]
pub struct Motor {
    /// The machine whose motor or part it is.
    pub machine: u8,
    /// What it needs of each zone, by the zone's number.
    pub zones: [ZoneNeed; MAX_ZONES],
    /// What it needs of each place, by the place's number: that it is full, that it is empty, or nothing.
    pub places: [Option<bool>; MAX_PLACES],
}

/// Two motors that are never to be permitted both, by their numbers.
#[derive(Clone, Copy, Debug, PartialEq, Eq)]
pub struct Hazard {
    /// The one.
    pub first: u8,
    /// The other.
    pub second: u8,
}

/// No need.
pub const NO_NEED: ZoneNeed = ZoneNeed {
    holds: false,
    posture: None,
};

fn has_posture(needed: Option<Posture>, posture: Posture) -> bool
    ensures { result ≡ needs.has_posture needed posture }
{
    match needed {
        Some(needed) => posture == needed,
        None => true,
    }
}

/// Whether a zone is as a machine needs it.
pub(crate) fn meets(machine: u8, need: ZoneNeed, at: ZoneState) -> bool
    ensures { result ≡ needs.meets machine need at }
{
    (!need.holds || at.owner == Some(machine)) && has_posture(need.posture, at.posture)
}

/// Whether a place is full, or empty, if it has to be.
fn meets_place(need: Option<bool>, full: bool) -> bool
    ensures { result ≡ needs.meets_place need full }
{
    match need {
        None => true,
        Some(true) => full,
        Some(false) => !full,
    }
}

impl Motor {
    /// What it needs of a zone.
    pub fn zone_need(&self, zone: u8) -> ZoneNeed
        ensures { result ≡ needs.need_of self.now zone }
    {
        let zone = usize::from(zone);
        if zone < MAX_ZONES {
            self.zones[zone]
        } else {
            NO_NEED
        }
    }

    /// What it needs of a place.
    pub fn place_need(&self, place: u8) -> Option<bool>
        ensures { result ≡ needs.place_need self.now place }
    {
        let place = usize::from(place);
        if place < MAX_PLACES {
            self.places[place]
        } else {
            None
        }
    }

    /// Whether a state permits it.
    pub fn is_permitted(&self, plan: &Plan, state: &State) -> bool
        ensures { IsTrue result ↔ Permits plan.now state.now self.now }
    {
        for zone in 0..plan.zone_count() {
            if !meets(self.machine, self.zone_need(zone), state.zone(zone)) {
                return false;
            }
        }
        for place in 0..plan.place_count() {
            if !meets_place(self.place_need(place), state.is_full(place)) {
                return false;
            }
        }
        true
    }
}
