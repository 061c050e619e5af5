//! States of the interlock of a plant.
ghost use Rattle.std.specs.Prelude.{◌≡◌, ◌<◌};
ghost use Rattle.plan_types.specs.Table.{zone_count};
ghost use Rattle.plan_rules.specs.State as states;
ghost use Rattle.plan_rules.specs.Sound.{IsStart};

use plan_types::{MAX_PLACES, MAX_ZONES, Plan, Posture};

/// The last stamp: after it no call is done.
pub const LAST_STAMP: u32 = 1_048_575;

/// The state of a zone.
#[derive(Clone, Copy, Debug, PartialEq, Eq)]
pub struct ZoneState {
    /// The machine that holds the zone.
    pub owner: Option<u8>,
    /// Whether a plate is on its way through the zone.
    pub flag: bool,
    /// Its posture.
    pub posture: Posture,
}

/// A state of the interlock: plain data, which means something by a plan. Zones and places past the end of the plan's
/// tables are never used.
#[derive(Clone, Copy, Debug, PartialEq, Eq)]
pub struct State {
    /// The state of each zone.
    pub zones: [ZoneState; MAX_ZONES],
    /// Whether each place has a plate.
    pub full: [bool; MAX_PLACES],
    /// The first stamp plus the number of calls that were done, at most `LAST_STAMP`.
    pub stamp: u32,
    /// Whether the plant is stopped.
    pub stopped: bool,
}

const FREE_ZONE: ZoneState = ZoneState {
    owner: None,
    flag: false,
    posture: Posture::Closed,
};

impl State {
    /// The start with these places full: all zones free and closed, and not stopped.
    pub fn start(full: [bool; MAX_PLACES], stamp: u32) -> State
        ensures { result ≡ states.start_state full stamp }
    {
        State {
            zones: [FREE_ZONE; MAX_ZONES],
            full,
            stamp,
            stopped: false,
        }
    }

    /// The state of a zone; a free one if there is no such zone.
    pub fn zone(&self, zone: u8) -> ZoneState
        ensures { result ≡ states.zone_at self.now zone }
    {
        let zone = usize::from(zone);
        if zone < MAX_ZONES {
            self.zones[zone]
        } else {
            FREE_ZONE
        }
    }

    /// Whether a place has a plate.
    pub fn is_full(&self, place: u8) -> bool
        ensures { result ≡ states.is_full self.now place }
    {
        let place = usize::from(place);
        place < MAX_PLACES && self.full[place]
    }
}
