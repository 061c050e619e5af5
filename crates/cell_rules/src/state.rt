//! States of the interlock, which are always sound: how they begin, and what they show.
ghost use Rattle.std.specs.Prelude.{◌≡◌, ◌≤◌, ◌↔◌, IsSome, IfSome, IsOk, IfOk};
ghost use Rattle.cell_rules.specs.Start.{places_of, IsStart, start_state};
ghost use Rattle.cell_rules.specs.Restamping.{restamped};
ghost use Rattle.cell_rules.specs.Sound.{IsSound};
ghost use Rattle.cell_types.specs.declared.answer.Answer.TheVariants.{Done};
ghost use Rattle.cell_rules.specs.ModelState.{zone_at, is_full, model_state, plates_of, last_stamp};
ghost use Rattle.cell_rules.specs.Refusals.{owner_of, posture_at};
ghost use Rattle.cell_rules.specs.Reply as replies;

use crate::changes::other_party;
use crate::places::Places;
use crate::sound::is_sound;
use crate::stamp::LAST_STAMP;
use crate::start_digits::PLACES;
use crate::zones::{ZoneState, Zones};
use cell_types::{Call, Machine, Place, Posture, Zone, own_move, transfer};
use std::marker::Model;

/// The most plates of a start.
pub const MAX_PLATES: u32 = 6;

/// A state of the interlock.
#[derive(Clone, Copy, Debug, PartialEq, Eq)]
pub struct State {
    pub(crate) stamp: u32,
    stopped: bool,
    zones: Zones,
    full: Places,
}

impl Model for State {
    ghost use Rattle.cell_rules.specs.ModelState.{ModelState, model_state};
    ghost use Rattle.cell_rules.specs.Sound.{IsSound};

    ghost Value = { ModelState };

    ghost view = { λ a. model_state a.zones a.full a.stamp a.stopped };

    ghost invariant = { λ a. IsSound (model_state a.zones a.full a.stamp a.stopped) };

    ghost inverse = { λ s. record { zones = s.zones; full = s.full; stamp = s.stamp; stopped = s.stopped } };
}

/// Why a start is refused.
#[derive(Clone, Copy, Debug, PartialEq, Eq)]
pub enum StartFault {
    /// More than six places have plates, or both of the press, or the stamp is past the last one.
    BadStart,
}

impl State {
    /// The start with these places and this stamp. `BadStart` if more than six places have plates,
    /// or both of the press, or if the stamp is past the last one.
    pub fn start(places: [bool; PLACES], stamp: u32) -> Result<State, StartFault>
        ensures ok { IsOk result ↔ IsStart (places_of places) stamp }
        ensures value { IfOk result (λ s. s ≡ start_state (places_of places) stamp) }
    {
        let full = Places::from_flags(places);
        if full.len() <= MAX_PLATES
            && !(full.contains(Place::PressIn) && full.contains(Place::PressOut))
            && stamp <= LAST_STAMP
        {
            Ok(State {
                stamp,
                zones: Zones::all_free(),
                full,
                stopped: false,
            })
        } else {
            Err(StartFault::BadStart)
        }
    }

    /// The state of these zones, places and stamp, stopped or not, if they are sound.
    pub fn from_parts(zones: Zones, full: Places, stamp: u32, stopped: bool) -> Option<State>
        ensures some { IsSome result ↔ IsSound (model_state zones full stamp stopped) }
        ensures value { IfSome result (λ s. s ≡ model_state zones full stamp stopped) }
    {
        if is_sound(&zones, &full, stamp) {
            Some(State {
                stamp,
                zones,
                full,
                stopped,
            })
        } else {
            None
        }
    }

    /// The state of each zone.
    pub fn zones(&self) -> Zones
        ensures { result ≡ self.now.zones }
    {
        self.zones
    }

    /// The full places.
    pub fn full(&self) -> Places
        ensures { result ≡ self.now.full }
    {
        self.full
    }

    /// The state of a zone.
    pub fn zone(&self, zone: Zone) -> ZoneState
        ensures { result ≡ zone_at self.now zone }
    {
        self.zones.get(zone)
    }

    /// Who owns a zone.
    pub fn owner(&self, zone: Zone) -> Option<Machine>
        ensures { result ≡ owner_of self.now zone }
    {
        self.zone(zone).owner
    }

    /// Whether a plate is in a zone.
    pub fn flag(&self, zone: Zone) -> bool
        ensures { result ≡ (zone_at self.now zone).flag }
    {
        let at = self.zone(zone);
        at.flag
    }

    /// The posture of a zone.
    pub fn posture(&self, zone: Zone) -> Posture
        ensures { result ≡ posture_at self.now zone }
    {
        self.zone(zone).posture
    }

    /// The number of plates: the full places, and those in a zone.
    pub fn plates(&self) -> u32
        ensures { result ≡ plates_of self.now }
    {
        self.full.len() + self.zones.flags()
    }

    /// Whether a place has a plate.
    pub fn is_full(&self, place: Place) -> bool
        ensures { result ≡ is_full self.now place }
    {
        self.full.contains(place)
    }

    /// Whether the cell is stopped.
    pub fn stopped(&self) -> bool
        ensures { result ≡ self.now.stopped }
    {
        self.stopped
    }

    /// The first stamp plus the number of Done calls.
    pub fn stamp(&self) -> u32
        ensures stamp { result ≡ self.now.stamp }
        ensures small { result ≤ last_stamp }
    {
        self.stamp
    }

    /// The same zones, places and stop, with another stamp, which is at most `LAST_STAMP`: what an
    /// interlock opens with that goes on where another has ended.
    pub fn restamped(&self, stamp: u32) -> State
        requires small { stamp ≤ last_stamp }
        ensures { result ≡ restamped self.now stamp }
    {
        State { stamp, ..*self }
    }

    fn zones_after(&self, machine: Machine, call: Call) -> Zones
        ensures { result ≡ replies.zones_after self.now machine call }
    {
        let mut zones = self.zones;
        match call {
            Call::Claim(zone) => zones.set(zone, self.zone(zone).with_owner(Some(machine))),
            Call::Give(zone) => {
                let given = self.zone(zone).with_flag(true);
                zones.set(zone, given.with_owner(Some(other_party(machine, zone))));
            }
            Call::Yield(zone) => {
                let other = Some(other_party(machine, zone));
                zones.set(zone, self.zone(zone).with_owner(other));
            }
            Call::Take(zone) => zones.set(zone, self.zone(zone).with_flag(false)),
            Call::Release(zone) => zones.set(zone, self.zone(zone).with_owner(None)),
            Call::SetPose(pose) => zones = zones.after_pose(machine, pose),
            Call::Advance => zones = zones.after_halt(machine),
            Call::Inquire(_) | Call::Stop | Call::Resume => {}
        }
        zones
    }

    fn places_after(&self, machine: Machine, call: Call) -> Places
        ensures { result ≡ replies.places_after self.now machine call }
    {
        match call {
            Call::Give(zone) => self.full.after_give(self.transfer_given(machine, zone)),
            Call::Take(zone) => self.full.after_take(transfer(zone, self.posture(zone))),
            Call::Advance => self.full.after_work(own_move(machine)),
            _ => self.full,
        }
    }

    fn stopped_after(&self, call: Call) -> bool
        ensures { result ≡ replies.stopped_after self.now call }
    {
        match call {
            Call::Stop => true,
            Call::Resume => false,
            _ => self.stopped,
        }
    }

    /// The state after a call that is Done.
    pub(crate) fn after_call(&self, machine: Machine, call: Call) -> State
        requires { replies.reply self.now machine call ≡ Done }
        ensures { result ≡ replies.changed self.now machine call }
    {
        State {
            stamp: self.stamp + 1,
            zones: self.zones_after(machine, call),
            full: self.places_after(machine, call),
            stopped: self.stopped_after(call),
        }
    }
}
