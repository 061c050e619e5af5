//! What a call that is Done changes.
ghost use Rattle.std.specs.Prelude.{◌≡◌};
ghost use Rattle.cell_rules.specs.Reply as replies;
ghost use Rattle.cell_rules.specs.ZoneMap.{map_zones};

use crate::places::Places;
use crate::zones::{ZoneState, Zones};
use cell_types::{Machine, Place, Pose, Posture, Transfer, Zone, guest, host, posture_in};

/// The other party of a zone.
pub fn other_party(machine: Machine, zone: Zone) -> Machine
    ensures { result ≡ replies.other_party machine zone }
{
    if machine == host(zone) {
        guest(zone)
    } else {
        host(zone)
    }
}

fn zone_after_pose(machine: Machine, pose: Pose, zone: Zone, at: ZoneState) -> ZoneState
    ensures { result ≡ replies.posed machine pose zone at }
{
    ZoneState {
        posture: posture_in(machine, pose, zone).unwrap_or(at.posture),
        ..at
    }
}

fn zone_after_halt(machine: Machine, zone: Zone, at: ZoneState) -> ZoneState
    ensures { result ≡ replies.halted machine zone at }
{
    let is_belt = matches!(machine, Machine::Feed | Machine::Deposit);
    if is_belt && host(zone) == machine {
        ZoneState {
            posture: Posture::Closed,
            ..at
        }
    } else {
        at
    }
}

impl Zones {
    pub(crate) fn after_pose(&self, machine: Machine, pose: Pose) -> Zones
        ensures { result ≡ map_zones (replies.posed machine pose) self.now }
    {
        Zones {
            z1: zone_after_pose(machine, pose, Zone::Z1, self.z1),
            z2: zone_after_pose(machine, pose, Zone::Z2, self.z2),
            z3: zone_after_pose(machine, pose, Zone::Z3, self.z3),
            z4: zone_after_pose(machine, pose, Zone::Z4, self.z4),
            z5: zone_after_pose(machine, pose, Zone::Z5, self.z5),
            z6: zone_after_pose(machine, pose, Zone::Z6, self.z6),
        }
    }

    pub(crate) fn after_halt(&self, machine: Machine) -> Zones
        ensures { result ≡ map_zones (replies.halted machine) self.now }
    {
        Zones {
            z1: zone_after_halt(machine, Zone::Z1, self.z1),
            z2: zone_after_halt(machine, Zone::Z2, self.z2),
            z3: zone_after_halt(machine, Zone::Z3, self.z3),
            z4: zone_after_halt(machine, Zone::Z4, self.z4),
            z5: zone_after_halt(machine, Zone::Z5, self.z5),
            z6: zone_after_halt(machine, Zone::Z6, self.z6),
        }
    }
}

impl Places {
    /// The set after a plate has left the giving place of its way.
    pub(crate) fn after_give(mut self, row: Option<Transfer>) -> Places
        ensures { result ≡ replies.emptied self row }
    {
        if let Some(row) = row {
            self.set(row.from, false);
        }
        self
    }

    /// The set after a plate has come to the receiving place of its way.
    pub(crate) fn after_take(mut self, row: Option<Transfer>) -> Places
        ensures { result ≡ replies.filled self row }
    {
        if let Some(row) = row {
            self.set(row.to, true);
        }
        self
    }

    /// The set after a machine has moved its plate.
    pub(crate) fn after_work(mut self, way: Option<(Place, Place)>) -> Places
        ensures { result ≡ replies.worked self way }
    {
        if let Some((from, to)) = way {
            self.set(from, false);
            self.set(to, true);
        }
        self
    }
}
