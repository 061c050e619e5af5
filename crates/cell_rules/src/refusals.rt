//! Why a call is refused: each condition by itself, and for each call the order of its conditions.
ghost use Rattle.std.specs.Prelude.{◌≡◌};
ghost use Rattle.cell_rules.specs.Sound.{is_party as is_party_of, is_open as opens_way};
ghost use Rattle.cell_rules.specs.Refusals as refusals;
ghost use Rattle.cell_rules.specs.Refusals.{posture_at};
ghost use Rattle.cell_rules.specs.Types.{same_posture, Moving};

use crate::sound::is_owned_by;
use crate::stamp::LAST_STAMP;
use crate::state::State;
use cell_types::{
    Machine, Place, Pose, Posture, Refusal, Transfer, Zone, guest, host, posture_in, transfer,
};

// The first refusal of these. Each is computed only if there is none before it.
macro_rules! first {
    ($last:expr) => { $last };
    ($refusal:expr, $($more:expr),+) => {
        match $refusal {
            None => first!($($more),+),
            refusal => refusal,
        }
    };
}

/// Whether a machine is the host or the guest of a zone.
pub fn is_party(machine: Machine, zone: Zone) -> bool
    ensures { result ≡ is_party_of machine zone }
{
    machine == host(zone) || machine == guest(zone)
}

/// Whether a zone is open, inward or outward.
pub fn is_open(posture: Posture) -> bool
    ensures { result ≡ opens_way posture }
{
    matches!(posture, Posture::OpenIn | Posture::OpenOut)
}

fn not_party(machine: Machine, zone: Zone) -> Option<Refusal>
    ensures { result ≡ refusals.not_party machine zone }
{
    (!is_party(machine, zone)).then_some(Refusal::NotParty)
}

fn wrong_way(row: Option<Transfer>) -> Option<Refusal>
    ensures { result ≡ refusals.wrong_way row }
{
    row.is_none().then_some(Refusal::WrongWay)
}

fn not_watch(machine: Machine) -> Option<Refusal>
    ensures { result ≡ refusals.not_watch machine }
{
    (machine != Machine::Watch).then_some(Refusal::NotParty)
}

fn already_mine(owner: Option<Machine>, machine: Machine) -> Option<Refusal>
    ensures { result ≡ refusals.mine_by owner machine }
{
    is_owned_by(owner, machine).then_some(Refusal::AlreadyMine)
}

fn held_refusal(owner: Option<Machine>, machine: Machine) -> Option<Refusal>
    ensures { result ≡ refusals.held_by owner machine }
{
    match owner {
        Some(owner) if owner != machine => Some(Refusal::Held(owner)),
        _ => None,
    }
}

impl State {
    /// Whether a machine owns a zone.
    pub(crate) fn owns(&self, machine: Machine, zone: Zone) -> bool
        ensures { result ≡ refusals.owns self.now machine zone }
    {
        is_owned_by(self.owner(zone), machine)
    }

    fn shut_to_guest(&self, machine: Machine, zone: Zone) -> Option<Refusal>
        ensures { result ≡ refusals.shut_to_guest self.now machine zone }
    {
        let posture = self.posture(zone);
        (machine == guest(zone) && !is_open(posture)).then_some(Refusal::Shut(posture))
    }

    pub(crate) fn worn_refusal(&self) -> Option<Refusal>
        ensures { result ≡ refusals.worn self.now }
    {
        (!(self.stamp() < LAST_STAMP)).then_some(Refusal::Worn)
    }

    pub(crate) fn while_stopped(&self) -> Option<Refusal>
        ensures { result ≡ refusals.while_stopped self.now }
    {
        self.stopped().then_some(Refusal::Stopped)
    }

    fn not_stopped(&self) -> Option<Refusal>
        ensures { result ≡ refusals.not_stopped self.now }
    {
        (!self.stopped()).then_some(Refusal::NotStopped)
    }

    fn not_owner(&self, machine: Machine, zone: Zone) -> Option<Refusal>
        ensures { result ≡ refusals.not_owner self.now machine zone }
    {
        let owner = self.owner(zone);
        (!is_owned_by(owner, machine)).then_some(Refusal::NotOwner(owner))
    }

    fn plate_in_zone(&self, zone: Zone) -> Option<Refusal>
        ensures { result ≡ refusals.plate_in_zone self.now zone }
    {
        self.flag(zone).then_some(Refusal::PlateInZone(zone))
    }

    /// Whether a zone is Moving.
    pub(crate) fn is_moving(&self, zone: Zone) -> bool
        ensures { result ≡ same_posture (posture_at self.now zone) Moving }
    {
        matches!(self.posture(zone), Posture::Moving)
    }

    fn shut_while_moving(&self, zone: Zone) -> Option<Refusal>
        ensures { result ≡ refusals.shut_while_moving self.now zone }
    {
        self.is_moving(zone)
            .then_some(Refusal::Shut(Posture::Moving))
    }

    fn in_use(&self, machine: Machine, zone: Zone) -> Option<Refusal>
        ensures { result ≡ refusals.in_use self.now machine zone }
    {
        let in_use = machine == Machine::Feed
            && zone == Zone::Z1
            && self.is_moving(Zone::Z6)
            && self.is_full(Place::FeedEnd);
        in_use.then_some(Refusal::InUse)
    }

    fn shut_refusal(&self, zone: Zone) -> Option<Refusal>
        ensures { result ≡ refusals.shut self.now zone }
    {
        let posture = self.posture(zone);
        (!is_open(posture)).then_some(Refusal::Shut(posture))
    }

    /// The way of a plate that a machine can give.
    pub(crate) fn transfer_given(&self, machine: Machine, zone: Zone) -> Option<Transfer>
        ensures { result ≡ refusals.transfer_given self.now machine zone }
    {
        match transfer(zone, self.posture(zone)) {
            Some(row) if row.giver == machine => Some(row),
            _ => None,
        }
    }

    fn nothing_to_give(&self, row: Option<Transfer>) -> Option<Refusal>
        ensures { result ≡ refusals.nothing_to_give self.now row }
    {
        match row {
            Some(row) => (!self.is_full(row.from)).then_some(Refusal::NoPlate),
            None => None,
        }
    }

    fn no_room(&self, row: Option<Transfer>) -> Option<Refusal>
        ensures { result ≡ refusals.no_room self.now row }
    {
        match row {
            Some(row) => self.is_full(row.to).then_some(Refusal::PlaceFull),
            None => None,
        }
    }

    // Why a plate can't go this way.
    fn way_refusal(&self, row: Option<Transfer>) -> Option<Refusal>
        ensures { result ≡ refusals.way_refusal self.now row }
    {
        first!(
            wrong_way(row),
            self.nothing_to_give(row),
            self.no_room(row),
            self.worn_refusal()
        )
    }

    fn no_plate_in_zone(&self, zone: Zone) -> Option<Refusal>
        ensures { result ≡ refusals.no_plate_in_zone self.now zone }
    {
        (!self.flag(zone)).then_some(Refusal::NoPlate)
    }

    #[inline(always)]
    pub(crate) fn claim_refusal(&self, machine: Machine, zone: Zone) -> Option<Refusal>
        ensures { result ≡ refusals.claim_refusal self.now machine zone }
    {
        let owner = self.owner(zone);
        first!(
            not_party(machine, zone),
            self.while_stopped(),
            already_mine(owner, machine),
            held_refusal(owner, machine),
            self.shut_to_guest(machine, zone),
            self.worn_refusal()
        )
    }

    #[inline(always)]
    pub(crate) fn give_refusal(&self, machine: Machine, zone: Zone) -> Option<Refusal>
        ensures { result ≡ refusals.give_refusal self.now machine zone }
    {
        first!(
            not_party(machine, zone),
            self.while_stopped(),
            self.not_owner(machine, zone),
            self.plate_in_zone(zone),
            self.way_refusal(self.transfer_given(machine, zone))
        )
    }

    #[inline(always)]
    pub(crate) fn yield_refusal(&self, machine: Machine, zone: Zone) -> Option<Refusal>
        ensures { result ≡ refusals.yield_refusal self.now machine zone }
    {
        first!(
            not_party(machine, zone),
            self.not_owner(machine, zone),
            self.plate_in_zone(zone),
            self.shut_refusal(zone),
            self.in_use(machine, zone),
            self.worn_refusal()
        )
    }

    #[inline(always)]
    pub(crate) fn take_refusal(&self, machine: Machine, zone: Zone) -> Option<Refusal>
        ensures { result ≡ refusals.take_refusal self.now machine zone }
    {
        first!(
            not_party(machine, zone),
            self.not_owner(machine, zone),
            self.no_plate_in_zone(zone),
            self.worn_refusal()
        )
    }

    #[inline(always)]
    pub(crate) fn release_refusal(&self, machine: Machine, zone: Zone) -> Option<Refusal>
        ensures { result ≡ refusals.release_refusal self.now machine zone }
    {
        first!(
            not_party(machine, zone),
            self.not_owner(machine, zone),
            self.plate_in_zone(zone),
            self.shut_while_moving(zone),
            self.in_use(machine, zone),
            self.worn_refusal()
        )
    }

    #[inline(always)]
    pub(crate) fn stop_refusal(&self, machine: Machine) -> Option<Refusal>
        ensures { result ≡ refusals.stop_refusal self.now machine }
    {
        first!(
            not_watch(machine),
            self.while_stopped(),
            self.worn_refusal()
        )
    }

    #[inline(always)]
    pub(crate) fn resume_refusal(&self, machine: Machine) -> Option<Refusal>
        ensures { result ≡ refusals.resume_refusal self.now machine }
    {
        first!(not_watch(machine), self.not_stopped(), self.worn_refusal())
    }
}
