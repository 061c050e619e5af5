//! Who meets in a zone, the way of a plate through it, and the postures that poses give it.

ghost use Rattle.std.specs.Prelude.{◌≡◌};
ghost use Rattle.cell_types.specs.Tables.{host_of, guest_of, transfer_of, posture_of};
ghost use Rattle.cell_types.specs.Ways.{keeper_of, own_move_of};

use crate::machine::Machine;
use crate::place::Place;
use crate::pose::Pose;
use crate::posture::Posture;
use crate::zone::{Transfer, Zone};

/// The machine that a zone belongs to.
pub fn host(zone: Zone) -> Machine
    ensures { result ≡ host_of zone }
{
    match zone {
        Zone::Z1 | Zone::Z2 => Machine::Table,
        Zone::Z3 => Machine::Press,
        Zone::Z4 | Zone::Z5 => Machine::Deposit,
        Zone::Z6 => Machine::Feed,
    }
}

/// The other machine that enters a zone.
pub fn guest(zone: Zone) -> Machine
    ensures { result ≡ guest_of zone }
{
    match zone {
        Zone::Z1 => Machine::Feed,
        Zone::Z2 | Zone::Z3 | Zone::Z4 => Machine::Robot,
        Zone::Z5 | Zone::Z6 => Machine::Crane,
    }
}

/// The machine that a place belongs to: its calls alone fill or empty the place.
pub fn keeper(place: Place) -> Machine
    ensures { result ≡ keeper_of place }
{
    match place {
        Place::FeedEntry | Place::FeedEnd => Machine::Feed,
        Place::Table => Machine::Table,
        Place::Arm1 | Place::Arm2 => Machine::Robot,
        Place::PressIn | Place::PressOut => Machine::Press,
        Place::DepEntry | Place::DepEnd => Machine::Deposit,
        Place::Crane => Machine::Crane,
    }
}

/// The way of a plate through a zone in a posture; `None` if no plate can pass.
pub fn transfer(zone: Zone, posture: Posture) -> Option<Transfer>
    ensures { result ≡ transfer_of zone posture }
{
    let (from, to) = match (zone, posture) {
        (Zone::Z1, Posture::OpenIn) => (Place::FeedEnd, Place::Table),
        (Zone::Z2, Posture::OpenOut) => (Place::Table, Place::Arm1),
        (Zone::Z3, Posture::OpenIn) => (Place::Arm1, Place::PressIn),
        (Zone::Z3, Posture::OpenOut) => (Place::PressOut, Place::Arm2),
        (Zone::Z4, Posture::OpenIn) => (Place::Arm2, Place::DepEntry),
        (Zone::Z5, Posture::OpenOut) => (Place::DepEnd, Place::Crane),
        (Zone::Z6, Posture::OpenIn) => (Place::Crane, Place::FeedEntry),
        _ => return None,
    };
    let (giver, receiver) = match posture {
        Posture::OpenIn => (guest(zone), host(zone)),
        _ => (host(zone), guest(zone)),
    };
    Some(Transfer {
        giver,
        receiver,
        from,
        to,
    })
}

/// The posture that a pose of a machine gives a zone; `None` if it gives that zone none.
pub fn posture_in(machine: Machine, pose: Pose, zone: Zone) -> Option<Posture>
    ensures { result ≡ posture_of machine pose zone }
{
    match (machine, pose, zone) {
        (Machine::Table, Pose::Turning, Zone::Z1 | Zone::Z2) => Some(Posture::Moving),
        (Machine::Table, Pose::Loading, Zone::Z1) => Some(Posture::OpenIn),
        (Machine::Table, Pose::Loading, Zone::Z2) => Some(Posture::Closed),
        (Machine::Table, Pose::Unloading, Zone::Z1) => Some(Posture::Closed),
        (Machine::Table, Pose::Unloading, Zone::Z2) => Some(Posture::OpenOut),
        (Machine::Press, Pose::Travelling, Zone::Z3) => Some(Posture::Moving),
        (Machine::Press, Pose::Middle, Zone::Z3) => Some(Posture::OpenIn),
        (Machine::Press, Pose::Low, Zone::Z3) => Some(Posture::OpenOut),
        (Machine::Press, Pose::Top, Zone::Z3) => Some(Posture::Closed),
        (Machine::Feed, Pose::Running, Zone::Z6) => Some(Posture::Moving),
        (Machine::Feed, Pose::Landing, Zone::Z6) => Some(Posture::OpenIn),
        (Machine::Feed, Pose::Halted, Zone::Z6) => Some(Posture::Closed),
        (Machine::Deposit, Pose::Running, Zone::Z4 | Zone::Z5) => Some(Posture::Moving),
        (Machine::Deposit, Pose::Landing | Pose::Standing, Zone::Z4) => Some(Posture::OpenIn),
        (Machine::Deposit, Pose::Offering | Pose::Standing, Zone::Z5) => Some(Posture::OpenOut),
        (Machine::Deposit, Pose::Landing, Zone::Z5) => Some(Posture::Closed),
        (Machine::Deposit, Pose::Offering, Zone::Z4) => Some(Posture::Closed),
        (Machine::Deposit, Pose::Halted, Zone::Z4 | Zone::Z5) => Some(Posture::Closed),
        _ => None,
    }
}

/// The way of a plate by a machine's own work: along a belt, or in the press from loaded to forged;
/// `None` for other machines.
pub fn own_move(machine: Machine) -> Option<(Place, Place)>
    ensures { result ≡ own_move_of machine }
{
    match machine {
        Machine::Feed => Some((Place::FeedEntry, Place::FeedEnd)),
        Machine::Deposit => Some((Place::DepEntry, Place::DepEnd)),
        Machine::Press => Some((Place::PressIn, Place::PressOut)),
        _ => None,
    }
}
