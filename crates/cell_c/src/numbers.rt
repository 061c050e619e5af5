//! The numbers of machines, zones, places, poses and postures.
ghost use Rattle.std.specs.Prelude.{◌≡◌, ◌↔◌, Some};
ghost use Rattle.cell_c.specs.Numbers as numbers;

use cell_types::{Machine, Place, Pose, Posture, Zone};

/// The number of a machine.
pub fn machine_number(machine: Machine) -> u8
    ensures { result ≡ numbers.machine_number machine }
{
    match machine {
        Machine::Feed => 1,
        Machine::Table => 2,
        Machine::Robot => 3,
        Machine::Press => 4,
        Machine::Deposit => 5,
        Machine::Crane => 6,
        Machine::Watch => 7,
    }
}

/// The number of an owner: its machine's, or 0 for nobody.
pub fn owner_number(owner: Option<Machine>) -> u8
    ensures { result ≡ numbers.owner_number owner }
{
    match owner {
        None => 0,
        Some(machine) => machine_number(machine),
    }
}

/// The machine with this number, or `None` if none has it.
pub fn machine_with(number: u8) -> Option<Machine>
    ensures { (machine : Machine)
        → (result ≡ Some machine) ↔ (number ≡ numbers.machine_number machine) }
{
    match number {
        1 => Some(Machine::Feed),
        2 => Some(Machine::Table),
        3 => Some(Machine::Robot),
        4 => Some(Machine::Press),
        5 => Some(Machine::Deposit),
        6 => Some(Machine::Crane),
        7 => Some(Machine::Watch),
        _ => None,
    }
}

/// The number of a zone.
pub fn zone_number(zone: Zone) -> u8
    ensures { result ≡ numbers.zone_number zone }
{
    match zone {
        Zone::Z1 => 1,
        Zone::Z2 => 2,
        Zone::Z3 => 3,
        Zone::Z4 => 4,
        Zone::Z5 => 5,
        Zone::Z6 => 6,
    }
}

/// The zone with this number, or `None` if none has it.
pub fn zone_with(number: u8) -> Option<Zone>
    ensures { (zone : Zone) → (result ≡ Some zone) ↔ (number ≡ numbers.zone_number zone) }
{
    match number {
        1 => Some(Zone::Z1),
        2 => Some(Zone::Z2),
        3 => Some(Zone::Z3),
        4 => Some(Zone::Z4),
        5 => Some(Zone::Z5),
        6 => Some(Zone::Z6),
        _ => None,
    }
}

/// The place with this number, or `None` if none has it.
pub fn place_with(number: u8) -> Option<Place>
    ensures { (place : Place) → (result ≡ Some place) ↔ (number ≡ numbers.place_number place) }
{
    match number {
        1 => Some(Place::FeedEntry),
        2 => Some(Place::FeedEnd),
        3 => Some(Place::Table),
        4 => Some(Place::Arm1),
        5 => Some(Place::PressIn),
        6 => Some(Place::PressOut),
        7 => Some(Place::Arm2),
        8 => Some(Place::DepEntry),
        9 => Some(Place::DepEnd),
        10 => Some(Place::Crane),
        _ => None,
    }
}

/// The pose with this number, or `None` if none has it.
pub fn pose_with(number: u8) -> Option<Pose>
    ensures { (pose : Pose) → (result ≡ Some pose) ↔ (number ≡ numbers.pose_number pose) }
{
    match number {
        1 => Some(Pose::Turning),
        2 => Some(Pose::Loading),
        3 => Some(Pose::Unloading),
        4 => Some(Pose::Travelling),
        5 => Some(Pose::Middle),
        6 => Some(Pose::Low),
        7 => Some(Pose::Top),
        8 => Some(Pose::Running),
        9 => Some(Pose::Landing),
        10 => Some(Pose::Halted),
        11 => Some(Pose::Offering),
        12 => Some(Pose::Standing),
        _ => None,
    }
}

/// The number of a posture.
pub fn posture_number(posture: Posture) -> u8
    ensures { result ≡ numbers.posture_number posture }
{
    match posture {
        Posture::Closed => 0,
        Posture::Moving => 1,
        Posture::OpenIn => 2,
        Posture::OpenOut => 3,
    }
}
