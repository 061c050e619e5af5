//! What is wrong with a plan.

/// The first fault of a plan, in this order: too many rows, a word that is too wide, the places, the zones, the poses,
/// the spaces. Each table is read from its first row to its last.
#[derive(Clone, Copy, Debug, PartialEq, Eq)]
pub enum PlanFault {
    /// There are more than 30 machines.
    TooManyMachines,
    /// There are more than 10 zones.
    TooManyZones,
    /// There are more than 64 poses.
    TooManyPoses,
    /// There are more than 16 places.
    TooManyPlaces,
    /// The plan's word has `missing` bits more than 64. It has none to seven for each zone, one for each place, and 21.
    TooWide { missing: u8 },
    /// A place is kept by a machine that isn't in the plan.
    NoSuchKeeper { place: usize },
    /// A zone's host isn't in the plan.
    NoSuchHost { zone: usize },
    /// A zone's guest isn't in the plan.
    NoSuchGuest { zone: usize },
    /// A zone's host is its guest.
    HostIsGuest { zone: usize },
    /// A zone's way inward doesn't lead from a place of its guest to a place of its host.
    InwardAstray { zone: usize },
    /// A zone's way outward doesn't lead from a place of its host to a place of its guest.
    OutwardAstray { zone: usize },
    /// A pose's machine isn't in the plan.
    NoSuchMachine { pose: usize },
    /// A pose gives a posture to a zone that its machine doesn't host, or that isn't in the plan.
    ForeignZone { pose: usize, zone: usize },
    /// A zone joins one with another host.
    TwoHosts { zone: usize },
    /// A zone joins a space that has its guest already.
    GuestTwice { zone: usize },
    /// A pose moves a zone and not the first one of its space, or gives only one of them a posture.
    HalfSpace { pose: usize, zone: usize },
}
