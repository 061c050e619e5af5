//! The refusals that a line of a program counts as faults.
ghost use Rattle.std.specs.Prelude.{◌≡◌};
ghost use Rattle.plan_controller.specs.Faults as faults;

use plan_types::Refusal;

/// A refusal that others' calls may mend, whatever it names.
#[derive(Clone, Copy, Debug, PartialEq, Eq)]
pub enum Mendable {
    /// Another machine owns the zone.
    Held,
    /// The zone's posture bars the call.
    Shut,
    /// Another machine, or nobody, owns a zone that the call needs.
    NotOwner,
    /// A plate is in a zone.
    PlateInZone,
    /// There is no plate.
    NoPlate,
    /// The receiving place has a plate, or one is on its way to it.
    PlaceFull,
    /// The caller gives nothing in the zone while it has its posture.
    WrongWay,
    /// The plant is stopped.
    Stopped,
}

/// All of them.
pub const ALL_MENDABLE: [Mendable; 8] = [
    Mendable::Held,
    Mendable::Shut,
    Mendable::NotOwner,
    Mendable::PlateInZone,
    Mendable::NoPlate,
    Mendable::PlaceFull,
    Mendable::WrongWay,
    Mendable::Stopped,
];

impl Mendable {
    /// What a refusal is, without what it names; `None` if waiting never mends it.
    pub fn of(refusal: Refusal) -> Option<Mendable>
        ensures { result ≡ faults.mendable refusal }
    {
        match refusal {
            Refusal::Held(_) => Some(Mendable::Held),
            Refusal::Shut(_) => Some(Mendable::Shut),
            Refusal::NotOwner(_) => Some(Mendable::NotOwner),
            Refusal::PlateInZone(_) => Some(Mendable::PlateInZone),
            Refusal::NoPlate => Some(Mendable::NoPlate),
            Refusal::PlaceFull => Some(Mendable::PlaceFull),
            Refusal::WrongWay => Some(Mendable::WrongWay),
            Refusal::Stopped => Some(Mendable::Stopped),
            Refusal::NotParty
            | Refusal::AlreadyMine
            | Refusal::Jump
            | Refusal::NoPose
            | Refusal::Worn
            | Refusal::NotStopped => None,
        }
    }
}

/// The refusals that stop a machine at a line of its program, though others' calls may mend them.
#[derive(Clone, Copy, Debug, PartialEq, Eq)]
pub struct Faults {
    /// Whether [`Mendable::Held`] does.
    pub held: bool,
    /// Whether [`Mendable::Shut`] does.
    pub shut: bool,
    /// Whether [`Mendable::NotOwner`] does.
    pub not_owner: bool,
    /// Whether [`Mendable::PlateInZone`] does.
    pub plate_in_zone: bool,
    /// Whether [`Mendable::NoPlate`] does.
    pub no_plate: bool,
    /// Whether [`Mendable::PlaceFull`] does.
    pub place_full: bool,
    /// Whether [`Mendable::WrongWay`] does.
    pub wrong_way: bool,
    /// Whether [`Mendable::Stopped`] does.
    pub stopped: bool,
}

impl Faults {
    /// No such refusal: each that others' calls may mend is waited out.
    pub fn none() -> Faults
        ensures { result ≡ faults.no_faults }
    {
        Faults {
            held: false,
            shut: false,
            not_owner: false,
            plate_in_zone: false,
            no_plate: false,
            place_full: false,
            wrong_way: false,
            stopped: false,
        }
    }

    /// Whether a refusal is one of them.
    pub fn has(self, refusal: Mendable) -> bool
        ensures { result ≡ faults.has self refusal }
    {
        match refusal {
            Mendable::Held => self.held,
            Mendable::Shut => self.shut,
            Mendable::NotOwner => self.not_owner,
            Mendable::PlateInZone => self.plate_in_zone,
            Mendable::NoPlate => self.no_plate,
            Mendable::PlaceFull => self.place_full,
            Mendable::WrongWay => self.wrong_way,
            Mendable::Stopped => self.stopped,
        }
    }

    /// These and one more.
    pub fn with(self, refusal: Mendable) -> Faults
        ensures { result ≡ faults.with_one self refusal }
    {
        let mut all = self;
        match refusal {
            Mendable::Held => all.held = true,
            Mendable::Shut => all.shut = true,
            Mendable::NotOwner => all.not_owner = true,
            Mendable::PlateInZone => all.plate_in_zone = true,
            Mendable::NoPlate => all.no_plate = true,
            Mendable::PlaceFull => all.place_full = true,
            Mendable::WrongWay => all.wrong_way = true,
            Mendable::Stopped => all.stopped = true,
        }
        all
    }
}
