//! What a zone takes in the plan's word.
ghost use Rattle.std.specs.Prelude.{◌≡◌, ◌≤◌};
ghost use Rattle.plan_types.specs.Table as table;

use crate::posture::Posture;

/// The postures that a zone can have. It starts `Closed`; poses give it others.
#[derive(Clone, Copy, Debug, PartialEq, Eq)]
pub enum Postures {
    /// `Closed` alone.
    Shut,
    /// `Closed` and this one.
    Two(Posture),
    /// More than two.
    All,
}

/// What a zone has in the plan's word: by its space, its ways and by the postures that poses give it.
#[repr(C)]
#[derive(Clone, Copy, Debug, PartialEq, Eq)]
pub struct ZoneShape {
    /// How many guests its space has; 0 if an earlier zone tells the owner.
    pub guests: u8,
    /// Whether it has a flag, as a plate has a way through it.
    pub flag: bool,
    /// Whether some pose gives it `Moving`.
    pub moves: bool,
    /// Whether some pose gives it `OpenIn`.
    pub opens_in: bool,
    /// Whether some pose gives it `OpenOut`.
    pub opens_out: bool,
}

impl Postures {
    /// How many bits tell one of these.
    pub fn bits(&self) -> u8
        ensures bits { result ≡ table.posture_bits self.now }
        ensures few { result ≤ 2 }
    {
        match self {
            Postures::Shut => 0,
            Postures::Two(_) => 1,
            Postures::All => 2,
        }
    }
}

fn owner_bits(guests: u8) -> u8
    ensures bits { result ≡ table.owner_bits guests }
    ensures few { result ≤ 4 }
{
    match guests {
        0 => 0,
        1 | 2 => 2,
        3..=6 => 3,
        _ => 4,
    }
}

impl ZoneShape {
    /// The postures that the zone can have.
    pub fn postures(&self) -> Postures
        ensures { result ≡ table.postures_of self.now }
    {
        match (self.moves, self.opens_in, self.opens_out) {
            (false, false, false) => Postures::Shut,
            (true, false, false) => Postures::Two(Posture::Moving),
            (false, true, false) => Postures::Two(Posture::OpenIn),
            (false, false, true) => Postures::Two(Posture::OpenOut),
            _ => Postures::All,
        }
    }

    /// How many bits the zone takes: two to four for the owner of its space, or none if an earlier zone has them, one
    /// for its flag if it has one, and none, one or two for its posture.
    pub fn bits(&self) -> u8
        ensures bits { result ≡ table.shape_bits self.now }
        ensures few { result ≤ 7 }
    {
        owner_bits(self.guests) + u8::from(self.flag) + self.postures().bits()
    }
}
