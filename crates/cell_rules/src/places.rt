//! Sets of places; a state keeps its plates as one.
ghost use Rattle.std.specs.Prelude.{◌≡◌, ◌≤◌};
ghost use Rattle.cell_rules.specs.PlaceSet.{has, put_place};
ghost use Rattle.cell_rules.specs.ModelState.{size_of};
ghost use Rattle.cell_rules.specs.Start.{places_of};

use crate::start_digits::PLACES;
use cell_types::Place;
use std::marker::Model;

/// A set of places.
#[derive(Clone, Copy, Debug, PartialEq, Eq)]
pub struct Places {
    feed_entry: bool,
    feed_end: bool,
    table: bool,
    arm1: bool,
    press_in: bool,
    press_out: bool,
    arm2: bool,
    dep_entry: bool,
    dep_end: bool,
    crane: bool,
}

impl Model for Places {
    ghost use Rattle.cell_rules.specs.PlaceSet.{PlaceSet, place_set};

    ghost Value = { PlaceSet };

    ghost view = { λ a. place_set a.feed_entry a.feed_end a.table a.arm1 a.press_in a.press_out
        a.arm2 a.dep_entry a.dep_end a.crane };

    ghost inverse = { λ s. record {
      feed_entry = s.feed_entry;
      feed_end = s.feed_end;
      table = s.table;
      arm1 = s.arm1;
      press_in = s.press_in;
      press_out = s.press_out;
      arm2 = s.arm2;
      dep_entry = s.dep_entry;
      dep_end = s.dep_end;
      crane = s.crane;
    } };
}

impl Places {
    /// The set of ten flags, in the order of the places.
    pub fn from_flags(flags: [bool; PLACES]) -> Places
        ensures { result ≡ places_of flags }
    {
        Places {
            feed_entry: flags[0],
            feed_end: flags[1],
            table: flags[2],
            arm1: flags[3],
            press_in: flags[4],
            press_out: flags[5],
            arm2: flags[6],
            dep_entry: flags[7],
            dep_end: flags[8],
            crane: flags[9],
        }
    }

    /// Whether the set has a place.
    pub fn contains(&self, place: Place) -> bool
        ensures { result ≡ has self.now place }
    {
        match place {
            Place::FeedEntry => self.feed_entry,
            Place::FeedEnd => self.feed_end,
            Place::Table => self.table,
            Place::Arm1 => self.arm1,
            Place::PressIn => self.press_in,
            Place::PressOut => self.press_out,
            Place::Arm2 => self.arm2,
            Place::DepEntry => self.dep_entry,
            Place::DepEnd => self.dep_end,
            Place::Crane => self.crane,
        }
    }

    /// Puts a place into the set, or takes it out.
    pub fn set(&mut self, place: Place, full: bool)
        ensures { self.new ≡ put_place self.old place full }
    {
        match place {
            Place::FeedEntry => self.feed_entry = full,
            Place::FeedEnd => self.feed_end = full,
            Place::Table => self.table = full,
            Place::Arm1 => self.arm1 = full,
            Place::PressIn => self.press_in = full,
            Place::PressOut => self.press_out = full,
            Place::Arm2 => self.arm2 = full,
            Place::DepEntry => self.dep_entry = full,
            Place::DepEnd => self.dep_end = full,
            Place::Crane => self.crane = full,
        }
    }

    /// How many places the set has.
    pub fn len(&self) -> u32
        ensures size { result ≡ size_of self.now }
        ensures ten { result ≤ 10 }
    {
        u32::from(self.feed_entry)
            + u32::from(self.feed_end)
            + u32::from(self.table)
            + u32::from(self.arm1)
            + u32::from(self.press_in)
            + u32::from(self.press_out)
            + u32::from(self.arm2)
            + u32::from(self.dep_entry)
            + u32::from(self.dep_end)
            + u32::from(self.crane)
    }
}
