//! A belt that carries plates past a light barrier, for the parts of both belts.
ghost use Rattle.std.specs.Prelude.{◌≡◌, ◌↔◌, IsTrue, pos, false};
ghost use Rattle.cell_rules.specs.ModelState.{is_full};
ghost use Rattle.cell_parts.specs.Plant.{feed_at_start, deposit_at_start, plate_if, set_belt, moved_plate};
ghost use Rattle.cell_parts.specs.Plant.{moved_belt, loaded_belt, advanced, unloaded_belt};
ghost use Rattle.cell_parts.specs.Shows.{IsInBarrier, SeesPlate};

use crate::axis::SPEED;
use cell_rules::State;
use cell_types::Place;

/// The end of a belt, in tenths of a millimetre from its entry. No plate goes further.
pub const BELT_END: i32 = 1100;

/// The first position at which the light barrier sees a plate.
pub const BARRIER_FIRST: i32 = 900;

/// The last position at which the light barrier sees a plate.
pub const BARRIER_LAST: i32 = 999;

/// The position of the plate at the feed belt's end at the start: in the light barrier.
pub const FEED_PLATE_START: i32 = 900;

/// The position of the plate at the deposit belt's end at the start: after the light barrier.
pub const DEPOSIT_PLATE_START: i32 = 1000;

/// A belt with its plates. Positions are tenths of a millimetre from its entry.
#[derive(Clone, Copy, Debug, PartialEq, Eq)]
pub struct Belt {
    /// The position of the plate that counts as the one at the belt's entry, if there is one.
    pub entry: Option<i32>,
    /// The position of the plate that counts as the one at the belt's end, if there is one.
    pub last: Option<i32>,
    /// Whether the belt runs.
    pub runs: bool,
}

impl Belt {
    /// The feed belt at the start: a plate at its end is in the light barrier, at 900.
    pub fn feed(state: &State) -> Belt
        ensures { result ≡ feed_at_start state.now }
    {
        Belt::at_rest(state, Place::FeedEntry, Place::FeedEnd, FEED_PLATE_START)
    }

    /// The deposit belt at the start: a plate at its end is after the light barrier, at 1000.
    pub fn deposit(state: &State) -> Belt
        ensures { result ≡ deposit_at_start state.now }
    {
        Belt::at_rest(state, Place::DepEntry, Place::DepEnd, DEPOSIT_PLATE_START)
    }

    // A belt that doesn't run, with a plate at each of these places that is full.
    fn at_rest(state: &State, entry: Place, last: Place, end: i32) -> Belt
        ensures { result ≡ record {
          entry = plate_if (is_full state.now entry) (pos 0);
          last = plate_if (is_full state.now last) end;
          runs = false;
        } }
    {
        Belt {
            entry: state.is_full(entry).then_some(0),
            last: state.is_full(last).then_some(end),
            runs: false,
        }
    }

    /// Whether a plate is in the light barrier.
    pub(crate) fn is_seen(&self) -> bool
        ensures { IsTrue result ↔ SeesPlate self.now }
    {
        is_in_barrier(self.entry) || is_in_barrier(self.last)
    }

    /// The belt after a command to run or to stop.
    pub(crate) fn set(self, runs: bool) -> Belt
        ensures { result ≡ set_belt self runs }
    {
        Belt { runs, ..self }
    }

    /// The belt a tick later. If it runs, it has carried its plates.
    pub(crate) fn after_tick(self) -> Belt
        ensures { result ≡ moved_belt self }
    {
        if !self.runs {
            return self;
        }
        Belt {
            entry: plate_after_tick(self.entry),
            last: plate_after_tick(self.last),
            ..self
        }
    }

    /// The belt with a new plate at its entry.
    pub(crate) fn with_plate_at_entry(self) -> Belt
        ensures { result ≡ loaded_belt self }
    {
        Belt {
            entry: Some(0),
            ..self
        }
    }

    /// The belt after its entry's plate has become its end's plate, at the same position.
    pub(crate) fn with_plate_at_end(self) -> Belt
        ensures { result ≡ advanced self }
    {
        Belt {
            entry: None,
            last: self.entry,
            ..self
        }
    }

    /// The belt without the plate at its end.
    pub(crate) fn without_plate_at_end(self) -> Belt
        ensures { result ≡ unloaded_belt self }
    {
        Belt { last: None, ..self }
    }
}

// Whether there is a plate, and it is in the light barrier.
fn is_in_barrier(plate: Option<i32>) -> bool
    ensures { IsTrue result ↔ IsInBarrier plate }
{
    match plate {
        Some(position) => BARRIER_FIRST <= position && position <= BARRIER_LAST,
        None => false,
    }
}

// The plate after its belt has run for a tick.
fn plate_after_tick(plate: Option<i32>) -> Option<i32>
    ensures { result ≡ moved_plate plate }
{
    match plate {
        Some(position) => Some(position.saturating_add(SPEED).min(BELT_END)),
        None => None,
    }
}
