//! Laws of the ring, and of the plates on it in every legal history from a sound opening, each the
//! contract of a function that does nothing. A history is the list of the events since the opening,
//! oldest first.
ghost use Rattle.cell_rules.specs.Names.{IsLegal, IsStartState};
ghost use Rattle.cell_ring.specs.Arriving.{ArriveAgain, EachPlateArrives, EachPlateMoves};
ghost use Rattle.cell_ring.specs.Figures.{BoundsInFigures};
ghost use Rattle.cell_ring.specs.Following.{InEachStretch, NoneOvertakes, PlatesAreFollowed};
ghost use Rattle.cell_ring.specs.Lap.{LapGoesRound};
ghost use Rattle.cell_ring.specs.OneLap.{OneLapOfOnePlate};
ghost use Rattle.cell_ring.specs.Plates.{PlatesAreOnRing, RulesFollowLap};
ghost use Rattle.cell_ring.specs.RingRows.{RingRows};
ghost use Rattle.cell_ring.specs.WrongHistories.{WrongHistories};

use cell_rules::State;
use cell_rules::laws::states_are_sound;
use cell_types::Event;

/// The lap is one ring, which has each position once: seven gives, seven takes, three advances.
pub fn lap_goes_round()
    ensures { LapGoesRound }
{}

/// In each sound state a Done give, take or advance moves one plate, as the lap has it, to a
/// position that was empty. No other call moves a plate.
pub fn rules_follow_lap()
    ensures { RulesFollowLap }
{}

/// Each plate of a state is at one position of the ring, and where a zone has a plate, the place
/// that it goes to is empty.
pub fn plates_are_on_ring(state: &State)
    ensures { PlatesAreOnRing state.now }
{
    states_are_sound(state);
}

/// In each stretch of a legal history a plate is where its own moves have taken it, no two plates
/// are at one position, and each give, take and advance that is Done is a move of one plate.
pub fn plates_are_followed(opening: &State, history: &[Event])
    requires { IsLegal opening.now history.now }
    ensures { InEachStretch PlatesAreFollowed opening.now history.now }
{
    states_are_sound(opening);
}

/// No plate overtakes another: they keep their order round the ring.
pub fn none_overtakes(opening: &State, history: &[Event])
    requires { IsLegal opening.now history.now }
    ensures { InEachStretch NoneOvertakes opening.now history.now }
{
    states_are_sound(opening);
}

/// In each stretch of a legal history with more than 15 (n - 1) moves of its n plates, each plate
/// has moved. In k n + 14 (n - 1) moves each has made k.
pub fn each_plate_moves(opening: &State, history: &[Event])
    requires { IsLegal opening.now history.now }
    ensures { InEachStretch EachPlateMoves opening.now history.now }
{
    states_are_sound(opening);
}

/// In each stretch of a legal history with 17 k n + 14 (n - 1) moves of its n plates, each plate is
/// forged and delivered k times.
pub fn each_plate_arrives(opening: &State, history: &[Event])
    requires { IsLegal opening.now history.now }
    ensures { InEachStretch EachPlateArrives opening.now history.now }
{
    states_are_sound(opening);
}

/// From a start, whatever has gone before, in 172 more moves of plates each plate is forged and
/// delivered again.
pub fn plates_arrive_again(opening: &State, history: &[Event])
    requires start { IsStartState opening.now }
    requires legal { IsLegal opening.now history.now }
    ensures { ArriveAgain opening.now history.now }
{
    states_are_sound(opening);
    each_plate_arrives(opening, history);
}

/// How many moves suffice for a lap of each of one to six plates; and two plates of which one stays
/// while the other makes 15 moves.
pub fn bounds_in_figures()
    ensures { BoundsInFigures }
{}

/// One lap of one plate, call by call.
pub fn one_lap_of_one_plate()
    ensures { OneLapOfOnePlate }
{}

/// Made-up histories, of each of which one of the laws above doesn't hold: a plate stays, isn't
/// forged, isn't delivered, or isn't where its moves took it.
pub fn wrong_histories_are_refused()
    ensures { WrongHistories }
{}

/// The moves of a lap, distances, where the plates of some states are, and which events move them,
/// row by row.
#[tactic(auto, using(crate::proofs::Rows::ring_rows))]
pub fn ring_by_rows()
    ensures { RingRows }
{}
