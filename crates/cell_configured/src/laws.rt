//! A law of configured cells, the contract of a function that does nothing.
ghost use Rattle.cell_configured.specs.Laws as laws;

use cell_plant::Observer;

/// What an observer has seen of a configured cell is a run, or its beginning, from the configuration's start, by its five
/// points, in which each potentiometer reads the curve in its place.
pub fn runs_are_by_five_curves<W: Observer>()
    ensures runs { laws.RunsAreSeen W.sees }
    ensures beginnings { laws.BeginningsAreSeen W.sees }
{}
