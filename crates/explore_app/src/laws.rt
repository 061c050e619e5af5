//! Laws of the starts that are explored, and of what is printed of them, each the contract of a function that does
//! nothing.

ghost use Rattle.cell_explorer.specs.declared.walk.Walk.{Walk};
ghost use Rattle.cell_rules.specs.ModelState.{ModelState};
ghost use Rattle.cell_types.specs.declared.call.Call.{Call};
ghost use Rattle.cell_types.specs.declared.machine.Machine.{Machine};
ghost use Rattle.explore_app.specs.declared.tally.Tally.{Tally};
ghost use Rattle.explore_app.specs.LineExamples.{ChoicesAreMet, LinesAreMet, TalliesAreMet};
ghost use Rattle.explore_app.specs.LinesByNumber.{LinesByMachine, LinesByNumber, RingsByMachine, RoundsByTurn};
ghost use Rattle.explore_app.specs.LinesByNumber.{ScreensByLine};
ghost use Rattle.explore_app.specs.ScreenExamples.{EachIsMet, RequestsAreMet, ScreensAreMet};
ghost use Rattle.explore_app.specs.TalliesByNumber.{LivenessByNumber, TalliesByNumber, TallyLinesByNumber};
ghost use Rattle.explore_app.specs.Tellings.{TellingsAreWhole};
ghost use Rattle.explore_app.specs.Starts.{StartsAreAll, StartsAreCounted};

/// Each start with the stamp 0 is among those that are explored with its number of plates.
pub fn starts_are_all()
    ensures { StartsAreAll }
{}

/// How many starts there are with each number of plates: 1, 10, 44, 112, 182, 196 and 140.
pub fn starts_are_counted()
    ensures { StartsAreCounted }
{}

/// Examples: the lines of screens and of tallies, in literal text; which bounds are told of two,
/// which machines an ending is about, and which turns are of a round.
pub fn lines_are_met()
    ensures lines { LinesAreMet }
    ensures choices { ChoicesAreMet }
    ensures tallies { TalliesAreMet }
{}

/// The lines of screens, whatever the numbers, machines and calls are: each number stands in its line
/// as a decimal. Which lines a screen has, and whose.
pub fn lines_by_number()
    ensures numbers { LinesByNumber }
    ensures machines { LinesByMachine }
    ensures rings { (walk : Walk) → RingsByMachine walk }
    ensures rounds { (m : Machine) (c : Call) (walk : Walk) → RoundsByTurn m c walk }
    ensures screens { (s : ModelState) → ScreensByLine s }
{}

/// Tallies and bounds, whatever their numbers are: what was found of one start, and of the starts of
/// two tallies; the lines that say it; and whether plates go on, by the answers of the six machines.
pub fn tallies_by_number()
    ensures tallies { TalliesByNumber }
    ensures lines { (t : Tally) → TallyLinesByNumber t }
    ensures liveness { LivenessByNumber }
{}

/// Examples: whole screens in literal text; the bound of each machine, the party of each zone, and
/// each figure of two tallies; and what the program's words ask for.
pub fn screens_are_met()
    ensures screens { ScreensAreMet }
    ensures each { EachIsMet }
    ensures requests { RequestsAreMet }
{}

/// What a screen says was found: of a free start how many situations there are and within which
/// bounds plates go on, else the fewest turns to a standstill or to a refusal; of starving plates a
/// circle of turns, or a bound. A tally is of starts whose ends were found.
pub fn tellings_are_whole()
    ensures { TellingsAreWhole }
{}
