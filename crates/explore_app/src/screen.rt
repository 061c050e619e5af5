//! The screen that the program prints of one start: a configuration, whose comments say what was found.

ghost use Rattle.std.specs.Prelude.{◌≡◌, ◌++◌, List, length, OnOk, IfOk, string_bytes};
ghost use Rattle.cell_rules.specs.Start.{IsStartState};
ghost use Rattle.cell_notes.specs.declared.schedule.Turn.{Turn};
ghost use Rattle.cell_config.specs.Configured.{AreAxisScales, AreCurvesOf, shown};
ghost use Rattle.explore_app.specs.Schedules.{LeadsToEnding};
ghost use Rattle.explore_app.specs.Screens as screens;

use crate::bound::push_text;
use crate::ending::Ending;
use crate::liveness::{any_starves, push_plates};
use crate::ring::push_ring;
use crate::schedule::{ScheduleFault, schedule_into};
use cell_config::{Config, letter_word};
use cell_explorer::{Explored, Walk, explore_start, take_turns};
use cell_liveness::{Plates, explore_machines};
use cell_plant::Turn;
use cell_rules::State;
use cell_types::{Machine, Place};
use std::alloc::{AllocError, Global};

/// What the program prints of a start.
#[derive(PartialEq, Eq, Debug, Drop)]
pub enum Screen {
    /// No turns lead to a standstill, and no fair schedule was found in which plates starve.
    Free(String),
    /// Something can stand still, or starve.
    Warning(String),
}

impl Screen {
    /// Its text.
    pub fn text(&self) -> &str
        ensures { result.now ≡ screens.screen_text self.now }
    {
        match self {
            Screen::Free(text) | Screen::Warning(text) => text.as_str(),
        }
    }

    // With its text, as a warning.
    pub(crate) fn warning(self) -> Screen
        ensures { result ≡ screens.warning_of self }
    {
        match self {
            Screen::Free(text) | Screen::Warning(text) => Screen::Warning(text),
        }
    }
}

/// The screen of a configuration's start.
///
/// `Memory` if memory ran out, `Apart` if no schedule was found that leads a simulated cell to what
/// was found.
pub fn screen_of(alloc: Global, config: &Config) -> Result<Screen, ScheduleFault>
    requires start { IsStartState config.now.start }
    requires points { AreAxisScales config.now.points }
    requires curves { AreCurvesOf config.now.points config.now.curves }
    ensures { IfOk result (screens.IsScreenOf (shown config.now)) }
{
    let found = explore_start(alloc, &config.start)?;
    screen_by(alloc, config, &found)
}

/// The screen of what was found from a configuration's start. The errors are those of `screen_of`.
pub fn screen_by(alloc: Global, config: &Config, found: &Explored) -> Result<Screen, ScheduleFault>
    requires start { IsStartState config.now.start }
    requires points { AreAxisScales config.now.points }
    requires curves { AreCurvesOf config.now.points config.now.curves }
    ensures { IfOk result (screens.Shows (shown config.now) found.now) }
{
    match found {
        Explored::Free(situations) => Ok(free_screen(alloc, &config.start, *situations)?),
        Explored::Standstill(way) => ending_screen(
            alloc,
            config,
            Ending::Standstill,
            way.as_slice(),
        ),
        Explored::Refusal(way) => ending_screen(alloc, config, Ending::Refusal, way.as_slice()),
    }
}

// The screen of a start from which no turns lead to a standstill. Strong fairness is asked for the press.
fn free_screen(alloc: Global, start: &State, situations: usize) -> Result<Screen, AllocError>
    ensures { IfOk result (screens.ShowsGoing start.now situations) }
{
    let plates = explore_machines(alloc, start, Some(Machine::Press))?;
    going_screen(alloc, start, situations, &plates)
}

// The same by what was found of plates.
fn going_screen(
    alloc: Global,
    start: &State,
    situations: usize,
    plates: &Plates,
) -> Result<Screen, AllocError>
    requires go_on { screens.GoOnWithin start.now plates.now }
    requires starving { screens.MayStarve start.now plates.now }
    ensures { IfOk result (screens.ShowsGoing start.now situations) }
{
    let mut text = String::new(alloc);
    push_free_screen(&mut text, start, situations, plates)?;
    if any_starves(plates) {
        Ok(Screen::Warning(text))
    } else {
        Ok(Screen::Free(text))
    }
}

// Adds that screen.
#[tactic(auto, unfolding(crate::specs::Screens::free_screen, crate::specs::Screens::free_line))]
fn push_free_screen(
    text: &mut String,
    start: &State,
    situations: usize,
    plates: &Plates,
) -> Result<(), AllocError>
    ensures { OnOk result (string_bytes text.new
        ≡ string_bytes text.old ++ screens.free_screen start.now situations plates.now) }
{
    push_plates_line(text, start)?;
    writeln!(
        text,
        "# no standstill in any schedule before the last stamp: {situations} situations"
    )?;
    push_plates(text, plates)?;
    push_start(text, start)
}

// The screen of turns that lead to an ending.
fn ending_screen(
    alloc: Global,
    config: &Config,
    ending: Ending,
    way: &[Machine],
) -> Result<Screen, ScheduleFault>
    requires start { IsStartState config.now.start }
    requires points { AreAxisScales config.now.points }
    requires curves { AreCurvesOf config.now.points config.now.curves }
    ensures { IfOk result (screens.ShowsEnd (shown config.now) ending way.now) }
{
    let walk = take_turns(alloc, &config.start, way)?;
    let text = walk_screen(alloc, config, ending, way, &walk)?;
    Ok(Screen::Warning(text))
}

/// The screen of turns that end so: what they lead to, who waits for whom there or is refused, and a
/// schedule that leads there. The errors are those of `screen_of`.
#[tactic(auto, unfolding(crate::specs::Screens::ending_screen))]
pub fn walk_screen(
    alloc: Global,
    config: &Config,
    ending: Ending,
    way: &[Machine],
    walk: &Walk,
) -> Result<String, ScheduleFault>
    requires start { IsStartState config.now.start }
    requires points { AreAxisScales config.now.points }
    requires curves { AreCurvesOf config.now.points config.now.curves }
    ensures { IfOk result (λ screen. (schedule : List Turn)
        × (LeadsToEnding (shown config.now) ending walk.now schedule × (string_bytes screen
        ≡ screens.ending_screen config.now.start ending (length way.now) walk.now schedule))) }
{
    let schedule = schedule_into(alloc, config, ending, way, walk)?;
    let mut text = String::new(alloc);
    push_ending(&mut text, &config.start, ending, way.len(), walk)?;
    push_schedule(&mut text, schedule.as_slice())?;
    Ok(text)
}

// Adds the screen of an ending, without the schedule.
#[tactic(auto, unfolding(crate::specs::Screens::ending_head))]
fn push_ending(
    text: &mut String,
    start: &State,
    ending: Ending,
    turns: usize,
    walk: &Walk,
) -> Result<(), AllocError>
    ensures { OnOk result (string_bytes text.new ≡ string_bytes text.old
        ++ screens.ending_head start.now ending turns walk.now) }
{
    push_plates_line(text, start)?;
    push_turns(text, ending, turns)?;
    push_ring(text, ending, walk)?;
    push_start(text, start)
}

// Adds the line of how many turns lead to an ending.
#[tactic(auto, unfolding(crate::specs::Screens::ending_line))]
fn push_turns(text: &mut String, ending: Ending, turns: usize) -> Result<(), AllocError>
    ensures { OnOk result
        (string_bytes text.new ≡ string_bytes text.old ++ screens.ending_line ending turns) }
{
    push_text(text, "# ")?;
    push_text(text, ending.words())?;
    push_turns_words(text, turns)
}

// Adds how many turns lead to an ending.
#[tactic(auto, unfolding(crate::specs::Screens::turns_words))]
fn push_turns_words(text: &mut String, turns: usize) -> Result<(), AllocError>
    ensures { OnOk result
        (string_bytes text.new ≡ string_bytes text.old ++ screens.turns_words turns) }
{
    writeln!(text, " after {turns} turns, and no fewer")
}

// Adds the line of the plates of a start.
#[tactic(auto, unfolding(crate::specs::Screens::plates_line))]
pub(crate) fn push_plates_line(text: &mut String, start: &State) -> Result<(), AllocError>
    ensures { OnOk result
        (string_bytes text.new ≡ string_bytes text.old ++ screens.plates_line start.now) }
{
    let plates = start.plates();
    writeln!(text, "# plates {plates}")
}

// Adds the key of a start.
#[tactic(auto, unfolding(crate::specs::Screens::start_key))]
pub(crate) fn push_start(text: &mut String, start: &State) -> Result<(), AllocError>
    ensures { OnOk result
        (string_bytes text.new ≡ string_bytes text.old ++ screens.start_key start.now) }
{
    text.push_str("start = \"")?;
    push_digits(text, start)?;
    text.push_str("\"\n")
}

// Adds a digit for each place.
#[tactic(auto, unfolding(crate::specs::Screens::digits_of))]
fn push_digits(text: &mut String, start: &State) -> Result<(), AllocError>
    ensures { OnOk result
        (string_bytes text.new ≡ string_bytes text.old ++ screens.digits_of start.now) }
{
    'places: for place in &Place::ALL {
        text.push_str(if start.is_full(*place) { "1" } else { "0" })?;
    }
    Ok(())
}

// Adds the key of a schedule.
#[tactic(auto, unfolding(crate::specs::Screens::schedule_key))]
pub(crate) fn push_schedule(text: &mut String, schedule: &[Turn]) -> Result<(), AllocError>
    ensures { OnOk result
        (string_bytes text.new ≡ string_bytes text.old ++ screens.schedule_key schedule.now) }
{
    text.push_str("schedule = \"")?;
    push_letters(text, schedule)?;
    text.push_str("\"\n")
}

// Adds the letter of each turn.
#[tactic(auto, unfolding(crate::specs::Screens::letters_of))]
fn push_letters(text: &mut String, schedule: &[Turn]) -> Result<(), AllocError>
    ensures { OnOk result
        (string_bytes text.new ≡ string_bytes text.old ++ screens.letters_of schedule.now) }
{
    'turns: for turn in schedule {
        text.push_str(letter_word(turn.busy, turn.machine))?;
    }
    Ok(())
}
