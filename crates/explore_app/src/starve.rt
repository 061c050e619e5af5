//! How plates starve where no machine needs a strong turn: a round of turns that can go on for ever, and a schedule
//! that shows it.

ghost use Rattle.std.specs.Prelude.{◌≡◌, ◌++◌, All, IfOk, IfSome, OnOk, string_bytes};
ghost use Rattle.cell_rules.specs.Start.{IsStartState};
ghost use Rattle.cell_config.specs.Configured.{AreAxisScales, AreCurvesOf, shown};
ghost use Rattle.explore_app.specs.Schedules.{LeadsTo};
ghost use Rattle.explore_app.specs.Starving as starving;

use crate::bound::{Bound, push_text};
use crate::ending::Ending;
use crate::ring::{push_ending_line, push_going_on_line};
use crate::schedule::{ScheduleFault, is_answered, is_at, push_until_asked, way_into};
use crate::screen::{Screen, push_plates_line, push_schedule, push_start, screen_of};
use crate::step::Step;
use cell_config::Config;
use cell_explorer::{Prospect, Walk, take_turns};
use cell_liveness::{Progress, explore_progress};
use cell_notes::ByMachine;
use cell_plant::{Frame, Turn};
use cell_rules::{State, answer};
use cell_types::Machine;
use std::alloc::{AllocError, Global};

/// How often the schedule goes round.
const ROUNDS: usize = 4;

/// The screen of how plates starve from a configuration's start, with weak fairness for all
/// machines: a round of turns in which no plate moves, and a schedule that goes round. In the round
/// each machine has a turn. At a standstill it is the screen of that.
///
/// The errors are those of `screen_of`.
pub fn starving_screen(alloc: Global, config: &Config) -> Result<Screen, ScheduleFault>
    requires start { IsStartState config.now.start }
    requires points { AreAxisScales config.now.points }
    requires curves { AreCurvesOf config.now.points config.now.curves }
    ensures { IfOk result (starving.IsStarvingScreenOf (shown config.now)) }
{
    match explore_progress(alloc, &config.start, None, None)? {
        Progress::Starves { stem, cycle } => {
            let walk = take_turns(alloc, &config.start, stem.as_slice())?;
            if stands_still(&walk, cycle.as_slice()) {
                let screen = screen_of(alloc, config)?;
                return Ok(screen.warning());
            }
            round_screen(alloc, config, stem.as_slice(), cycle.as_slice(), &walk)
        }
        Progress::Within { plain, helped } => {
            let bound = Bound { plain, helped };
            Ok(Screen::Free(weak_screen(alloc, &config.start, Some(bound))?))
        }
        Progress::Unknown(_) => Ok(Screen::Free(weak_screen(alloc, &config.start, None)?)),
    }
}

// Whether the first turn of a cycle changes nothing.
fn stands_still(walk: &Walk, cycle: &[Machine]) -> bool
    ensures { result ≡ starving.is_idle walk.now cycle.now }
{
    match cycle {
        [machine, ..] => !matches!(walk.next.at(*machine).prospect, Prospect::Acts),
        [] => true,
    }
}

// The screen of a start from which no round is known.
#[tactic(auto, unfolding(crate::specs::Starving::weak_screen))]
fn weak_screen(alloc: Global, start: &State, bound: Option<Bound>) -> Result<String, AllocError>
    ensures { IfOk result (λ screen. string_bytes screen ≡ starving.weak_screen start.now bound) }
{
    let mut text = String::new(alloc);
    push_plates_line(&mut text, start)?;
    push_weak_line(&mut text, bound)?;
    push_start(&mut text, start)?;
    Ok(text)
}

// Adds the line of a start from which no round is known.
#[tactic(auto, unfolding(crate::specs::Starving::weak_line))]
fn push_weak_line(text: &mut String, bound: Option<Bound>) -> Result<(), AllocError>
    ensures { OnOk result
        (string_bytes text.new ≡ string_bytes text.old ++ starving.weak_line bound) }
{
    match bound {
        Some(bound) => bound.push_within(
            text,
            "# a plate moves within ",
            " of each weakly fair schedule\n",
        ),
        None => push_text(text, "# it isn't known whether plates starve\n"),
    }
}

// The screen of a round, to which the stem leads.
#[tactic(auto, unfolding(crate::specs::Starving::round_screen))]
fn round_screen(
    alloc: Global,
    config: &Config,
    stem: &[Machine],
    cycle: &[Machine],
    walk: &Walk,
) -> Result<Screen, ScheduleFault>
    requires start { IsStartState config.now.start }
    requires points { AreAxisScales config.now.points }
    requires curves { AreCurvesOf config.now.points config.now.curves }
    ensures { IfOk result
        (starving.ShowsCircle (shown config.now) stem.now cycle.now walk.now) }
{
    let round = round_of(alloc, &config.start, stem, cycle)?;
    let schedule = rounds_into(alloc, config, stem, walk, round.as_slice())?;
    let mut text = String::new(alloc);
    push_round(&mut text, &config.start, stem.len(), round.as_slice())?;
    push_schedule(&mut text, schedule.as_slice())?;
    Ok(Screen::Warning(text))
}

// Adds the screen of a round, without the schedule.
#[tactic(auto, unfolding(crate::specs::Starving::round_head, crate::specs::Starving::stem_line))]
fn push_round(
    text: &mut String,
    start: &State,
    turns: usize,
    round: &[Step],
) -> Result<(), AllocError>
    ensures { OnOk result (string_bytes text.new
        ≡ string_bytes text.old ++ starving.round_head start.now turns round.now) }
{
    push_plates_line(text, start)?;
    writeln!(
        text,
        "# no plate moves any more, if after {turns} turns these go on for ever:"
    )?;
    push_steps(text, round)?;
    push_start(text, start)
}

// Adds the line of each step.
fn push_steps(text: &mut String, round: &[Step]) -> Result<(), AllocError>
    ensures { OnOk result
        (string_bytes text.new ≡ string_bytes text.old ++ starving.round_lines round.now) }
{
    'steps: for step in round {
        push_step(text, step)?;
    }
    Ok(())
}

// Adds the line of a step.
fn push_step(text: &mut String, step: &Step) -> Result<(), AllocError>
    ensures { OnOk result
        (string_bytes text.new ≡ string_bytes text.old ++ starving.round_line step.now) }
{
    let given = answer(&step.walk.end.state, step.machine, step.call);
    if step.goes_on {
        push_going_on_line(text, step.machine, step.call, given)
    } else {
        push_ending_line(text, Ending::Standstill, step.machine, step.call, given)
    }
}

// The turns of a round: those of the cycle that ask, and a turn of each other machine where it
// waits.
fn round_of(
    alloc: Global,
    start: &State,
    stem: &[Machine],
    cycle: &[Machine],
) -> Result<Vec<Step>, AllocError>
    ensures { IfOk result (λ round.
        starving.IsRound start.now stem.now cycle.now round.items) }
{
    let mut way = Vec::new(alloc);
    way.extend_from_slice(stem)?;
    let mut had = machines_in(cycle);
    let mut round = Vec::new(alloc);
    'turns: for machine in cycle {
        push_turns(alloc, start, way.as_slice(), *machine, &mut had, &mut round)?;
        way.push(*machine)?;
    }
    Ok(round)
}

// Which machines have a turn in a cycle.
fn machines_in(cycle: &[Machine]) -> ByMachine<bool> {
    let mut had = ByMachine::each(false);
    for machine in cycle {
        had.put(*machine, true);
    }
    had
}

// Adds the turns after a way: one of each machine that has had none and waits, and this machine's, if it asks.
fn push_turns(
    alloc: Global,
    start: &State,
    way: &[Machine],
    machine: Machine,
    had: &mut ByMachine<bool>,
    round: &mut Vec<Step>,
) -> Result<(), AllocError>
    requires { All (starving.IsRoundTurn start.now) round.old.items }
    ensures turns { All (starving.IsRoundTurn start.now) round.new.items }
    ensures going { OnOk result
        (starving.going_turns round.new.items ≡ starving.going_turns round.old.items
        ++ starving.asking_after start.now way.now machine) }
{
    push_waiting(alloc, start, way, had, round)?;
    push_turn(alloc, start, way, machine, true, round)?;
    Ok(())
}

// Adds a turn of each machine that has had none and waits after a way.
fn push_waiting(
    alloc: Global,
    start: &State,
    way: &[Machine],
    had: &mut ByMachine<bool>,
    round: &mut Vec<Step>,
) -> Result<(), AllocError>
    requires { All (starving.IsRoundTurn start.now) round.old.items }
    ensures turns { All (starving.IsRoundTurn start.now) round.new.items }
    ensures going { OnOk result
        (starving.going_turns round.new.items ≡ starving.going_turns round.old.items) }
{
    'machines: for machine in &Machine::ALL {
        if *had.at(*machine) {
            continue;
        }
        if push_turn(alloc, start, way, *machine, false, round)? {
            had.put(*machine, true);
        }
    }
    Ok(())
}

// Adds a machine's turn after a way, if it asks, and goes on or waits. Returns whether it does.
fn push_turn(
    alloc: Global,
    start: &State,
    way: &[Machine],
    machine: Machine,
    goes_on: bool,
    round: &mut Vec<Step>,
) -> Result<bool, AllocError>
    requires { All (starving.IsRoundTurn start.now) round.old.items }
    ensures turns { All (starving.IsRoundTurn start.now) round.new.items }
    ensures going { OnOk result
        (starving.going_turns round.new.items ≡ starving.going_turns round.old.items
        ++ starving.going_after goes_on start.now way.now machine) }
{
    match step_after(alloc, start, way, machine, goes_on)? {
        Some(step) => {
            round.push(step)?;
            Ok(true)
        }
        None => Ok(false),
    }
}

// A machine's turn after a way, if it asks, and goes on or waits.
fn step_after(
    alloc: Global,
    start: &State,
    way: &[Machine],
    machine: Machine,
    goes_on: bool,
) -> Result<Option<Step>, AllocError>
    ensures turn { IfOk result (λ step. IfSome step (starving.IsRoundTurn start.now)) }
    ensures going { IfOk result (λ step.
        starving.going_step step ≡ starving.going_after goes_on start.now way.now machine) }
{
    let walk = take_turns(alloc, start, way)?;
    let next = *walk.next.at(machine);
    match next.call {
        Some(call) if is_of_round(goes_on, next.prospect) => Ok(Some(Step {
            machine,
            call,
            goes_on,
            walk,
        })),
        _ => Ok(None),
    }
}

// Whether a machine goes on, or waits.
fn is_of_round(goes_on: bool, prospect: Prospect) -> bool
    ensures { result ≡ starving.is_of_round goes_on prospect }
{
    goes_on || matches!(prospect, Prospect::Waits)
}

// The turns that lead a simulated cell through the stem and some rounds. `Apart` if a machine asked or
// was answered something else than in the round, or interlock and steps aren't those of the stem's
// end after the last round.
fn rounds_into(
    alloc: Global,
    config: &Config,
    stem: &[Machine],
    walk: &Walk,
    round: &[Step],
) -> Result<Vec<Turn>, ScheduleFault>
    requires start { IsStartState config.now.start }
    requires points { AreAxisScales config.now.points }
    requires curves { AreCurvesOf config.now.points config.now.curves }
    ensures { IfOk result (λ schedule. LeadsTo (shown config.now) walk.now.end schedule.items) }
{
    let mut schedule = way_into(alloc, config, stem, walk)?;
    let mut end: Option<Frame> = None;
    'rounds: for _ in 0..ROUNDS {
        'steps: for step in round {
            let last = push_until_asked(alloc, config, &mut schedule, step.machine)?;
            if !is_answered(&last, step.machine, step.call, &step.walk) {
                return Err(ScheduleFault::Apart);
            }
            end = Some(last);
        }
    }
    match end {
        Some(last) if is_at(&last, walk) => Ok(schedule),
        _ => Err(ScheduleFault::Apart),
    }
}
