//! What `plan explore` prints: whether some order of the machines' turns leads to a standstill, and else whether each
//! machine goes on for ever.
ghost use Rattle.std.specs.Prelude.{◌≡◌, ◌++◌, ℕ, Some, IfOk, OnOk, flat_map, length, slice_get};
ghost use Rattle.std.specs.Prelude.{string_bytes};
ghost use Rattle.plan_explorer.specs.Situations.{first_situation};
ghost use Rattle.plan_liveness.specs.declared.answer.Liveness.{Liveness};
ghost use Rattle.plan_liveness.specs.Answers.{IsLiveness};
ghost use Rattle.plan_app.specs.Going.{going_text};
ghost use Rattle.plan_app.specs.Screens as spec;
ghost use Rattle.plan_app.specs.Starving.{any_starves as some_starve};

use crate::acting::Acting;
use crate::going::{push_all, push_line, push_way};
use crate::starving::any_starves;
use crate::words::push_counted;
use plan_explorer::{Explored, Programs, explore, take_turns};
use plan_liveness::{Liveness, Progress, explore_machines, explore_plates};
use plan_rules::State;
use plan_text::NamedPlan;
use plan_types::Event;
use std::alloc::{AllocError, Global};

/// What is said where nothing stands still.
const FREE: &str = "no standstill in any order of turns before the last stamp: ";

/// What is said of a standstill, before the number of turns that lead to it.
const STANDSTILL: &str = "a standstill after ";

/// What is said after it.
const SHORTEST: &str = ", and no fewer\n";

/// What is said past the limit, before the number of situations.
const MORE: &str = "more than ";

/// What is said after it, before the number of turns.
const UNFINISHED: &str = "; nothing stands still in fewer than ";

/// What is said in its place where no turns at all lead to a standstill.
const ANY_ORDER: &str = "; nothing stands still in any order of turns";

/// Which turns are known to lead to no standstill, where turns lead to more situations than are explored.
#[derive(Clone, Copy)]
pub enum Extent {
    /// Those that are fewer than these.
    Fewer(usize),
    /// All, in any order.
    Any,
}

/// What `plan explore` prints.
#[derive(Drop)]
pub enum Screen {
    /// No order of turns leads to a standstill, and no fair one is found in which a machine starves, or plates rest.
    Free(String),
    /// No order of turns leads to a standstill, but some machine starves in a fair one, or plates rest.
    Starving(String),
    /// Some order leads to a standstill.
    Standstill(String),
    /// Turns lead to more situations than are explored, and none of these turns to a standstill.
    Unfinished(Extent),
}

/// What `plan explore` prints of a plan and its programs, which begin at an opening, where at most `most` situations
/// are explored. An error says that memory ran out.
pub fn screen_of(
    alloc: Global,
    plan: &Acting,
    opening: &State,
    most: usize,
) -> Result<Screen, AllocError>
    ensures { IfOk result
        (λ screen. spec.IsScreen most plan.now.named.now plan.now.programs.now opening.now screen) }
{
    let named = plan.named.plan();
    match explore(alloc, named, opening, plan.programs, most)? {
        Explored::Free(situations) => free_screen(alloc, plan, opening, situations),
        Explored::Standstill(turns) => standstill_screen(alloc, plan, opening, turns.as_slice()),
        Explored::Unfinished(turns) => Ok(Screen::Unfinished(Extent::Fewer(turns))),
    }
}

/// What is printed where nothing stands still.
fn free_screen(
    alloc: Global,
    plan: &Acting,
    opening: &State,
    situations: usize,
) -> Result<Screen, AllocError>
    ensures { IfOk result (λ screen. spec.ShowsGoing plan.now.named.now plan.now.programs.now
        opening.now
        situations screen) }
{
    let answers = machines_of(alloc, plan, opening)?;
    let plates = plates_of(alloc, plan, opening)?;
    free_text(
        alloc,
        plan,
        opening,
        situations,
        answers.as_slice(),
        &plates,
    )
}

/// Whether each machine goes on for ever.
pub(crate) fn machines_of(
    alloc: Global,
    plan: &Acting,
    opening: &State,
) -> Result<Vec<Liveness>, AllocError>
    ensures count { IfOk result (λ answers. length answers.items ≡ length plan.now.programs.now) }
    ensures each { IfOk result (λ answers. (m : ℕ) (answer : Liveness)
        → slice_get answers.items m ≡ Some answer
        → IsLiveness plan.now.named.now.plan plan.now.programs.now (first_situation opening.now) m
        answer) }
{
    explore_machines(alloc, plan.named.plan(), opening, plan.programs)
}

/// Whether plates move for ever.
pub(crate) fn plates_of(
    alloc: Global,
    plan: &Acting,
    opening: &State,
) -> Result<Progress, AllocError>
    ensures moving { IfOk result (λ plates. spec.MoveOn plan.now.named.now plan.now.programs.now
        opening.now plates) }
    ensures resting { IfOk result (λ plates. spec.MayRest plan.now.named.now plan.now.programs.now
        opening.now plates) }
{
    explore_plates(alloc, plan.named.plan(), opening, plan.programs, None, &[])
}

/// The text where nothing stands still.
fn free_text(
    alloc: Global,
    plan: &Acting,
    opening: &State,
    situations: usize,
    answers: &[Liveness],
    plates: &Progress,
) -> Result<Screen, AllocError>
    ensures { IfOk result (λ screen. spec.ShowsFree situations
        (going_text plan.now.named.now plan.now.programs.now opening.now answers.now plates.now)
        (some_starve plan.now.named.now answers.now plates.now) screen) }
{
    let mut text = String::new(alloc);
    push_free(&mut text, plan, opening, situations, answers, plates)?;
    if any_starves(plan.named, answers, plates) {
        Ok(Screen::Starving(text))
    } else {
        Ok(Screen::Free(text))
    }
}

/// Adds the line of the situations, and what is said of machines that go on.
pub(crate) fn push_free(
    text: &mut String,
    plan: &Acting,
    opening: &State,
    situations: usize,
    answers: &[Liveness],
    plates: &Progress,
) -> Result<(), AllocError>
    ensures { OnOk result (string_bytes text.new
        ≡ string_bytes text.old ++ (spec.free_line situations
        ++ going_text plan.now.named.now plan.now.programs.now opening.now answers.now
        plates.now)) }
{
    push_situations(text, situations)?;
    push_all(text, plan, opening, answers, plates)
}

/// Adds how many situations there are, none of them a standstill.
pub(crate) fn push_situations(text: &mut String, situations: usize) -> Result<(), AllocError>
    ensures { OnOk result (string_bytes text.new
        ≡ string_bytes text.old ++ spec.free_line situations) }
{
    text.push_str(FREE)?;
    push_counted(text, situations, "situation")?;
    text.push_str("\n")
}

/// What is printed of turns that lead to a standstill: what they ask, and what each machine asks at their end.
pub(crate) fn standstill_screen(
    alloc: Global,
    plan: &Acting,
    opening: &State,
    turns: &[u8],
) -> Result<Screen, AllocError>
    ensures { IfOk result (λ screen. spec.ShowsStandstill plan.now.named.now plan.now.programs.now
        opening.now
        (spec.outlook_after plan.now.named.now plan.now.programs.now opening.now turns.now)
        turns.now screen) }
{
    let waiting = waiting_after(alloc, plan.named, plan.programs, opening, turns)?;
    standstill_text(alloc, plan, opening, turns, waiting.as_slice())
}

/// What each machine asks after turns from an opening.
fn waiting_after(
    alloc: Global,
    named: &NamedPlan,
    programs: &Programs,
    opening: &State,
    turns: &[u8],
) -> Result<Vec<Event>, AllocError>
    ensures { IfOk result (λ waiting. waiting.items
        ≡ spec.outlook_after named.now programs.now opening.now turns.now) }
{
    let walk = take_turns(alloc, named.plan(), opening, programs, turns)?;
    Ok(walk.outlook)
}

/// The text of a standstill.
fn standstill_text(
    alloc: Global,
    plan: &Acting,
    opening: &State,
    turns: &[u8],
    waiting: &[Event],
) -> Result<Screen, AllocError>
    ensures { IfOk result (λ screen. spec.ShowsStandstill plan.now.named.now plan.now.programs.now
        opening.now
        waiting.now turns.now screen) }
{
    let mut text = String::new(alloc);
    push_standstill(&mut text, plan, opening, turns, waiting)?;
    Ok(Screen::Standstill(text))
}

/// Adds what is said of a standstill.
fn push_standstill(
    text: &mut String,
    plan: &Acting,
    opening: &State,
    turns: &[u8],
    waiting: &[Event],
) -> Result<(), AllocError>
    ensures { OnOk result (string_bytes text.new ≡ string_bytes text.old
        ++ spec.standstill_text plan.now.named.now plan.now.programs.now opening.now turns.now
        waiting.now) }
{
    push_count(text, turns.len())?;
    push_waiting(text, plan.named, waiting)?;
    push_turns(text, plan, opening, turns)
}

/// Adds how many turns lead to a standstill.
pub(crate) fn push_count(text: &mut String, count: usize) -> Result<(), AllocError>
    ensures { OnOk result (string_bytes text.new ≡ string_bytes text.old ++ spec.count_line count) }
{
    text.push_str(STANDSTILL)?;
    push_counted(text, count, "turn")?;
    text.push_str(SHORTEST)
}

/// Adds a line for each machine that waits.
fn push_waiting(text: &mut String, named: &NamedPlan, waiting: &[Event]) -> Result<(), AllocError>
    ensures { OnOk result
        (string_bytes text.new ≡ string_bytes text.old
        ++ flat_map (spec.wait_line named.now) waiting.now) }
{
    'events: for event in waiting {
        push_wait(text, named, event)?;
    }
    Ok(())
}

/// Adds what a machine asks, and why it waits.
pub(crate) fn push_wait(
    text: &mut String,
    named: &NamedPlan,
    event: &Event,
) -> Result<(), AllocError>
    ensures { OnOk result (string_bytes text.new
        ≡ string_bytes text.old ++ spec.wait_line named.now event.now) }
{
    push_line(text, named, " waits: ", *event)
}

/// Adds what the turns that lead to a standstill ask.
fn push_turns(
    text: &mut String,
    plan: &Acting,
    opening: &State,
    turns: &[u8],
) -> Result<(), AllocError>
    ensures { OnOk result (string_bytes text.new ≡ string_bytes text.old
        ++ spec.turns_text plan.now.named.now plan.now.programs.now opening.now turns.now) }
{
    text.push_str("turns:\n")?;
    push_way(text, plan, opening, turns)
}

/// The words of the fault of more situations than are explored.
pub(crate) fn large_words(alloc: Global, most: usize, extent: Extent) -> Result<String, AllocError>
    ensures { IfOk result (λ words. string_bytes words ≡ spec.large_words most extent) }
{
    let mut words = String::from_str(alloc, "large: ")?;
    push_unfinished(&mut words, most, extent)?;
    Ok(words)
}

/// Adds that there are more situations than are explored, and which turns lead to no standstill.
pub(crate) fn push_unfinished(
    text: &mut String,
    most: usize,
    extent: Extent,
) -> Result<(), AllocError>
    ensures { OnOk result (string_bytes text.new
        ≡ string_bytes text.old ++ spec.unfinished_words most extent) }
{
    text.push_str(MORE)?;
    push_counted(text, most, "situation")?;
    push_extent(text, extent)
}

/// Adds which turns lead to no standstill.
fn push_extent(text: &mut String, extent: Extent) -> Result<(), AllocError>
    ensures { OnOk result (string_bytes text.new
        ≡ string_bytes text.old ++ spec.extent_words extent) }
{
    match extent {
        Extent::Fewer(turns) => {
            text.push_str(UNFINISHED)?;
            push_counted(text, turns, "turn")
        }
        Extent::Any => text.push_str(ANY_ORDER),
    }
}
