//! What `plan explore --words` prints of a plant's machines, or of those of a group alone: whether some order of their
//! turns leads to a standstill of all words together, and else whether each of them goes on for ever, and plates move.
//! Past the limit of situations a standstill alone is sought.
ghost use Rattle.std.specs.Prelude.{◌≡◌, ◌++◌, ◌<◌, ◌||◌, ℕ, Some, IfOk, OnOk, flat_map, length, slice_get};
ghost use Rattle.std.specs.Prelude.{string_bytes};
ghost use Rattle.plan_explorer.specs.PlantExplored.{ComeToMore};
ghost use Rattle.plan_explorer.specs.Plants.{first_situation};
ghost use Rattle.plan_liveness.specs.declared.answer.Liveness.{Liveness};
ghost use Rattle.plan_liveness.specs.PlantAnswers.{IsPlantLiveness};
ghost use Rattle.plan_liveness.specs.PlantPlates.{IsPlateProgress};
ghost use Rattle.plan_app.specs.Apart as of_groups;
ghost use Rattle.plan_app.specs.PlantGoing.{IsOpened, going_text, machines_of};
ghost use Rattle.plan_app.specs.PlantScreens as spec;
ghost use Rattle.plan_app.specs.PlantStarts.{tables_of};
ghost use Rattle.plan_app.specs.Screens.{ShowsFree, free_line};

use crate::apart::{may_starve_at, some_move_plates};
use crate::explore::{Extent, Screen, push_count, push_situations, push_wait};
use crate::plant_going::{OpenedPlant, is_told, push_asked_by, push_going, walk_of};
use crate::starving::may_rest;
use plan_document::ProgrammedPlan;
use plan_explorer::{
    Explored, PlantPrograms, PlantWalk, RoutedEvent, explore_plant, seek_plant_standstill,
};
use plan_liveness::{Liveness, Progress, Reason, explore_plant_machines, explore_plant_plates};
use std::alloc::{AllocError, Global};

/// What is found of a plant that is opened.
pub(crate) fn screen_of(
    alloc: Global,
    plant: &OpenedPlant,
    most: usize,
) -> Result<Screen, AllocError>
    requires { IsOpened plant.now }
    ensures { IfOk result (spec.IsPlantScreen most (machines_of plant.now.group) plant.now.plans.now
        plant.now.programs.now.programs plant.now.openings.now) }
{
    match explore_plant(alloc, plant.tables, plant.openings, plant.programs, most)? {
        Explored::Free(situations) => free_screen(alloc, plant, situations),
        Explored::Standstill(turns) => standstill_screen(alloc, plant, turns.as_slice()),
        Explored::Unfinished(_) => screen_past_limit(alloc, plant, most),
    }
}

/// What is found where turns lead to more situations than `most`: a search for a standstill looks at fewer of them.
fn screen_past_limit(alloc: Global, plant: &OpenedPlant, most: usize) -> Result<Screen, AllocError>
    requires opened { IsOpened plant.now }
    requires more { ComeToMore (tables_of plant.now.plans.now) plant.now.programs.now.programs
        plant.now.openings.now most }
    ensures { IfOk result (spec.IsPlantScreen most (machines_of plant.now.group) plant.now.plans.now
        plant.now.programs.now.programs plant.now.openings.now) }
{
    match seek_plant_standstill(alloc, plant.tables, plant.openings, plant.programs, most)? {
        Explored::Free(_) => Ok(Screen::Unfinished(Extent::Any)),
        Explored::Standstill(turns) => standstill_screen(alloc, plant, turns.as_slice()),
        Explored::Unfinished(turns) => Ok(Screen::Unfinished(Extent::Fewer(turns))),
    }
}

// ---- no standstill

/// What is printed where nothing stands still.
fn free_screen(alloc: Global, plant: &OpenedPlant, situations: usize) -> Result<Screen, AllocError>
    requires { IsOpened plant.now }
    ensures { IfOk result (spec.ShowsGoing (machines_of plant.now.group) plant.now.plans.now
        plant.now.programs.now.programs plant.now.openings.now situations) }
{
    let answers = answers_of(alloc, plant)?;
    let plates = plates_of(alloc, plant)?;
    free_text(alloc, plant, situations, answers.as_slice(), &plates)
}

/// Whether plates move for ever, on all words together. It isn't asked if no program moves any.
fn plates_of(alloc: Global, plant: &OpenedPlant) -> Result<Progress, AllocError>
    requires { IsOpened plant.now }
    ensures { IfOk result (IsPlateProgress (tables_of plant.now.plans.now)
        plant.now.programs.now.programs (first_situation plant.now.openings.now)) }
{
    if some_move_plates(plant.programs.calls()) {
        explore_plant_plates(alloc, plant.tables, plant.openings, plant.programs)
    } else {
        Ok(Progress::Unknown(Reason::Unchecked))
    }
}

/// Whether each machine goes on for ever, on all words together.
fn answers_of(alloc: Global, plant: &OpenedPlant) -> Result<Vec<Liveness>, AllocError>
    requires { IsOpened plant.now }
    ensures count { IfOk result (λ answers. length answers.items
        ≡ length plant.now.programs.now.programs) }
    ensures each { IfOk result (λ answers. (m : ℕ) (answer : Liveness)
        → slice_get answers.items m ≡ Some answer
        → IsPlantLiveness (tables_of plant.now.plans.now) plant.now.programs.now.programs
        (first_situation plant.now.openings.now) m answer) }
{
    explore_plant_machines(alloc, plant.tables, plant.openings, plant.programs)
}

/// The text where nothing stands still.
fn free_text(
    alloc: Global,
    plant: &OpenedPlant,
    situations: usize,
    answers: &[Liveness],
    plates: &Progress,
) -> Result<Screen, AllocError>
    requires { IsOpened plant.now }
    ensures { IfOk result (λ screen. ShowsFree situations
        (going_text (machines_of plant.now.group) plant.now.plans.now
        plant.now.programs.now.programs plant.now.openings.now answers.now plates.now)
        (spec.any_starves (machines_of plant.now.group) answers.now
        (length plant.now.programs.now.programs)
        || spec.plates_starve plant.now.programs.now.programs plates.now) screen) }
{
    let mut text = String::new(alloc);
    push_free(&mut text, alloc, plant, situations, answers, plates)?;
    if any_starves(plant, answers) || plates_starve(plant.programs, plates) {
        Ok(Screen::Starving(text))
    } else {
        Ok(Screen::Free(text))
    }
}

/// Adds the line of the situations, and what is said of machines that go on, and of plates.
fn push_free(
    text: &mut String,
    alloc: Global,
    plant: &OpenedPlant,
    situations: usize,
    answers: &[Liveness],
    plates: &Progress,
) -> Result<(), AllocError>
    requires { IsOpened plant.now }
    ensures { OnOk result (string_bytes text.new
        ≡ string_bytes text.old ++ (free_line situations
        ++ going_text (machines_of plant.now.group) plant.now.plans.now
        plant.now.programs.now.programs plant.now.openings.now answers.now plates.now)) }
{
    push_situations(text, situations)?;
    push_going(text, alloc, plant, answers, plates)
}

/// Whether some program moves plates, and they may rest.
fn plates_starve(programs: &PlantPrograms, found: &Progress) -> bool
    ensures { result ≡ spec.plates_starve programs.now.programs found.now }
{
    some_move_plates(programs.calls()) && may_rest(found)
}

/// Whether a machine that is told of may starve.
#[tactic(auto, using(plan_types::proofs::lemmas::Below::any_below_more))]
fn any_starves(plant: &OpenedPlant, answers: &[Liveness]) -> bool
    ensures { result ≡ spec.any_starves (machines_of plant.now.group) answers.now
        (length plant.now.programs.now.programs) }
{
    let mut any = false;
    for machine in 0..plant.programs.count() {
        any = any || own_starves(plant, answers, machine);
    }
    any
}

/// Whether it is told of a machine, and it may starve.
fn own_starves(plant: &OpenedPlant, answers: &[Liveness], machine: u8) -> bool
    requires { machine < 30 }
    ensures { result ≡ of_groups.own_starves (machines_of plant.now.group) answers.now machine }
{
    is_told(plant, machine) && may_starve_at(answers, machine)
}

// ---- a standstill

/// What is printed of turns that lead to a standstill.
fn standstill_screen(alloc: Global, plant: &OpenedPlant, turns: &[u8]) -> Result<Screen, AllocError>
    requires { IsOpened plant.now }
    ensures { IfOk result (spec.ShowsStandstill plant.now.plans.now
        plant.now.programs.now.programs plant.now.openings.now turns.now) }
{
    let text = standstill_of(alloc, plant, turns)?;
    Ok(Screen::Standstill(text))
}

/// What is said of turns that lead to a standstill.
fn standstill_of(alloc: Global, plant: &OpenedPlant, turns: &[u8]) -> Result<String, AllocError>
    requires { IsOpened plant.now }
    ensures { IfOk result (λ text. string_bytes text ≡ spec.turns_told plant.now.plans.now
        plant.now.programs.now.programs plant.now.openings.now turns.now) }
{
    let walk = walk_of(alloc, plant, turns)?;
    standstill_text(alloc, plant.plans, turns.len(), &walk)
}

/// The text of a standstill, after a number of turns.
fn standstill_text(
    alloc: Global,
    plans: &[ProgrammedPlan],
    turns: usize,
    walk: &PlantWalk,
) -> Result<String, AllocError>
    ensures { IfOk result (λ text. string_bytes text ≡ spec.standstill_text plans.now turns
        walk.now.outlook.items walk.now.events.items) }
{
    let mut text = String::new(alloc);
    push_count(&mut text, turns)?;
    push_waiting(&mut text, plans, walk.outlook.as_slice())?;
    push_turns(&mut text, plans, walk.events.as_slice())?;
    Ok(text)
}

/// Adds a line for each machine that waits.
fn push_waiting(
    text: &mut String,
    plans: &[ProgrammedPlan],
    waiting: &[RoutedEvent],
) -> Result<(), AllocError>
    ensures { OnOk result (string_bytes text.new
        ≡ string_bytes text.old ++ flat_map (spec.wait_line plans.now) waiting.now) }
{
    'events: for event in waiting {
        push_wait_on(text, plans, event)?;
    }
    Ok(())
}

/// Adds what a machine asks of a word, and why it waits.
fn push_wait_on(
    text: &mut String,
    plans: &[ProgrammedPlan],
    routed: &RoutedEvent,
) -> Result<(), AllocError>
    ensures { OnOk result (string_bytes text.new
        ≡ string_bytes text.old ++ spec.wait_line plans.now routed.now) }
{
    match plans.get(routed.word) {
        Some(plan) => push_wait(text, &plan.named, &routed.event),
        None => Ok(()),
    }
}

/// Adds what the turns that lead to a standstill ask.
fn push_turns(
    text: &mut String,
    plans: &[ProgrammedPlan],
    events: &[RoutedEvent],
) -> Result<(), AllocError>
    ensures { OnOk result (string_bytes text.new
        ≡ string_bytes text.old ++ spec.turns_text plans.now events.now) }
{
    text.push_str("turns:\n")?;
    push_asked_by(text, plans, events)
}
