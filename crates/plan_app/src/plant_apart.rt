//! What `plan explore --words` prints of a plant. Groups of machines that share nothing with each other on any word are
//! explored apart, if at least two of them have programs.
ghost use Rattle.std.specs.Prelude.{◌≡◌, ◌<◌, ◌≤◌, ℕ, List, true, false, IfOk, IfErr, length, map, string_bytes};
ghost use Rattle.plan_liveness.specs.PlantGroups.{alone};
ghost use Rattle.plan_app.specs.Apart as of_groups;
ghost use Rattle.plan_app.specs.Apart.{group_of};
ghost use Rattle.plan_app.specs.PlantGoing.{IsOpened, machines_of};
ghost use Rattle.plan_app.specs.PlantScreens as spec;
ghost use Rattle.plan_app.specs.PlantStarts.{HasWords, tables_of};

use crate::apart::{
    Exploration, both, group_number, is_first, large_of, names_of, push_told, some_are_apart,
    told_by,
};
use crate::explore::{Extent, Screen, large_words};
use crate::plant_explore::screen_of;
use crate::plant_going::{Group, OpenedPlant};
use plan_document::{ProgrammedPlan, ProgrammedPlant};
use plan_explorer::Groups;
use plan_liveness::{plant_groups_of, plant_programs_alone};
use plan_rules::State;
use plan_types::Plan;
use std::alloc::{AllocError, Global};

/// What `plan explore --words` prints of a plant whose words begin at these openings: of each group apart, if at least
/// two of them have programs, else of all machines together; where at most `most` situations are explored. An error
/// says that memory ran out.
pub fn plant_exploration_of(
    alloc: Global,
    plant: &ProgrammedPlant,
    openings: &[State],
    most: usize,
) -> Result<Exploration, AllocError>
    requires words { HasWords plant.now }
    requires openings { length openings.now ≡ length plant.now.plans.items }
    ensures { IfOk result (spec.IsPlantExploration most plant.now.plans.items
        plant.now.programs.programs openings.now) }
{
    let tables = tables_of(alloc, &plant.plans)?;
    let opened = OpenedPlant {
        plans: &plant.plans,
        tables: tables.as_slice(),
        programs: &plant.programs,
        openings,
        group: None,
    };
    exploration_of(alloc, &opened, most)
}

/// The tables of words, by their plans.
fn tables_of(alloc: Global, plans: &[ProgrammedPlan]) -> Result<Vec<&Plan>, AllocError>
    ensures { IfOk result (λ tables. map (λ table. table.now) tables.items ≡ tables_of plans.now) }
{
    let mut tables = Vec::new(alloc);
    for word in 0..plans.len() {
        tables.push(plans[word].named.plan())?;
    }
    Ok(tables)
}

/// What is printed of a plant that is opened.
fn exploration_of(
    alloc: Global,
    plant: &OpenedPlant,
    most: usize,
) -> Result<Exploration, AllocError>
    requires { IsOpened plant.now }
    ensures { IfOk result (spec.IsPlantExploration most plant.now.plans.now
        plant.now.programs.now.programs plant.now.openings.now) }
{
    let groups = plant_groups_of(plant.tables);
    if some_are_apart(&groups, plant.programs.calls()) {
        parts_of(alloc, plant, &groups, most)
    } else {
        all_of(alloc, plant, most)
    }
}

/// What is printed of all machines together.
fn all_of(alloc: Global, plant: &OpenedPlant, most: usize) -> Result<Exploration, AllocError>
    requires { IsOpened plant.now }
    ensures { IfOk result (λ found. (groups : List ℕ) → of_groups.IsExplorationBy most false
        (spec.told_of plant.now.plans.now plant.now.programs.now.programs plant.now.openings.now)
        groups found) }
{
    let all = OpenedPlant {
        group: None,
        ..*plant
    };
    match screen_of(alloc, &all, most)? {
        Screen::Free(text) => Ok(Exploration::Well(text)),
        Screen::Starving(text) => Ok(Exploration::Unwell(text)),
        Screen::Standstill(text) => Ok(Exploration::Unwell(text)),
        Screen::Unfinished(extent) => Ok(Exploration::Large(large_words(alloc, most, extent)?)),
    }
}

// ---- each group apart

/// What is printed of each group.
fn parts_of(
    alloc: Global,
    plant: &OpenedPlant,
    groups: &Groups,
    most: usize,
) -> Result<Exploration, AllocError>
    requires { IsOpened plant.now }
    ensures { IfOk result (of_groups.IsExplorationBy most true
        (spec.told_of plant.now.plans.now plant.now.programs.now.programs plant.now.openings.now)
        groups.now) }
{
    let mut text = String::new(alloc);
    let mut well = true;
    'machines: for machine in 0..plant.programs.count() {
        if is_first(groups, machine) {
            match push_part(&mut text, alloc, plant, groups, machine, most)? {
                Ok(part) => {
                    well = both(well, part);
                }
                Err(extent) => return large_part(alloc, plant, groups, machine, most, extent),
            }
        }
    }
    if well {
        Ok(Exploration::Well(text))
    } else {
        Ok(Exploration::Unwell(text))
    }
}

/// The words of the fault of a group that comes to more situations than are explored.
fn large_part(
    alloc: Global,
    plant: &OpenedPlant,
    groups: &Groups,
    first: u8,
    most: usize,
    extent: Extent,
) -> Result<Exploration, AllocError>
    requires { first < 30 }
    ensures { IfOk result (of_groups.IsLarge (of_groups.large_of most
        (spec.names_text plant.now.plans.now groups.now first
        (length plant.now.programs.now.programs)) extent)) }
{
    let names = names_on(alloc, plant.plans, groups, first, plant.programs.count())?;
    large_of(alloc, names.as_str(), most, extent)
}

/// Adds the part of the group of a machine. Says whether all is well in it; or which turns lead to no standstill, if
/// turns lead to more situations than are explored.
fn push_part(
    text: &mut String,
    alloc: Global,
    plant: &OpenedPlant,
    groups: &Groups,
    first: u8,
    most: usize,
) -> Result<Result<bool, Extent>, AllocError>
    requires opened { IsOpened plant.now }
    requires first { first < 30 }
    ensures told { IfOk result (λ found. IfOk found (λ well. of_groups.AddsPart
        (spec.told_of plant.now.plans.now plant.now.programs.now.programs plant.now.openings.now)
        groups.now first well (string_bytes text.old) (string_bytes text.new))) }
    ensures large { IfOk result (λ found. IfErr found (spec.IsUnfinished most plant.now.plans.now
        (alone (group_of groups.now first) plant.now.programs.now.programs)
        plant.now.openings.now)) }
{
    match part_of(alloc, plant, groups, first, most)? {
        Ok((well, found)) => {
            let names = names_on(alloc, plant.plans, groups, first, plant.programs.count())?;
            push_told(text, names.as_str(), found.as_str())?;
            Ok(Ok(well))
        }
        Err(extent) => Ok(Err(extent)),
    }
}

/// The names of a group's machines on the first word; they are those of each word.
fn names_on(
    alloc: Global,
    plans: &[ProgrammedPlan],
    groups: &Groups,
    first: u8,
    count: u8,
) -> Result<String, AllocError>
    requires first { first < 30 }
    requires count { count ≤ 30 }
    ensures { IfOk result (λ names. string_bytes names
        ≡ spec.names_text plans.now groups.now first count) }
{
    match plans.get(0) {
        Some(plan) => names_of(alloc, &plan.named, groups, first, count),
        None => Ok(String::new(alloc)),
    }
}

/// Whether all is well in the group of a machine alone, and what is told of it; or which turns lead to no standstill,
/// if turns lead to more situations than are explored.
fn part_of(
    alloc: Global,
    plant: &OpenedPlant,
    groups: &Groups,
    first: u8,
    most: usize,
) -> Result<Result<(bool, String), Extent>, AllocError>
    requires opened { IsOpened plant.now }
    requires first { first < 30 }
    ensures { IfOk result (spec.IsPart most (group_of groups.now first) plant.now.plans.now
        (alone (group_of groups.now first) plant.now.programs.now.programs)
        plant.now.openings.now) }
{
    let number = group_number(groups, first);
    let programs = plant_programs_alone(alloc, plant.programs, groups, number)?;
    let part = OpenedPlant {
        programs: &programs,
        group: Some(Group {
            groups: *groups,
            number,
        }),
        ..*plant
    };
    told_of(alloc, &part, most)
}

/// The same by the programs of the group alone.
fn told_of(
    alloc: Global,
    plant: &OpenedPlant,
    most: usize,
) -> Result<Result<(bool, String), Extent>, AllocError>
    requires { IsOpened plant.now }
    ensures { IfOk result (spec.IsPart most (machines_of plant.now.group) plant.now.plans.now
        plant.now.programs.now.programs plant.now.openings.now) }
{
    let screen = screen_of(alloc, plant, most)?;
    Ok(told_by(screen))
}
