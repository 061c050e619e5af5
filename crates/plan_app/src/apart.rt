//! What `plan explore` prints. Groups of machines that share nothing with each other are explored apart, if at least
//! two of them have programs.
ghost use Rattle.std.specs.Prelude.{◌≡◌, ◌++◌, ◌<◌, ◌≤◌, ℕ, List, true, false, ◌&&◌, Some, IfOk, IfErr, OnOk};
ghost use Rattle.std.specs.Prelude.{length, flat_map, slice_get, string_bytes};
ghost use Rattle.std.specs.List.{range_with_len};
ghost use Rattle.plan_types.specs.Below.{any_below};
ghost use Rattle.plan_explorer.specs.Groups.{alone, group_in};
ghost use Rattle.plan_liveness.specs.declared.answer.Liveness.{Liveness};
ghost use Rattle.plan_app.specs.Apart as spec;
ghost use Rattle.plan_app.specs.Screens as screens;

use crate::acting::Acting;
use crate::explore::{
    Extent, Screen, large_words, machines_of, plates_of, push_situations, push_unfinished,
    screen_of, standstill_screen,
};
use crate::going::{FAIRNESS, push_machine, push_plates};
use crate::starving::{may_starve, plates_may_rest};
use plan_document::ProgrammedPlan;
use plan_explorer::{Explored, Groups, Programs, explore, groups_of};
use plan_liveness::{Liveness, Progress};
use plan_rules::State;
use plan_text::NamedPlan;
use plan_types::Call;
use std::alloc::{AllocError, Global};

/// What `plan explore` prints.
#[derive(Drop)]
pub enum Exploration {
    /// Nothing stands still, and, as far as that is told, nobody starves, nor do plates rest.
    Well(String),
    /// Some machines stand still, or one may starve, or plates may rest.
    Unwell(String),
    /// Turns lead to more situations than are explored. The words of the fault say how far the exploration came, and of
    /// which machines.
    Large(String),
}

/// What `plan explore` prints of a plan and its programs, which begin at an opening: of each group apart, if at least
/// two of them have programs, else of all machines together; where at most `most` situations are explored. An error
/// says that memory ran out.
pub fn exploration_of(
    alloc: Global,
    plan: &ProgrammedPlan,
    opening: &State,
    most: usize,
) -> Result<Exploration, AllocError>
    ensures { IfOk result (spec.IsExploration most
        (spec.told_of plan.now.named plan.now.programs opening.now)) }
{
    let acting = Acting {
        named: &plan.named,
        programs: &plan.programs,
    };
    let groups = groups_of(plan.named.plan());
    if some_are_apart(&groups, &plan.programs) {
        parts_of(alloc, &acting, opening, &groups, most)
    } else {
        all_of(alloc, &acting, opening, most)
    }
}

// ---- groups

/// The number of a machine's group.
pub(crate) fn group_number(groups: &Groups, machine: u8) -> u8
    requires { machine < 30 }
    ensures { result ≡ group_in groups.now machine }
{
    groups[usize::from(machine)]
}

/// Whether a machine is of the group of another one.
fn is_of_group(groups: &Groups, first: u8, machine: u8) -> bool
    requires first { first < 30 }
    requires machine { machine < 30 }
    ensures { result ≡ spec.group_of groups.now first machine }
{
    group_number(groups, machine) == group_number(groups, first)
}

/// Whether a machine is the first of its group.
pub(crate) fn is_first(groups: &Groups, machine: u8) -> bool
    requires { machine < 30 }
    ensures { result ≡ spec.is_first groups.now machine }
{
    !any_before(groups, machine)
}

/// Whether a machine before this one is of its group.
#[tactic(auto, using(plan_types::proofs::lemmas::Below::any_below_more))]
fn any_before(groups: &Groups, machine: u8) -> bool
    requires { machine < 30 }
    ensures { result ≡ any_below (spec.group_of groups.now machine) machine }
{
    let mut any = false;
    for other in 0..machine {
        any = any || is_of_group(groups, machine, other);
    }
    any
}

/// Whether a machine has a program.
fn has_program(programs: &Programs, machine: u8) -> bool
    ensures { result ≡ spec.has_program programs.now machine }
{
    programs.step_count(machine) > 0
}

/// Whether two machines have programs, and are of different groups.
fn are_apart(groups: &Groups, programs: &Programs, one: u8, other: u8) -> bool
    requires one { one < 30 }
    requires other { other < 30 }
    ensures { result ≡ spec.are_apart groups.now programs.now one other }
{
    has_program(programs, one) && has_program(programs, other) && !is_of_group(groups, one, other)
}

/// Whether a machine has a program, and one of another group has one.
#[tactic(auto, using(plan_types::proofs::lemmas::Below::any_below_more))]
fn is_apart(groups: &Groups, programs: &Programs, machine: u8) -> bool
    requires { machine < 30 }
    ensures { result ≡ spec.is_apart groups.now programs.now machine }
{
    let mut any = false;
    for other in 0..programs.count() {
        any = any || are_apart(groups, programs, machine, other);
    }
    any
}

/// Whether at least two groups have programs.
#[tactic(auto, using(plan_types::proofs::lemmas::Below::any_below_more))]
pub(crate) fn some_are_apart(groups: &Groups, programs: &Programs) -> bool
    ensures { result ≡ spec.some_are_apart groups.now programs.now }
{
    let mut any = false;
    for machine in 0..programs.count() {
        any = any || is_apart(groups, programs, machine);
    }
    any
}

// ---- all machines together

/// What is printed of all machines together.
fn all_of(
    alloc: Global,
    plan: &Acting,
    opening: &State,
    most: usize,
) -> Result<Exploration, AllocError>
    ensures { IfOk result (λ found. (groups : List ℕ) → spec.IsExplorationBy most false
        (spec.told_of plan.now.named.now plan.now.programs.now opening.now) groups found) }
{
    match screen_of(alloc, plan, opening, most)? {
        Screen::Free(text) => Ok(Exploration::Well(text)),
        Screen::Starving(text) => Ok(Exploration::Unwell(text)),
        Screen::Standstill(text) => Ok(Exploration::Unwell(text)),
        Screen::Unfinished(extent) => Ok(Exploration::Large(large_words(alloc, most, extent)?)),
    }
}

// ---- each group apart

/// What is printed of each group.
fn parts_of(
    alloc: Global,
    plan: &Acting,
    opening: &State,
    groups: &Groups,
    most: usize,
) -> Result<Exploration, AllocError>
    ensures { IfOk result (spec.IsExplorationBy most true
        (spec.told_of plan.now.named.now plan.now.programs.now opening.now) groups.now) }
{
    let mut text = String::new(alloc);
    let mut well = true;
    'machines: for machine in 0..plan.programs.count() {
        if is_first(groups, machine) {
            match push_part(&mut text, alloc, plan, opening, groups, machine, most)? {
                Ok(part) => {
                    well = both(well, part);
                }
                Err(extent) => return large_part(alloc, plan, groups, machine, most, extent),
            }
        }
    }
    if well {
        Ok(Exploration::Well(text))
    } else {
        Ok(Exploration::Unwell(text))
    }
}

/// Whether all is well in what was told, and in a part.
pub(crate) fn both(well: bool, part: bool) -> bool
    ensures { result ≡ (well && part) }
{
    well && part
}

/// The words of the fault of a group that comes to more situations than are explored.
fn large_part(
    alloc: Global,
    plan: &Acting,
    groups: &Groups,
    first: u8,
    most: usize,
    extent: Extent,
) -> Result<Exploration, AllocError>
    requires { first < 30 }
    ensures { IfOk result (spec.IsLarge (spec.large_of most
        (spec.names_text plan.now.named.now groups.now first (length plan.now.programs.now))
        extent)) }
{
    let names = names_of(alloc, plan.named, groups, first, plan.programs.count())?;
    large_of(alloc, names.as_str(), most, extent)
}

/// The words of that fault, by the names of the group's machines.
pub(crate) fn large_of(
    alloc: Global,
    names: &str,
    most: usize,
    extent: Extent,
) -> Result<Exploration, AllocError>
    ensures { IfOk result (spec.IsLarge (spec.large_of most names.now extent)) }
{
    let mut words = String::from_str(alloc, "large: ")?;
    words.push_str(names)?;
    words.push_str(": ")?;
    push_unfinished(&mut words, most, extent)?;
    Ok(Exploration::Large(words))
}

/// Adds the part of the group of a machine. Says whether all is well in it; or which turns lead to no standstill, if
/// turns lead to more situations than are explored.
fn push_part(
    text: &mut String,
    alloc: Global,
    plan: &Acting,
    opening: &State,
    groups: &Groups,
    first: u8,
    most: usize,
) -> Result<Result<bool, Extent>, AllocError>
    requires { first < 30 }
    ensures told { IfOk result (λ found. IfOk found (λ well. spec.AddsPart
        (spec.told_of plan.now.named.now plan.now.programs.now opening.now) groups.now first well
        (string_bytes text.old) (string_bytes text.new))) }
    ensures large { IfOk result (λ found. IfErr found (screens.IsUnfinished most
        plan.now.named.now
        (alone (spec.group_of groups.now first) plan.now.programs.now) opening.now)) }
{
    match part_of(alloc, plan, opening, groups, first, most)? {
        Ok((well, found)) => {
            let names = names_of(alloc, plan.named, groups, first, plan.programs.count())?;
            push_told(text, names.as_str(), found.as_str())?;
            Ok(Ok(well))
        }
        Err(extent) => Ok(Err(extent)),
    }
}

/// Whether all is well in the group of a machine alone, and what is told of it; or which turns lead to no standstill,
/// if turns lead to more situations than are explored.
fn part_of(
    alloc: Global,
    plan: &Acting,
    opening: &State,
    groups: &Groups,
    first: u8,
    most: usize,
) -> Result<Result<(bool, String), Extent>, AllocError>
    requires { first < 30 }
    ensures { IfOk result (spec.IsPart most plan.now.named.now
        (alone (spec.group_of groups.now first) plan.now.programs.now) opening.now
        (spec.group_of groups.now first)) }
{
    let group = group_number(groups, first);
    let programs = plan.programs.alone(alloc, groups, group)?;
    let part = Acting {
        named: plan.named,
        programs: &programs,
    };
    told_alone(alloc, &part, opening, groups, first, most)
}

/// The same by the programs of the group alone.
fn told_alone(
    alloc: Global,
    plan: &Acting,
    opening: &State,
    groups: &Groups,
    first: u8,
    most: usize,
) -> Result<Result<(bool, String), Extent>, AllocError>
    requires { first < 30 }
    ensures { IfOk result (spec.IsPart most plan.now.named.now plan.now.programs.now opening.now
        (spec.group_of groups.now first)) }
{
    let screen = part_screen(alloc, plan, opening, groups, first, most)?;
    Ok(told_by(screen))
}

/// Whether all is well by a screen, and its text; or which turns lead to no standstill.
pub(crate) fn told_by(screen: Screen) -> Result<(bool, String), Extent>
    ensures { result ≡ spec.told_by screen }
{
    match screen {
        Screen::Free(text) => Ok((true, text)),
        Screen::Starving(text) => Ok((false, text)),
        Screen::Standstill(text) => Ok((false, text)),
        Screen::Unfinished(extent) => Err(extent),
    }
}

/// Adds a part: its head, with the names of a group's machines, and what is told of them alone.
pub(crate) fn push_told(text: &mut String, names: &str, found: &str) -> Result<(), AllocError>
    ensures { OnOk result (string_bytes text.new ≡ string_bytes text.old
        ++ (spec.head_of names.now ++ found.now)) }
{
    text.push_str("apart from all others: ")?;
    text.push_str(names)?;
    text.push_str("\n")?;
    text.push_str(found)
}

/// The names of a group's machines, by their numbers; there are this number of machines.
pub(crate) fn names_of(
    alloc: Global,
    named: &NamedPlan,
    groups: &Groups,
    first: u8,
    count: u8,
) -> Result<String, AllocError>
    requires first { first < 30 }
    requires count { count ≤ 30 }
    ensures { IfOk result (λ names. string_bytes names
        ≡ spec.names_text named.now groups.now first count) }
{
    let mut text = String::from_str(alloc, named.machines().name(first))?;
    push_others(&mut text, named, groups, first, count)?;
    Ok(text)
}

/// Adds the names of a group's machines after its first.
fn push_others(
    text: &mut String,
    named: &NamedPlan,
    groups: &Groups,
    first: u8,
    count: u8,
) -> Result<(), AllocError>
    requires first { first < 30 }
    requires count { count ≤ 30 }
    ensures { OnOk result (string_bytes text.new ≡ string_bytes text.old
        ++ flat_map (spec.next_name named.now groups.now first) (range_with_len 0 count)) }
{
    'machines: for machine in 0..count {
        push_next(text, named, groups, first, machine)?;
    }
    Ok(())
}

/// Adds the name of a machine, if it is of a group and not its first.
fn push_next(
    text: &mut String,
    named: &NamedPlan,
    groups: &Groups,
    first: u8,
    machine: u8,
) -> Result<(), AllocError>
    requires first { first < 30 }
    requires machine { machine < 30 }
    ensures { OnOk result (string_bytes text.new ≡ string_bytes text.old
        ++ spec.next_name named.now groups.now first machine) }
{
    if first < machine && is_of_group(groups, first, machine) {
        text.push_str(", ")?;
        text.push_str(named.machines().name(machine))
    } else {
        Ok(())
    }
}

// ---- one group, by its programs alone

/// What is found of the group of a machine, by its programs alone.
fn part_screen(
    alloc: Global,
    plan: &Acting,
    opening: &State,
    groups: &Groups,
    first: u8,
    most: usize,
) -> Result<Screen, AllocError>
    requires { first < 30 }
    ensures { IfOk result (spec.IsPartScreen most plan.now.named.now plan.now.programs.now
        opening.now (spec.group_of groups.now first)) }
{
    let named = plan.named.plan();
    match explore(alloc, named, opening, plan.programs, most)? {
        Explored::Free(situations) => part_free(alloc, plan, opening, groups, first, situations),
        Explored::Standstill(turns) => standstill_screen(alloc, plan, opening, turns.as_slice()),
        Explored::Unfinished(turns) => Ok(Screen::Unfinished(Extent::Fewer(turns))),
    }
}

/// What is printed of a group where nothing stands still.
fn part_free(
    alloc: Global,
    plan: &Acting,
    opening: &State,
    groups: &Groups,
    first: u8,
    situations: usize,
) -> Result<Screen, AllocError>
    requires { first < 30 }
    ensures { IfOk result (screens.ShowsGoingBy plan.now.named.now plan.now.programs.now opening.now
        (spec.part_starves (spec.group_of groups.now first) plan.now.named.now
        plan.now.programs.now)
        (spec.part_text (spec.group_of groups.now first) plan.now.named.now plan.now.programs.now
        opening.now)
        situations) }
{
    let answers = machines_of(alloc, plan, opening)?;
    let plates = plates_of(alloc, plan, opening)?;
    let own = Own {
        groups,
        first,
        answers: answers.as_slice(),
        plates: &plates,
    };
    part_text(alloc, plan, opening, &own, situations)
}

/// What explorations answer of the group of a machine.
#[derive(Clone, Copy)]
struct Own<'a> {
    groups: &'a Groups,
    first: u8,
    answers: &'a [Liveness],
    plates: &'a Progress,
}

/// The text of a group where nothing stands still.
fn part_text(
    alloc: Global,
    plan: &Acting,
    opening: &State,
    own: &Own,
    situations: usize,
) -> Result<Screen, AllocError>
    requires { own.now.first < 30 }
    ensures { IfOk result (screens.ShowsFree situations
        (spec.part_text (spec.group_of own.now.groups.now own.now.first) plan.now.named.now
        plan.now.programs.now
        opening.now own.now.answers.now own.now.plates.now)
        (spec.part_starves (spec.group_of own.now.groups.now own.now.first) plan.now.named.now
        plan.now.programs.now
        own.now.answers.now own.now.plates.now)) }
{
    let mut text = String::new(alloc);
    push_situations(&mut text, situations)?;
    push_own(&mut text, plan, opening, own)?;
    if part_starves(plan, own) {
        Ok(Screen::Starving(text))
    } else {
        Ok(Screen::Free(text))
    }
}

/// Adds what is said of a group's machines, and of their plates.
fn push_own(text: &mut String, plan: &Acting, opening: &State, own: &Own) -> Result<(), AllocError>
    requires { own.now.first < 30 }
    ensures { OnOk result (string_bytes text.new ≡ string_bytes text.old
        ++ spec.part_text (spec.group_of own.now.groups.now own.now.first) plan.now.named.now
        plan.now.programs.now
        opening.now own.now.answers.now own.now.plates.now) }
{
    push_own_machines(text, plan, opening, own)?;
    push_own_plates(text, plan, opening, own.plates)?;
    text.push_str(FAIRNESS)
}

/// Adds whether each machine of a group goes on for ever.
fn push_own_machines(
    text: &mut String,
    plan: &Acting,
    opening: &State,
    own: &Own,
) -> Result<(), AllocError>
    requires { own.now.first < 30 }
    ensures { OnOk result (string_bytes text.new ≡ string_bytes text.old
        ++ flat_map (spec.own_text (spec.group_of own.now.groups.now own.now.first)
        plan.now.named.now
        plan.now.programs.now opening.now own.now.answers.now)
        (range_with_len 0 (length plan.now.programs.now))) }
{
    'machines: for machine in 0..plan.programs.count() {
        push_own_machine(text, plan, opening, own, machine)?;
    }
    Ok(())
}

/// Adds whether a machine goes on for ever, if it is of a group.
fn push_own_machine(
    text: &mut String,
    plan: &Acting,
    opening: &State,
    own: &Own,
    machine: u8,
) -> Result<(), AllocError>
    requires first { own.now.first < 30 }
    requires machine { machine < 30 }
    ensures { OnOk result (string_bytes text.new ≡ string_bytes text.old
        ++ spec.own_text (spec.group_of own.now.groups.now own.now.first) plan.now.named.now
        plan.now.programs.now
        opening.now own.now.answers.now machine) }
{
    if is_of_group(own.groups, own.first, machine) {
        push_machine(text, plan, opening, machine, own.answers)
    } else {
        Ok(())
    }
}

/// Adds whether plates move for ever, if one of these programs moves some.
fn push_own_plates(
    text: &mut String,
    plan: &Acting,
    opening: &State,
    found: &Progress,
) -> Result<(), AllocError>
    ensures { OnOk result (string_bytes text.new ≡ string_bytes text.old
        ++ spec.part_plates plan.now.named.now plan.now.programs.now opening.now found.now) }
{
    if some_move_plates(plan.programs) {
        push_plates(text, plan, opening, found)
    } else {
        Ok(())
    }
}

/// Whether a machine of a group may starve, or its plates may rest.
fn part_starves(plan: &Acting, own: &Own) -> bool
    requires { own.now.first < 30 }
    ensures { result ≡ spec.part_starves (spec.group_of own.now.groups.now own.now.first)
        plan.now.named.now
        plan.now.programs.now own.now.answers.now own.now.plates.now }
{
    any_starves(plan.programs, own)
        || (some_move_plates(plan.programs) && plates_may_rest(plan.named, own.plates))
}

/// Whether a machine of a group may starve.
#[tactic(auto, using(plan_types::proofs::lemmas::Below::any_below_more))]
fn any_starves(programs: &Programs, own: &Own) -> bool
    requires { own.now.first < 30 }
    ensures { result ≡ any_below (spec.own_starves (spec.group_of own.now.groups.now own.now.first)
        own.now.answers.now) (length programs.now) }
{
    let mut any = false;
    for machine in 0..programs.count() {
        any = any || own_starves(own, machine);
    }
    any
}

/// Whether a machine is of a group, and may starve.
fn own_starves(own: &Own, machine: u8) -> bool
    requires first { own.now.first < 30 }
    requires machine { machine < 30 }
    ensures { result ≡ spec.own_starves (spec.group_of own.now.groups.now own.now.first)
        own.now.answers.now machine }
{
    is_of_group(own.groups, own.first, machine) && may_starve_at(own.answers, machine)
}

/// Whether a machine may starve, if it was asked of it.
pub(crate) fn may_starve_at(answers: &[Liveness], machine: u8) -> bool
    ensures { result ≡ spec.may_starve_if (slice_get answers.now machine) }
{
    match answers.get(usize::from(machine)) {
        Some(found) => may_starve(found),
        None => false,
    }
}

/// Whether one of these programs moves plates.
#[tactic(auto, using(plan_types::proofs::lemmas::Below::any_below_more))]
pub(crate) fn some_move_plates(programs: &Programs) -> bool
    ensures { result ≡ spec.some_move_plates programs.now }
{
    let mut any = false;
    for machine in 0..programs.count() {
        any = any || moves_plates(programs, machine);
    }
    any
}

/// Whether a machine's program moves plates.
#[tactic(auto, using(plan_types::proofs::lemmas::Below::any_below_more))]
fn moves_plates(programs: &Programs, machine: u8) -> bool
    ensures { result ≡ spec.moves_plates programs.now machine }
{
    let mut any = false;
    for step in 0..programs.step_count(machine) {
        any = any || hands_over(programs.call(machine, step));
    }
    any
}

/// Whether a call gives or takes a plate, or lets one come or go.
fn hands_over(call: Option<Call>) -> bool
    ensures { result ≡ spec.hands_over call }
{
    matches!(call, Some(Call::Give(_) | Call::Take(_) | Call::Advance(_)))
}
