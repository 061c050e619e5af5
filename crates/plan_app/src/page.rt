//! What `plan explore --page` prints: a page on which machines ask turn by turn, to a standstill, or in an order in
//! which one of them starves.
ghost use Rattle.std.specs.Prelude.{◌≡◌, ◌++◌, ℕ, Some, None, IfOk, OnOk};
ghost use Rattle.std.specs.Prelude.{option_copied, string_bytes};
ghost use Rattle.plan_types.specs.Below.{any_below, first_below};
ghost use Rattle.plan_types.specs.Table.{joins, zone_count};
ghost use Rattle.plan_word.specs.OfPlan.{IsOfPlan};
ghost use Rattle.plan_explorer.specs.Explored as explored;
ghost use Rattle.plan_explorer.specs.Runs.{NoRunStandsStill};
ghost use Rattle.plan_text.specs.HistoryLaws.{IsStartOf};
ghost use Rattle.plan_app.specs.Going as going;
ghost use Rattle.plan_app.specs.Pages as spec;
ghost use Rattle.plan_app.specs.Screens as screens;

use crate::acting::Acting;
use crate::explore::{Extent, large_words, machines_of, plates_of, push_free};
use crate::film::push_film;
use crate::going::{event_of, outlook_of};
use crate::page_data::push_data;
use crate::page_head::PLAN_HEAD;
use crate::page_middle::PLAN_MIDDLE;
use crate::page_spaces::SPACES_TAIL;
use crate::page_tail::PLAN_TAIL;
use crate::words::push_counted;
use plan_document::ProgrammedPlan;
use plan_explorer::turning::{lets_on, turn};
use plan_explorer::{Explored, Situation, Walk, explore, take_turns};
use plan_liveness::{FairOrder, Liveness, Progress};
use plan_rules::State;
use plan_text::NamedPlan;
use plan_types::{Event, Plan};
use plan_word::laws::starts_are_of_plan;
use std::alloc::{AllocError, Global};

/// The most turns that a page shows.
pub const MAX_TURNS: usize = 100_000;

/// How many rounds a page shows of turns that come again and again.
const ROUNDS: usize = 8;

/// What `plan explore --page` prints.
#[derive(Drop)]
pub enum Page {
    /// No order of turns leads to a standstill, and none is found in which a machine starves, or plates rest: the text
    /// that says so.
    Free(String),
    /// The page of an order that leads to a standstill, or in which a machine starves, or plates rest.
    Found(String),
    /// Such an order has more turns than a page shows.
    Long,
    /// Turns lead to more situations than are explored: the words of the fault, which say how far the exploration came.
    Large(String),
}

/// What a page shows.
#[derive(Drop)]
pub struct Film {
    /// A note on it.
    pub note: String,
    /// What machines ask, turn by turn, and the answers.
    pub events: Vec<Event>,
}

/// The page of a history from a start, with a note. An error says that memory ran out.
pub(crate) fn page_text(
    alloc: Global,
    plan: &ProgrammedPlan,
    start: &State,
    note: &str,
    events: &[Event],
) -> Result<String, AllocError>
    requires { IsOfPlan plan.now.named.plan start.now }
    ensures { IfOk result (λ page. string_bytes page
        ≡ spec.page_text plan.now note.now start.now events.now) }
{
    let mut page = String::from_str(alloc, PLAN_HEAD)?;
    push_data(&mut page, plan, note)?;
    page.push_str(PLAN_MIDDLE)?;
    push_film(&mut page, &plan.named, start, events)?;
    page.push_str(tail_of(plan.named.plan()))?;
    Ok(page)
}

/// The end of a page, which reads the zones of a plan.
fn tail_of(plan: &Plan) -> &'static str
    ensures { result.now ≡ spec.tail_of plan.now }
{
    if any_joins(plan) {
        SPACES_TAIL
    } else {
        PLAN_TAIL
    }
}

/// Whether a zone of a plan is of one space with the zone before it.
#[tactic(auto, using(plan_types::proofs::lemmas::Below::any_below_more))]
fn any_joins(plan: &Plan) -> bool
    ensures { result ≡ any_below (joins plan.now) (zone_count plan.now) }
{
    let mut any = false;
    for zone in 0..plan.zone_count() {
        any = any || plan.zone(zone).joins;
    }
    any
}

/// What `plan explore --page` prints of a plan and its programs, which begin at an opening, where at most `most`
/// situations are explored. An error says that memory ran out.
pub fn page_of(
    alloc: Global,
    plan: &ProgrammedPlan,
    opening: &State,
    most: usize,
) -> Result<Page, AllocError>
    requires { IsStartOf plan.now.named opening.now }
    ensures { IfOk result (λ page. spec.IsPage most plan.now opening.now page) }
{
    let named = plan.named.plan();
    match explore(alloc, named, opening, &plan.programs, most)? {
        Explored::Free(situations) => going_page(alloc, plan, opening, situations),
        Explored::Standstill(turns) => still_page(alloc, plan, opening, turns.as_slice()),
        Explored::Unfinished(turns) => {
            let words = large_words(alloc, most, Extent::Fewer(turns))?;
            Ok(Page::Large(words))
        }
    }
}

/// The page of a film, unless it has more turns than a page shows. Its stamps are counted from 0.
#[tactic(auto, unfolding(crate::specs::Pages::max_turns))]
fn film_page(
    alloc: Global,
    plan: &ProgrammedPlan,
    opening: &State,
    film: &Film,
) -> Result<Page, AllocError>
    requires start { IsStartOf plan.now.named opening.now }
    requires shows { spec.Shows plan.now.named plan.now.programs opening.now
        (string_bytes film.now.note) film.now.events.items }
    ensures { (most : ℕ) → IfOk result (λ page. spec.IsPage most plan.now opening.now page) }
{
    if film.events.len() > MAX_TURNS {
        return Ok(Page::Long);
    }
    let start = State {
        stamp: 0,
        ..*opening
    };
    starts_are_of_plan(plan.named.plan(), &start);
    let page = page_text(
        alloc,
        plan,
        &start,
        film.note.as_str(),
        film.events.as_slice(),
    )?;
    Ok(Page::Found(page))
}

// ---- a standstill

fn still_page(
    alloc: Global,
    plan: &ProgrammedPlan,
    opening: &State,
    turns: &[u8],
) -> Result<Page, AllocError>
    requires start { IsStartOf plan.now.named opening.now }
    requires lead { explored.LeadToStandstill plan.now.named.plan plan.now.programs opening.now
        turns.now }
    requires shortest { explored.AreShortest plan.now.named.plan plan.now.programs opening.now
        turns.now }
    ensures { (most : ℕ) → IfOk result (λ page. spec.IsPage most plan.now opening.now page) }
{
    let film = Film {
        note: still_note(alloc, turns.len())?,
        events: still_events(alloc, plan, opening, turns)?,
    };
    film_page(alloc, plan, opening, &film)
}

fn still_note(alloc: Global, turns: usize) -> Result<String, AllocError>
    ensures { IfOk result (λ note. string_bytes note ≡ spec.still_note turns) }
{
    let mut note = String::from_str(alloc, "a standstill after ")?;
    push_counted(&mut note, turns, "turn")?;
    note.push_str(", and no fewer")?;
    Ok(note)
}

/// The turns to a standstill, and then each machine that asks twice.
fn still_events(
    alloc: Global,
    plan: &ProgrammedPlan,
    opening: &State,
    turns: &[u8],
) -> Result<Vec<Event>, AllocError>
    ensures { IfOk result (λ events. events.items
        ≡ spec.standstill_events plan.now.named plan.now.programs opening.now turns.now) }
{
    let Walk {
        mut events,
        outlook,
        ..
    } = take_turns(alloc, plan.named.plan(), opening, &plan.programs, turns)?;
    events.extend_from_slice(outlook.as_slice())?;
    events.extend_from_slice(outlook.as_slice())?;
    Ok(events)
}

// ---- machines that go on, or starve

fn going_page(
    alloc: Global,
    plan: &ProgrammedPlan,
    opening: &State,
    situations: usize,
) -> Result<Page, AllocError>
    requires start { IsStartOf plan.now.named opening.now }
    requires free { explored.NoneStandsStill plan.now.named.plan plan.now.programs opening.now }
    requires runs { NoRunStandsStill plan.now.named.plan plan.now.programs opening.now }
    requires come { explored.ComeTo plan.now.named.plan plan.now.programs opening.now situations }
    ensures { (most : ℕ) → IfOk result (λ page. spec.IsPage most plan.now opening.now page) }
{
    let acting = Acting {
        named: &plan.named,
        programs: &plan.programs,
    };
    let answers = machines_of(alloc, &acting, opening)?;
    let plates = plates_of(alloc, &acting, opening)?;
    let who = first_starving(&answers, plan.programs.count());
    match order_by(&plan.named, &answers, &plates, who) {
        Some(order) => {
            let film = order_film(alloc, plan, opening, who, order)?;
            film_page(alloc, plan, opening, &film)
        }
        None => free_page(alloc, &acting, opening, situations, &answers, &plates),
    }
}

/// What is printed where no machine starves, and no plates rest.
fn free_page(
    alloc: Global,
    plan: &Acting,
    opening: &State,
    situations: usize,
    answers: &[Liveness],
    plates: &Progress,
) -> Result<Page, AllocError>
    ensures { IfOk result (λ page. spec.IsFreeText (screens.free_line situations
        ++ going.going_text plan.now.named.now plan.now.programs.now opening.now answers.now
        plates.now)
        page) }
{
    let mut text = String::new(alloc);
    push_free(&mut text, plan, opening, situations, answers, plates)?;
    Ok(Page::Free(text))
}

/// The first of these machines that starves in an order.
#[tactic(auto, using(plan_types::proofs::lemmas::Below::first_below_more))]
fn first_starving(answers: &[Liveness], count: u8) -> Option<u8>
    ensures { result ≡ first_below (spec.starving_at answers.now) count }
{
    let mut first = None;
    for machine in 0..count {
        first = first.or(starving_at(answers, machine));
    }
    first
}

fn starving_at(answers: &[Liveness], machine: u8) -> Option<u8>
    ensures { result ≡ spec.starving_at answers.now machine }
{
    order_at(answers, machine).is_some().then_some(machine)
}

/// The order in which a machine starves, if there is one.
fn order_at(answers: &[Liveness], machine: u8) -> Option<&FairOrder>
    ensures { option_copied result ≡ spec.order_at answers.now machine }
{
    order_of(answers.get(usize::from(machine))?)
}

fn order_of(found: &Liveness) -> Option<&FairOrder>
    ensures { option_copied result ≡ spec.order_of found.now }
{
    match found {
        Liveness::IfOne { order, .. } => Some(order),
        Liveness::IfTwo { order, .. } => Some(order),
        Liveness::IfAll { order, .. } => Some(order),
        Liveness::Starves(order) => Some(order),
        Liveness::Silent | Liveness::Always(_) | Liveness::Unknown(_) => None,
    }
}

/// The order in which this machine starves; without one that in which plates rest.
fn order_by<'a>(
    named: &NamedPlan,
    answers: &'a [Liveness],
    plates: &'a Progress,
    who: Option<u8>,
) -> Option<&'a FairOrder>
    ensures { option_copied result ≡ spec.order_by named.now answers.now plates.now who }
{
    match who {
        Some(machine) => order_at(answers, machine),
        None => rest_if_any(named, plates),
    }
}

/// The order in which plates rest, if the plan has places.
fn rest_if_any<'a>(named: &NamedPlan, plates: &'a Progress) -> Option<&'a FairOrder>
    ensures { option_copied result ≡ spec.rest_if_any named.now plates.now }
{
    if named.places().len() == 0 {
        return None;
    }
    match plates {
        Progress::Starves(order) => Some(order),
        Progress::Within(_) | Progress::Unknown(_) => None,
    }
}

// ---- a fair order

/// What a page shows of a fair order.
fn order_film(
    alloc: Global,
    plan: &ProgrammedPlan,
    opening: &State,
    who: Option<u8>,
    order: &FairOrder,
) -> Result<Film, AllocError>
    ensures note { IfOk result
        (λ film. string_bytes film.note ≡ spec.order_note plan.now.named who) }
    ensures events { IfOk result (λ film. film.events.items
        ≡ spec.order_events plan.now.named plan.now.programs opening.now who order.now) }
{
    Ok(Film {
        note: order_note(alloc, &plan.named, who)?,
        events: order_events(alloc, plan, opening, who, order)?,
    })
}

fn order_note(alloc: Global, named: &NamedPlan, who: Option<u8>) -> Result<String, AllocError>
    ensures { IfOk result (λ note. string_bytes note ≡ spec.order_note named.now who) }
{
    match who {
        Some(machine) => {
            let name = named.machines().name(machine);
            format!(in alloc; "a fair order in which {name} starves")
        }
        None => String::from_str(alloc, "a fair order in which no plate moves"),
    }
}

/// What comes first, and then rounds of what comes again and again.
fn order_events(
    alloc: Global,
    plan: &ProgrammedPlan,
    opening: &State,
    who: Option<u8>,
    order: &FairOrder,
) -> Result<Vec<Event>, AllocError>
    ensures { IfOk result (λ events. events.items
        ≡ spec.order_events plan.now.named plan.now.programs opening.now who order.now) }
{
    let Walk {
        mut events,
        end,
        ..
    } = take_turns(
        alloc,
        plan.named.plan(),
        opening,
        &plan.programs,
        order.stem.as_slice(),
    )?;
    let acting = Acting {
        named: &plan.named,
        programs: &plan.programs,
    };
    let cycle = watched_events(alloc, &acting, end, who, order.cycle.as_slice())?;
    push_rounds(&mut events, cycle.as_slice())?;
    Ok(events)
}

/// Adds rounds of events.
fn push_rounds(events: &mut Vec<Event>, cycle: &[Event]) -> Result<(), AllocError>
    ensures { OnOk result (events.new.items ≡ events.old.items ++ spec.repeated 8 cycle.now) }
{
    'rounds: for _round in 0..ROUNDS {
        events.extend_from_slice(cycle)?;
    }
    Ok(())
}

/// What is asked from a situation on, turn by turn, and what a machine that starves asks in vain, as often as that
/// changes.
fn watched_events(
    alloc: Global,
    plan: &Acting,
    start: Situation,
    who: Option<u8>,
    turns: &[u8],
) -> Result<Vec<Event>, AllocError>
    ensures { IfOk result (λ events. events.items
        ≡ spec.watched_events plan.now.named.now plan.now.programs.now who start None turns.now) }
{
    let mut events = Vec::new(alloc);
    let mut at = start;
    let mut last = None;
    'turners: for turner in turns {
        let outlook = outlook_of(plan, &at, who);
        push_if(&mut events, vain_news(last, outlook))?;
        push_if(&mut events, event_of(plan, &at, *turner))?;
        last = outlook;
        at = turn(plan.named.plan(), plan.programs, at, *turner);
    }
    Ok(events)
}

/// Adds an event, if there is one.
fn push_if(events: &mut Vec<Event>, event: Option<Event>) -> Result<(), AllocError>
    ensures { OnOk result (events.new.items ≡ events.old.items ++ spec.if_any event) }
{
    match event {
        Some(event) => {
            events.push(event)?;
            Ok(())
        }
        None => Ok(()),
    }
}

/// What a machine that starves asks in vain, if that has changed.
fn vain_news(last: Option<Event>, outlook: Option<Event>) -> Option<Event>
    ensures { result ≡ spec.vain_news last outlook }
{
    if outlook == last {
        return None;
    }
    in_vain(outlook?)
}

fn in_vain(event: Event) -> Option<Event>
    ensures { result ≡ spec.in_vain event }
{
    (!lets_on(event.machine, event.answer)).then_some(event)
}
