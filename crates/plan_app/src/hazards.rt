//! What `plan check` prints of a plan with motors: its report, and what keeps the motors of each hazard apart, or what
//! leads to a state that permits both.
ghost use Rattle.std.specs.Prelude.{◌≡◌, ◌++◌, IfOk, IsTrue, OnOk, flat_map, length, string_bytes};
ghost use Rattle.std.specs.List.{range_with_len};
ghost use Rattle.plan_motors.specs.OfPlan as of_plan;
ghost use Rattle.plan_app.specs.Drives.{AreDrives};
ghost use Rattle.plan_app.specs.Hazards as spec;
ghost use Rattle.plan_app.specs.Rows.{HasEveryRow};

use crate::acting::Acting;
use crate::drives::{are_driven, drives_of, push_drives};
use crate::going::push_way;
use crate::leads::{Lead, is_never, lead_of, opening_by};
use crate::report::{push_names, push_report};
use crate::rows::{has_every_row, push_rows};
use crate::words::push_counted;
use plan_document::ProgrammedPlan;
use plan_drives::Undriven;
use plan_header::motor_at;
use plan_motors::{Hazard, Verdict};
use plan_picture::{push_verdict, verdict_of};
use plan_rules::{State, ZoneState};
use plan_text::NamedPlan;
use plan_text::words::posture_word;
use plan_types::Posture;
use std::alloc::{AllocError, Global};

/// What is said of a hazard whose motors aren't kept apart, before a state that permits both.
const UNKEPT: &str = "NOT kept apart: a state permits both";

/// What is said of them where turns lead to such a state.
const LED: &str = "NOT kept apart: ";

/// What is said of such a state to which no turns lead, before the start.
const UNLED: &str = "; none of the programs leads there from ";

/// What stands after the number of turns: why no more were sought.
const LARGE: &str = ": more than ";

/// What is shown of a hazard.
#[derive(Drop)]
pub struct Finding {
    /// What keeps its motors apart, or a state that permits both.
    pub verdict: Verdict,
    /// What a search for turns that lead to such a state has found.
    pub lead: Lead,
}

/// What `plan check` prints.
#[derive(Drop)]
pub enum Report {
    /// The motors of each hazard are kept apart, and each motor is permitted where its program runs it.
    Kept(String),
    /// Those of some hazard aren't, or some motor isn't permitted there.
    Unkept(String),
}

/// What `plan check` prints of a plan: its report, whether each call that is done has its row, whether each motor is
/// permitted where a program runs it, and if the plan has motors, their names, and what is said of each hazard. Turns
/// are sought from the start, if there is one. An error says that memory ran out.
pub fn report_of(
    alloc: Global,
    plan: &ProgrammedPlan,
    start: Option<State>,
    most: usize,
) -> Result<Report, AllocError>
    ensures { IfOk result (spec.IsReport most plan.now start) }
{
    let every = has_every_row(plan.named.plan())?;
    let drives = drives_of(alloc, plan)?;
    let findings = findings_of(alloc, plan, start, most)?;
    report_by(
        alloc,
        plan,
        start,
        every,
        drives.as_slice(),
        findings.as_slice(),
        most,
    )
}

/// The report of a plan, by what is shown of its hazards, and of the motors that programs run.
fn report_by(
    alloc: Global,
    plan: &ProgrammedPlan,
    start: Option<State>,
    every: bool,
    drives: &[Option<Undriven>],
    findings: &[Finding],
    _most: usize,
) -> Result<Report, AllocError>
    requires rows { IsTrue every → HasEveryRow plan.now.named.plan }
    requires drives { AreDrives plan.now drives.now }
    requires findings { spec.AreFindings _most plan.now start findings.now }
    ensures { IfOk result (spec.IsReport _most plan.now start) }
{
    let text = report_with(alloc, plan, start, every, drives, findings)?;
    if are_kept(findings) && are_driven(drives) {
        Ok(Report::Kept(text))
    } else {
        Ok(Report::Unkept(text))
    }
}

// ---- findings

/// What is shown of each hazard.
fn findings_of(
    alloc: Global,
    plan: &ProgrammedPlan,
    start: Option<State>,
    most: usize,
) -> Result<Vec<Finding>, AllocError>
    ensures { IfOk result (λ findings. spec.AreFindings most plan.now start findings.items) }
{
    let mut findings = Vec::new(alloc);
    for i in 0..plan.motors.hazards.len() {
        let hazard = hazard_at(&plan.motors.hazards, i);
        let finding = finding_of(alloc, plan, start, hazard, most)?;
        findings.push(finding)?;
    }
    Ok(findings)
}

/// What is shown of a hazard.
fn finding_of(
    alloc: Global,
    plan: &ProgrammedPlan,
    start: Option<State>,
    hazard: Hazard,
    most: usize,
) -> Result<Finding, AllocError>
    ensures { IfOk result (spec.IsFindingOf most plan.now start hazard) }
{
    let verdict = verdict_of(plan, hazard);
    let lead = hazard_lead(alloc, plan, start, verdict, hazard, most)?;
    Ok(Finding { verdict, lead })
}

/// What a search for turns that lead to a state which permits both motors of a hazard finds.
fn hazard_lead(
    alloc: Global,
    plan: &ProgrammedPlan,
    start: Option<State>,
    verdict: Verdict,
    hazard: Hazard,
    most: usize,
) -> Result<Lead, AllocError>
    ensures { IfOk result (spec.IsHazardLead most plan.now start hazard verdict) }
{
    let opening = opening_by(start, &verdict);
    let first = motor_at(&plan.motors.motors, hazard.first);
    let second = motor_at(&plan.motors.motors, hazard.second);
    lead_of(
        alloc,
        plan.named.plan(),
        &plan.programs,
        &opening,
        &verdict,
        &first,
        &second,
        most,
    )
}

/// A hazard by its number; one of the first motor alone if there is no such hazard.
pub(crate) fn hazard_at(hazards: &[Hazard], hazard: usize) -> Hazard
    ensures { result ≡ of_plan.hazard_at hazards.now hazard }
{
    match hazards.get(hazard) {
        Some(hazard) => *hazard,
        None => Hazard {
            first: 0,
            second: 0,
        },
    }
}

/// Whether all motors are kept apart that have to be.
fn are_kept(findings: &[Finding]) -> bool
    ensures { result ≡ spec.are_kept findings.now }
{
    findings.iter().all(|finding| is_kept(finding))
}

/// Whether the motors of a hazard are kept apart.
fn is_kept(finding: &Finding) -> bool
    ensures { result ≡ spec.is_kept finding.now }
{
    is_never(&finding.verdict)
}

// ---- lines

/// The report of a plan, with what is shown of its hazards.
fn report_with(
    alloc: Global,
    plan: &ProgrammedPlan,
    start: Option<State>,
    every: bool,
    drives: &[Option<Undriven>],
    findings: &[Finding],
) -> Result<String, AllocError>
    ensures { IfOk result
        (λ text. string_bytes text ≡ spec.whole_report plan.now start every drives.now
        findings.now) }
{
    let mut text = String::new(alloc);
    push_whole_report(&mut text, plan, start, every, drives, findings)?;
    Ok(text)
}

fn push_whole_report(
    text: &mut String,
    plan: &ProgrammedPlan,
    start: Option<State>,
    every: bool,
    drives: &[Option<Undriven>],
    findings: &[Finding],
) -> Result<(), AllocError>
    ensures { OnOk result (string_bytes text.new
        ≡ string_bytes text.old ++ spec.whole_report plan.now start every drives.now findings.now) }
{
    push_report(text, &plan.named)?;
    push_rows(text, every)?;
    push_drives(text, &plan.named, &plan.motors.names, &plan.steps, drives)?;
    push_motors(text, plan, start, findings)
}

/// Adds the names of motors, and what is said of each hazard; nothing if there are no motors.
#[tactic(auto, unfolding(crate::specs::Hazards::motors_text))]
fn push_motors(
    text: &mut String,
    plan: &ProgrammedPlan,
    start: Option<State>,
    findings: &[Finding],
) -> Result<(), AllocError>
    ensures { OnOk result (string_bytes text.new ≡ string_bytes text.old
        ++ spec.motors_text plan.now.named plan.now.programs plan.now.motors.names
        plan.now.motors.hazard_names
        start findings.now) }
{
    if plan.motors.names.len() == 0 {
        return Ok(());
    }
    push_names(text, "motor", &plan.motors.names)?;
    push_hazards(text, plan, start, findings)
}

/// Adds what is said of each hazard.
fn push_hazards(
    text: &mut String,
    plan: &ProgrammedPlan,
    start: Option<State>,
    findings: &[Finding],
) -> Result<(), AllocError>
    ensures { OnOk result (string_bytes text.new ≡ string_bytes text.old
        ++ spec.hazard_lines plan.now.named plan.now.programs plan.now.motors.hazard_names start
        findings.now) }
{
    'hazards: for hazard in 0..plan.motors.hazard_names.len() as u8 {
        push_hazard(text, plan, start, findings, hazard)?;
    }
    Ok(())
}

/// Adds what is said of a hazard, if something is shown of it.
fn push_hazard(
    text: &mut String,
    plan: &ProgrammedPlan,
    start: Option<State>,
    findings: &[Finding],
    hazard: u8,
) -> Result<(), AllocError>
    ensures { OnOk result (string_bytes text.new ≡ string_bytes text.old
        ++ spec.hazard_line plan.now.named plan.now.programs plan.now.motors.hazard_names start
        findings.now hazard) }
{
    match findings.get(usize::from(hazard)) {
        Some(finding) => push_finding(text, plan, start, hazard, finding),
        None => Ok(()),
    }
}

/// Adds the name of a hazard, and what is shown of it.
fn push_finding(
    text: &mut String,
    plan: &ProgrammedPlan,
    start: Option<State>,
    hazard: u8,
    finding: &Finding,
) -> Result<(), AllocError>
    ensures { OnOk result (string_bytes text.new ≡ string_bytes text.old
        ++ spec.finding_line plan.now.named plan.now.programs plan.now.motors.hazard_names start
        hazard finding.now) }
{
    push_two(text, plan.motors.hazard_names.name(hazard), ": ")?;
    let opening = opening_by(start, &finding.verdict);
    push_lead(text, plan, &opening, finding.verdict, &finding.lead)
}

/// Adds what keeps two motors apart; or the turns that lead to a state which permits both, or that state.
fn push_lead(
    text: &mut String,
    plan: &ProgrammedPlan,
    opening: &State,
    verdict: Verdict,
    lead: &Lead,
) -> Result<(), AllocError>
    ensures { OnOk result (string_bytes text.new ≡ string_bytes text.old
        ++ spec.lead_text plan.now.named plan.now.programs opening.now verdict lead.now) }
{
    match lead {
        Lead::Unsought => push_unsought(text, &plan.named, verdict),
        Lead::Never => push_unled(text, &plan.named, opening, verdict),
        Lead::Turns(turns) => push_led(text, plan, opening, turns.as_slice()),
        Lead::Unfinished { limit, turns } => {
            push_large(text, &plan.named, opening, verdict, *limit, *turns)
        }
    }
}

/// Adds what keeps two motors apart, of which nothing is sought.
fn push_unsought(text: &mut String, named: &NamedPlan, verdict: Verdict) -> Result<(), AllocError>
    ensures { OnOk result (string_bytes text.new
        ≡ string_bytes text.old ++ spec.unsought_line named.now verdict) }
{
    push_shown(text, named, verdict)?;
    text.push_str("\n")
}

/// Adds the state that permits both, and that no program leads there.
fn push_unled(
    text: &mut String,
    named: &NamedPlan,
    opening: &State,
    verdict: Verdict,
) -> Result<(), AllocError>
    ensures { OnOk result (string_bytes text.new ≡ string_bytes text.old
        ++ spec.unled_line named.now opening.now verdict) }
{
    push_shown(text, named, verdict)?;
    text.push_str(UNLED)?;
    push_start(text, named, opening)?;
    text.push_str("\n")
}

/// Adds the state that permits both, and that no program leads there in fewer turns than these, since there are more
/// situations than are explored.
fn push_large(
    text: &mut String,
    named: &NamedPlan,
    opening: &State,
    verdict: Verdict,
    limit: usize,
    turns: usize,
) -> Result<(), AllocError>
    ensures { OnOk result (string_bytes text.new ≡ string_bytes text.old
        ++ spec.large_line named.now opening.now verdict limit turns) }
{
    push_shown(text, named, verdict)?;
    text.push_str(UNLED)?;
    push_start(text, named, opening)?;
    text.push_str(" in fewer than ")?;
    push_counted(text, turns, "turn")?;
    push_limit(text, limit)
}

/// Adds that there are more situations than are explored.
fn push_limit(text: &mut String, limit: usize) -> Result<(), AllocError>
    ensures { OnOk result (string_bytes text.new
        ≡ string_bytes text.old ++ spec.limit_words limit) }
{
    text.push_str(LARGE)?;
    push_counted(text, limit, "situation")?;
    text.push_str("\n")
}

/// Adds the turns that lead from an opening to a state that permits both; or that the opening does, if there are none.
fn push_led(
    text: &mut String,
    plan: &ProgrammedPlan,
    opening: &State,
    turns: &[u8],
) -> Result<(), AllocError>
    ensures { OnOk result (string_bytes text.new ≡ string_bytes text.old
        ++ spec.led_text plan.now.named plan.now.programs opening.now turns.now) }
{
    if turns.len() == 0 {
        push_at_once(text, &plan.named, opening)
    } else {
        push_calls(text, plan, opening, turns)
    }
}

/// Adds that an opening permits both motors.
fn push_at_once(text: &mut String, named: &NamedPlan, opening: &State) -> Result<(), AllocError>
    ensures { OnOk result (string_bytes text.new
        ≡ string_bytes text.old ++ spec.at_once_line named.now opening.now) }
{
    text.push_str(LED)?;
    push_start(text, named, opening)?;
    text.push_str(" permits both\n")
}

/// Adds what turns ask that lead to a state which permits both motors.
fn push_calls(
    text: &mut String,
    plan: &ProgrammedPlan,
    opening: &State,
    turns: &[u8],
) -> Result<(), AllocError>
    ensures { OnOk result (string_bytes text.new ≡ string_bytes text.old
        ++ spec.calls_text plan.now.named plan.now.programs opening.now turns.now) }
{
    push_two(text, LED, "from ")?;
    push_start(text, &plan.named, opening)?;
    text.push_str(" these calls permit both\n")?;
    let acting = Acting {
        named: &plan.named,
        programs: &plan.programs,
    };
    push_way(text, &acting, opening, turns)
}

/// Adds a start: a digit for each place, as in scripts.
fn push_start(text: &mut String, named: &NamedPlan, opening: &State) -> Result<(), AllocError>
    ensures { OnOk result (string_bytes text.new
        ≡ string_bytes text.old ++ spec.start_words named.now opening.now) }
{
    if named.places().len() == 0 {
        text.push_str("the start")
    } else {
        push_start_digits(text, named, opening)
    }
}

fn push_start_digits(
    text: &mut String,
    named: &NamedPlan,
    opening: &State,
) -> Result<(), AllocError>
    ensures { OnOk result (string_bytes text.new
        ≡ string_bytes text.old ++ spec.start_digits named.now opening.now) }
{
    text.push_str("start ")?;
    push_digits(text, named, opening)
}

/// Adds a digit for each place.
fn push_digits(text: &mut String, named: &NamedPlan, opening: &State) -> Result<(), AllocError>
    ensures { OnOk result (string_bytes text.new ≡ string_bytes text.old
        ++ flat_map (spec.digit_of opening.now) (range_with_len 0 (length named.now.places))) }
{
    'places: for place in 0..named.places().len() as u8 {
        push_digit(text, opening, place)?;
    }
    Ok(())
}

fn push_digit(text: &mut String, opening: &State, place: u8) -> Result<(), AllocError>
    ensures { OnOk result (string_bytes text.new
        ≡ string_bytes text.old ++ spec.digit_of opening.now place) }
{
    text.push_str(if opening.is_full(place) { "1" } else { "0" })
}

/// Adds what keeps two motors apart, or the state that permits both.
fn push_shown(text: &mut String, named: &NamedPlan, verdict: Verdict) -> Result<(), AllocError>
    ensures { OnOk result (string_bytes text.new
        ≡ string_bytes text.old ++ spec.verdict_words named.now verdict) }
{
    match verdict {
        Verdict::Possible(state) => push_unkept(text, named, &state),
        Verdict::Excluded(_) | Verdict::ByPoses(_) => push_verdict(text, named, verdict),
    }
}

/// Adds two texts.
pub(crate) fn push_two(text: &mut String, first: &str, second: &str) -> Result<(), AllocError>
    ensures { OnOk result (string_bytes text.new
        ≡ string_bytes text.old ++ (first.now ++ second.now)) }
{
    text.push_str(first)?;
    text.push_str(second)
}

// ---- a state that permits both

/// Adds that a state permits both motors: its zones that aren't free and closed, and its full places.
fn push_unkept(text: &mut String, named: &NamedPlan, state: &State) -> Result<(), AllocError>
    ensures { OnOk result (string_bytes text.new ≡ string_bytes text.old
        ++ (UNKEPT.now ++ spec.state_words named.now state.now)) }
{
    text.push_str(UNKEPT)?;
    push_zones(text, named, state)?;
    push_places(text, named, state)
}

/// Adds the zones that aren't free and closed.
fn push_zones(text: &mut String, named: &NamedPlan, state: &State) -> Result<(), AllocError>
    ensures { OnOk result (string_bytes text.new ≡ string_bytes text.old
        ++ flat_map (spec.zone_part named.now state.now)
        (range_with_len 0 (length named.now.zones))) }
{
    'zones: for zone in 0..named.zones().len() as u8 {
        push_zone_part(text, named, state, zone)?;
    }
    Ok(())
}

/// Adds a zone, unless it is free and closed.
fn push_zone_part(
    text: &mut String,
    named: &NamedPlan,
    state: &State,
    zone: u8,
) -> Result<(), AllocError>
    ensures { OnOk result (string_bytes text.new
        ≡ string_bytes text.old ++ spec.zone_part named.now state.now zone) }
{
    let at = state.zone(zone);
    if rests(at) {
        Ok(())
    } else {
        push_zone(text, named, zone, at)
    }
}

/// Whether a zone is free and closed.
fn rests(at: ZoneState) -> bool
    ensures { result ≡ spec.rests at }
{
    at.owner.is_none() && at.posture == Posture::Closed
}

/// Adds who holds a zone, and its posture.
fn push_zone(
    text: &mut String,
    named: &NamedPlan,
    zone: u8,
    at: ZoneState,
) -> Result<(), AllocError>
    ensures { OnOk result (string_bytes text.new
        ≡ string_bytes text.old ++ spec.zone_words named.now zone at) }
{
    push_two(text, "; ", named.zones().name(zone))?;
    push_owner(text, named, at.owner)?;
    text.push_str(posture_word(at.posture))
}

/// Adds who holds a zone.
fn push_owner(text: &mut String, named: &NamedPlan, owner: Option<u8>) -> Result<(), AllocError>
    ensures { OnOk result (string_bytes text.new
        ≡ string_bytes text.old ++ spec.owner_words named.now owner) }
{
    match owner {
        None => text.push_str(" free, "),
        Some(machine) => {
            push_two(text, " held by ", named.machines().name(machine))?;
            text.push_str(", ")
        }
    }
}

/// Adds the full places.
fn push_places(text: &mut String, named: &NamedPlan, state: &State) -> Result<(), AllocError>
    ensures { OnOk result (string_bytes text.new ≡ string_bytes text.old
        ++ flat_map (spec.place_part named.now state.now)
        (range_with_len 0 (length named.now.places))) }
{
    'places: for place in 0..named.places().len() as u8 {
        push_place_part(text, named, state, place)?;
    }
    Ok(())
}

/// Adds a place, if it is full.
fn push_place_part(
    text: &mut String,
    named: &NamedPlan,
    state: &State,
    place: u8,
) -> Result<(), AllocError>
    ensures { OnOk result (string_bytes text.new
        ≡ string_bytes text.old ++ spec.place_part named.now state.now place) }
{
    if state.is_full(place) {
        push_place(text, named, place)
    } else {
        Ok(())
    }
}

/// Adds that a place is full.
fn push_place(text: &mut String, named: &NamedPlan, place: u8) -> Result<(), AllocError>
    ensures { OnOk result (string_bytes text.new
        ≡ string_bytes text.old ++ spec.place_words named.now place) }
{
    push_two(text, "; ", named.places().name(place))?;
    text.push_str(" full")
}
