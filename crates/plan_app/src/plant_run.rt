//! Lets the machines of a plant work in threads on all its words, with simulated devices, and tells what they did.
ghost use Rattle.std.specs.Prelude.{◌≡◌, ◌<◌, ◌≤◌, ℕ, IfOk, IfErr, IfSome, IsNone, All, length, map};
ghost use Rattle.std.specs.Prelude.{slice_get, slice_index_or, Some};
ghost use Rattle.std.specs.List.{range_with_len};
ghost use Rattle.csv_rows.specs.ScriptEnd.{max_records};
ghost use Rattle.plan_text.specs.HistoryLaws.{IsStartOf};
ghost use Rattle.plan_explorer.specs.Plants.{state_on};
ghost use Rattle.plan_interlock.specs.Book.{plan_of};
ghost use Rattle.plan_interlock.specs.Plant.{IsOfPlant};
ghost use Rattle.plan_interlock.specs.PlantMake.{OpensSoundly, callers, new_pass};
ghost use Rattle.plan_workers.specs.Audited.{journals_in};
ghost use Rattle.plan_workers.specs.PlantClosing as closing;
ghost use Rattle.plan_app.specs.PlantStarts.{HasWords, tables_of};
ghost use Rattle.plan_app.specs.PlantRunTexts.{history_on};
ghost use Rattle.plan_app.specs.WholePrograms.{IsProgramOf};
ghost use Rattle.plan_app.specs.PlantRuns as spec;
ghost use Rattle.plan_app.specs.PlantRuns.{AreStartsOf, IsPlantRunOf, IsPlantUntold};

use crate::plant_run_text::{PlantRun, PlantStop, are_fine, are_own_on_each, plant_text_of};
use crate::plant_steps::{plant_program, program_on};
use crate::run::{MAX_CALLS, PATIENCE, TRIES, Told, copy_of};
use crate::simulated::SimulatedDevices;
use plan_document::{ProgrammedPlan, ProgrammedPlant};
use plan_interlock::laws::starts_can_open;
use plan_interlock::{PlanRules, PlantFault, PlantInterlock, PlantPass, WordOpening};
use plan_rules::State;
use plan_types::Event;
use plan_workers::laws::new_passes_may_work;
use plan_workers::{
    PacedPlanGate, PlanAuditFault, PlanEntry, PlantController, PlantJob, PlantRecorded, RoutedStep,
    audit, journals_on, record_plant_in_threads, survey_words,
};
use std::alloc::{AllocError, AllocFailed, Global};
use std::sync::Wait;
use std::thread::Threads;
use std::time::{Clock, Duration};

/// Why a run of a plant isn't told.
#[derive(Clone, Copy, PartialEq, Eq, Debug)]
pub enum PlantRunFault {
    /// Memory ran out.
    Memory,
    /// No legal history of some word explains the journals, or one has a call that isn't its machine's own. No run is
    /// known to come to it, but no clause says that none does.
    Audit,
    /// A word has more calls than a script may have.
    Long,
    /// The words aren't those of one plant: what a machine does on them isn't one program, or they don't have the same
    /// machines. No plant that was read is known to come to it, but no clause says that none does.
    Words,
}

impl From<AllocError> for PlantRunFault {
    ghost use Rattle.std.specs.Prelude.{◌≡◌};
    ghost use Rattle.plan_app.specs.declared.plant_run.PlantRunFault.TheVariants.{Memory};

    ghost from_gives = { λ _ e. e ≡ Memory };

    fn from(_fault: AllocError) -> PlantRunFault {
        PlantRunFault::Memory
    }
}

impl<T: Drop> From<AllocFailed<T>> for PlantRunFault {
    ghost use Rattle.std.specs.Prelude.{◌≡◌};
    ghost use Rattle.plan_app.specs.declared.plant_run.PlantRunFault.TheVariants.{Memory};

    ghost from_gives = { λ _ e. e ≡ Memory };

    fn from(_fault: AllocFailed<T>) -> PlantRunFault {
        PlantRunFault::Memory
    }
}

// ---- what each word opens with, and the jobs

/// What a word opens with.
fn opening_of(plan: &ProgrammedPlan, start: &State) -> Result<WordOpening, AllocError>
    requires { IsStartOf plan.now.named start.now }
    ensures sound { IfOk result OpensSoundly }
    ensures rules { IfOk result (λ opening. plan_of opening.rules ≡ plan.now.named.plan) }
    ensures state { IfOk result (λ opening. opening.state ≡ start.now) }
{
    let rules = PlanRules::new(plan.named.plan().clone()?);
    starts_can_open(&rules, start);
    Ok(WordOpening {
        rules,
        state: *start,
    })
}

/// What each word opens with.
fn openings_of(
    alloc: Global,
    plans: &[ProgrammedPlan],
    starts: &[State],
) -> Result<Vec<WordOpening>, AllocError>
    requires { AreStartsOf plans.now starts.now }
    ensures sound { IfOk result (λ openings. All OpensSoundly openings.items) }
    ensures rules { IfOk result (λ openings.
        map (λ opening. plan_of opening.rules) openings.items ≡ tables_of plans.now) }
    ensures states { IfOk result (λ openings.
        map (λ opening. opening.state) openings.items ≡ starts.now) }
{
    let mut openings = Vec::new(alloc);
    for word in 0..plans.len() {
        openings.push(opening_of(&plans[word], &starts[word])?)?;
    }
    Ok(openings)
}

/// The job of a machine by its new pass: its program on all words, with simulated devices.
fn job_of(
    alloc: Global,
    plant: &ProgrammedPlant,
    interlock: &PlantInterlock,
    pass: PlantPass,
    machine: u8,
) -> Result<PlantJob<SimulatedDevices>, PlantRunFault>
    requires pass { pass ≡ new_pass interlock.now machine }
    requires many { length interlock.now ≡ length plant.now.plans.items }
    requires words { HasWords plant.now }
    requires some { 0 < length plant.now.plans.items }
    ensures job { IfOk result (spec.IsPlantJobFor plant.now interlock.now machine) }
    ensures fault { IfErr result (spec.IsUnbegun plant.now) }
{
    match plant_program(alloc, plant, machine)? {
        Some(steps) => job_with(alloc, plant, interlock, pass, machine, steps),
        None => Err(PlantRunFault::Words),
    }
}

/// The same with the steps of the machine's program.
fn job_with(
    alloc: Global,
    plant: &ProgrammedPlant,
    interlock: &PlantInterlock,
    pass: PlantPass,
    machine: u8,
    steps: Vec<RoutedStep>,
) -> Result<PlantJob<SimulatedDevices>, PlantRunFault>
    requires pass { pass ≡ new_pass interlock.now machine }
    requires many { length interlock.now ≡ length plant.now.plans.items }
    requires program { IsProgramOf plant.now machine steps.items }
    ensures job { IfOk result (spec.IsPlantJobFor plant.now interlock.now machine) }
    ensures fault { IfErr result (spec.IsUnbegun plant.now) }
{
    let devices = SimulatedDevices::new(copy_of(alloc, program_on(&plant.plans, machine, 0))?);
    new_passes_may_work();
    match PlantController::new(machine, plant.plans.len(), steps) {
        Some(controller) => Ok(PlantJob::new(pass, controller, devices)),
        None => Err(PlantRunFault::Words),
    }
}

/// The jobs of all machines, by their new passes.
fn jobs_of(
    alloc: Global,
    plant: &ProgrammedPlant,
    interlock: &PlantInterlock,
    passes: Vec<PlantPass>,
) -> Result<Vec<PlantJob<SimulatedDevices>>, PlantRunFault>
    requires passes { passes.items
        ≡ map (new_pass interlock.now) (range_with_len 0 (length passes.items)) }
    requires many { length interlock.now ≡ length plant.now.plans.items }
    requires words { HasWords plant.now }
    requires some { 0 < length plant.now.plans.items }
    ensures many { IfOk result (λ jobs. length jobs.items ≡ length passes.items) }
    ensures each { IfOk result
        (λ jobs. spec.ArePlantJobsFor plant.now interlock.now jobs.items) }
    ensures fault { IfErr result (spec.IsUnbegun plant.now) }
{
    let mut jobs = Vec::new(alloc);
    'passes: for pass in passes {
        let machine = pass.actor();
        jobs.push(job_of(alloc, plant, interlock, pass, machine)?)?;
    }
    Ok(jobs)
}

// ---- what is known at the end

/// The history of a word, by an audit of the journals of it.
fn audit_word(
    alloc: Global,
    plan: &ProgrammedPlan,
    start: &State,
    end: &State,
    journals: &[Vec<PlanEntry>],
) -> Result<Vec<Event>, PlantRunFault>
    ensures history { IfOk result (λ history. spec.IsExplained plan.now start.now
        (journals_in journals.now) history.items) }
    ensures fault { IfErr result (spec.IsUnexplained plan.now start.now
        (journals_in journals.now)) }
{
    match audit(alloc, plan.named.plan(), start, journals, Some(end)) {
        Ok(history) => Ok(history),
        Err(PlanAuditFault::Memory) => Err(PlantRunFault::Memory),
        Err(_) => Err(PlantRunFault::Audit),
    }
}

/// The history of a word, by the journals that machines have kept of it.
fn history_of(
    alloc: Global,
    plan: &ProgrammedPlan,
    start: &State,
    end: &State,
    backs: &[PlantRecorded<SimulatedDevices>],
    word: usize,
) -> Result<Vec<Event>, PlantRunFault>
    ensures history { IfOk result (λ history. spec.IsExplained plan.now start.now
        (closing.journals_on word backs.now) history.items) }
    ensures fault { IfErr result (spec.IsUnexplained plan.now start.now
        (closing.journals_on word backs.now)) }
{
    let journals = journals_on(alloc, backs, word)?;
    audit_word(alloc, plan, start, end, &journals)
}

/// The history of each word.
fn histories_of(
    alloc: Global,
    plans: &[ProgrammedPlan],
    starts: &[State],
    ends: &[State],
    backs: &[PlantRecorded<SimulatedDevices>],
) -> Result<Vec<Vec<Event>>, PlantRunFault>
    requires starts { length starts.now ≡ length plans.now }
    requires ends { length ends.now ≡ length plans.now }
    ensures count { IfOk result (λ histories. length histories.items ≡ length plans.now) }
    ensures explained { IfOk result (λ histories. spec.AreExplained plans.now starts.now backs.now
        (map (λ history. history.items) histories.items)) }
    ensures fault { IfErr result (spec.AreUnexplained plans.now starts.now backs.now) }
{
    let mut histories = Vec::new(alloc);
    for word in 0..plans.len() {
        let history = history_of(alloc, &plans[word], &starts[word], &ends[word], backs, word)?;
        histories.push(history)?;
    }
    Ok(histories)
}

/// The word of the step at which a machine is; word 0 if it stands on all.
fn word_at(controller: &PlantController) -> usize
    ensures { result ≡ spec.word_at controller.now }
{
    match controller.step() {
        Some(step) => step.word().unwrap_or(0),
        None => 0,
    }
}

/// What has stopped a machine, and on which word.
fn stop_in(back: &PlantRecorded<SimulatedDevices>) -> Option<PlantStop>
    ensures { result ≡ spec.stop_in back.now }
{
    match back.worked.stopped_by {
        Some(refusal) => Some(PlantStop {
            word: word_at(&back.worked.controller),
            refusal,
        }),
        None => None,
    }
}

/// What has stopped each machine.
fn stops_in(
    alloc: Global,
    backs: &[PlantRecorded<SimulatedDevices>],
) -> Result<Vec<Option<PlantStop>>, AllocError>
    ensures { IfOk result (λ stops. stops.items ≡ spec.stops_in backs.now) }
{
    let mut stops = Vec::new(alloc);
    'backs: for k in 0..backs.len() {
        stops.push(stop_in(&backs[k]))?;
    }
    Ok(stops)
}

/// What machines have done that have come back.
fn end_run(
    alloc: Global,
    plant: &ProgrammedPlant,
    turns: u32,
    starts: &[State],
    ends: &[State],
    backs: &[PlantRecorded<SimulatedDevices>],
) -> Result<PlantRun, PlantRunFault>
    requires run { spec.HavePlantRun plant.now turns starts.now backs.now }
    requires starts { length starts.now ≡ length plant.now.plans.items }
    requires ends { length ends.now ≡ length plant.now.plans.items }
    ensures run { IfOk result (λ run. IsPlantRunOf plant.now turns starts.now
        (map (λ history. history.items) run.histories.items) run.stops.items) }
    ensures fault { IfErr result (IsPlantUntold plant.now turns starts.now) }
{
    let histories = histories_of(alloc, &plant.plans, starts, ends, backs)?;
    let stops = stops_in(alloc, backs)?;
    Ok(PlantRun { histories, stops })
}

// ---- the run

/// How many machines there are.
fn machine_count(plans: &[ProgrammedPlan]) -> u8
    ensures { result ≡ spec.machine_count plans.now }
{
    match plans.get(0) {
        Some(plan) => plan.named.plan().machines(),
        None => 0,
    }
}

/// Lets machines work by their new passes, and says what they did.
fn run_by_passes<T: Threads + Wait + Clock + Sync>(
    rt: &T,
    alloc: Global,
    plant: &ProgrammedPlant,
    starts: &[State],
    turns: u32,
    interlock: &PlantInterlock,
    passes: Vec<PlantPass>,
) -> Result<PlantRun, PlantRunFault>
    requires words { HasWords plant.now }
    requires some { 0 < length plant.now.plans.items }
    requires starts { AreStartsOf plant.now.plans.items starts.now }
    requires opened { spec.AreWordsOf plant.now.plans.items starts.now interlock.now }
    requires passes { passes.items ≡ map (new_pass interlock.now)
        (callers (spec.machine_count plant.now.plans.items)) }
    requires own { All (IsOfPlant interlock.now) passes.items }
    ensures run { IfOk result (λ run. IsPlantRunOf plant.now turns starts.now
        (map (λ history. history.items) run.histories.items) run.stops.items) }
    ensures fault { IfErr result (IsPlantUntold plant.now turns starts.now) }
{
    let mut passes = passes;
    let Some(watch) = passes.pop() else {
        return Err(PlantRunFault::Words);
    };
    let jobs = jobs_of(alloc, plant, interlock, passes)?;
    let patience = Duration::from_secs(PATIENCE);
    let gate = PacedPlanGate::new(rt, machine_count(&plant.plans), patience);
    let backs = record_plant_in_threads(rt, alloc, interlock, jobs, &gate, turns)?;
    new_passes_may_work();
    let ends = survey_words(alloc, interlock, watch)?;
    end_run(alloc, plant, turns, starts, &ends, &backs)
}

/// Lets the machines of a plant take turns, each in a thread of its own, at one pace, through its program on all words,
/// which open with these starts. No run is known to come to `Audit` or `Words`, but no clause says that none does.
pub fn run_plant_machines<T: Threads + Wait + Clock + Sync>(
    rt: &T,
    alloc: Global,
    plant: &ProgrammedPlant,
    starts: &[State],
    turns: u32,
) -> Result<PlantRun, PlantRunFault>
    requires words { HasWords plant.now }
    requires starts { AreStartsOf plant.now.plans.items starts.now }
    ensures run { IfOk result (λ run. IsPlantRunOf plant.now turns starts.now
        (map (λ history. history.items) run.histories.items) run.stops.items) }
    ensures fault { IfErr result (IsPlantUntold plant.now turns starts.now) }
{
    if plant.plans.is_empty() {
        return Err(PlantRunFault::Words);
    }
    let openings = openings_of(alloc, &plant.plans, starts)?;
    match PlantInterlock::new(alloc, openings, TRIES) {
        Ok((interlock, passes)) => {
            run_by_passes(rt, alloc, plant, starts, turns, &interlock, passes)
        }
        Err(PlantFault::Memory) => Err(PlantRunFault::Memory),
        Err(_) => Err(PlantRunFault::Words),
    }
}

// ---- what is told

/// A word whose history has more events than a script may have.
fn long_word(histories: &[Vec<Event>]) -> Option<usize>
    ensures none { IsNone result → spec.AreFew (map (λ h. h.items) histories.now) }
    ensures some { IfSome result
        (λ word. max_records < length (history_on (map (λ h. h.items) histories.now) word)) }
{
    for word in 0..histories.len() {
        if histories[word].len() > MAX_CALLS {
            return Some(word);
        }
    }
    None
}

/// Tells a run, unless a word has more calls than a script may have.
pub fn tell_plant_run(
    alloc: Global,
    plant: &ProgrammedPlant,
    starts: &[State],
    turns: u32,
    run: &PlantRun,
) -> Result<Told, PlantRunFault>
    requires { IsPlantRunOf plant.now turns starts.now
        (map (λ history. history.items) run.now.histories.items) run.now.stops.items }
    ensures told { IfOk result (spec.IsPlantTold plant.now turns starts.now) }
    ensures fault { IfErr result (IsPlantUntold plant.now turns starts.now) }
{
    if !are_own_on_each(&plant.plans, &run.histories) {
        return Err(PlantRunFault::Audit);
    }
    if long_word(&run.histories).is_some() {
        return Err(PlantRunFault::Long);
    }
    let text = plant_text_of(alloc, &plant.plans, starts, turns, run)?;
    if are_fine(&run.stops) {
        Ok(Told::Fine(text))
    } else {
        Ok(Told::Stopped(text))
    }
}

/// Runs the machines of a plant from the starts of its words, and tells the run.
pub fn run_plant_and_tell<T: Threads + Wait + Clock + Sync>(
    rt: &T,
    alloc: Global,
    plant: &ProgrammedPlant,
    starts: &[State],
    turns: u32,
) -> Result<Told, PlantRunFault>
    requires words { HasWords plant.now }
    requires starts { AreStartsOf plant.now.plans.items starts.now }
    ensures told { IfOk result (spec.IsPlantTold plant.now turns starts.now) }
    ensures fault { IfErr result (IsPlantUntold plant.now turns starts.now) }
{
    let run = run_plant_machines(rt, alloc, plant, starts, turns)?;
    tell_plant_run(alloc, plant, starts, turns, &run)
}
