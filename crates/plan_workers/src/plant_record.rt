//! Machines of a plant at work over its interlock that keep a journal of each word, each in a thread of its own.
ghost use Rattle.std.specs.Prelude.{◌≡◌, ◌≤◌, IfOk, All, Ok, [], length, map, vec_capacity, vec_len};
ghost use Rattle.plan_workers.specs.PlantJobs.{IsPlantJobOf, IsPlantReady};
ghost use Rattle.plan_workers.specs.PlantRecording.{AreNewLines, HasPlantRecorded, HavePlantRecorded};
ghost use Rattle.plan_workers.specs.Recording.{IsKept};

use crate::devices::PlanDevices;
use crate::gate::PlanGate;
use crate::journal::PlanEntry;
use crate::journal_line::PlanJournalLine;
use crate::plant_run::{PlantJob, PlantWorked};
use crate::plant_worker::PlantWorker;
use plan_interlock::{PlanPass, PlantInterlock, PlantPass};
use std::alloc::{AllocError, Global};
use std::thread;
use std::thread::Threads;

/// What a machine of a plant gives back after its work, with its journals.
#[derive(Drop)]
pub struct PlantRecorded<D> {
    /// Its pass, its devices, and how it ended.
    pub worked: PlantWorked<D>,
    /// Of each word, in the order of the words: its calls that were answered there in this work, in order.
    pub journals: Vec<Vec<PlanEntry>>,
}

/// A new line of each word, by the pass's right there. Each keeps a journal.
fn lines_of<'a>(
    alloc: Global,
    interlock: &'a PlantInterlock,
    pass: PlantPass,
) -> Result<Vec<PlanJournalLine<'a>>, AllocError>
    requires own { IsPlantJobOf interlock.now pass }
    ensures begun { IfOk result (λ lines. AreNewLines interlock.now pass lines.items) }
{
    let mut lines = Vec::new(alloc);
    let mut word = 0;
    'rights: for right in pass.into_rights() {
        lines.push(PlanJournalLine::new(alloc, interlock.word(word), right))?;
        word += 1;
    }
    Ok(lines)
}

/// Takes lines apart: the rights, and the journals. There is room for them.
fn take_lines_apart(
    lines: Vec<PlanJournalLine<'_>>,
    rights: Vec<PlanPass>,
    journals: Vec<Vec<PlanEntry>>,
) -> (Vec<PlanPass>, Vec<Vec<PlanEntry>>)
    requires no_rights { rights.items ≡ [] }
    requires no_journals { journals.items ≡ [] }
    requires room_for_rights { vec_len lines ≤ vec_capacity rights }
    requires room_for_journals { vec_len lines ≤ vec_capacity journals }
    ensures rights { result.0.items ≡ map (λ l. l.line.pass) lines.entry.items }
    ensures journals { map (λ j. j.items) result.1.items ≡ map (λ l. l.journal) lines.entry.items }
    ensures kept { All IsKept lines.entry.items }
{
    let mut rights = rights;
    let mut journals = journals;
    'lines: for line in lines {
        let (right, journal) = line.into_parts();
        rights.push_reserved(right);
        journals.push_reserved(journal);
    }
    (rights, journals)
}

/// Lets a machine of a plant work over its interlock, from where its controller is: at most `turns` turns, each once
/// the gate lets it begin. Then all its motors are off. It keeps a journal of each word.
///
/// On each word, by all that its pass has seen there, the machine is at its controller's place. Out of memory for a
/// journal it makes no call, and stays where it is until its next turn.
///
/// `Err` if there was no memory for its lines: then it hasn't begun, and its pass and its devices are dropped.
pub fn record_plant_by_pass<D: PlanDevices + Drop, G: PlanGate>(
    alloc: Global,
    interlock: &PlantInterlock,
    job: PlantJob<D>,
    gate: &G,
    turns: u32,
) -> Result<PlantRecorded<D>, AllocError>
    requires ready { IsPlantReady interlock.now job }
    ensures { IfOk result (HasPlantRecorded D.reads D.drives interlock.now (G.may_answer gate.now)
        turns job) }
{
    let PlantJob {
        pass,
        controller,
        devices,
    } = job;
    let machine = pass.actor();
    let rights = Vec::with_capacity(alloc, interlock.words())?;
    let journals = Vec::with_capacity(alloc, interlock.words())?;
    let Ok(lines) = lines_of(alloc, interlock, pass) else {
        return Err(AllocError);
    };
    let mut worker = PlantWorker::going_on(controller, lines, devices);
    let turns = worker.work(gate, turns);
    let (controller, lines, devices) = worker.into_parts();
    let stopped_by = controller.stopped_by();
    let (rights, journals) = take_lines_apart(lines, rights, journals);
    let worked = PlantWorked {
        pass: PlantPass::of_rights(machine, rights),
        controller,
        devices,
        turns,
        stopped_by,
    };
    Ok(PlantRecorded { worked, journals })
}

/// All that machines gave back, if none lacked memory.
fn all_recorded<D: Drop>(
    alloc: Global,
    found: Vec<Result<PlantRecorded<D>, AllocError>>,
) -> Result<Vec<PlantRecorded<D>>, AllocError>
    ensures { IfOk result (λ backs. found.items ≡ map (λ back. Ok back) backs.items) }
{
    let mut backs = Vec::new(alloc);
    'found: for back in found {
        backs.push(back?)?;
    }
    Ok(backs)
}

/// Lets machines of a plant work over its interlock, each in a thread of its own where one can be made, and keeps
/// journals of each. Gives what each gives back, in their order. See [`record_plant_by_pass`].
///
/// Where no thread can be made, machines work one after another. `Err` if memory ran out: then some may not have
/// worked.
pub fn record_plant_in_threads<R: Threads + Sync, D: PlanDevices + Send + Drop, G: PlanGate + Sync>(
    rt: &R,
    alloc: Global,
    interlock: &PlantInterlock,
    jobs: Vec<PlantJob<D>>,
    gate: &G,
    turns: u32,
) -> Result<Vec<PlantRecorded<D>>, AllocError>
    requires ready { All (λ job. IsPlantReady interlock.now job) jobs.items }
    ensures many { IfOk result (λ backs. vec_len backs ≡ vec_len jobs) }
    ensures each { IfOk result (λ backs. HavePlantRecorded D.reads D.drives interlock.now
        (G.may_answer gate.now) turns jobs.items backs.items) }
{
    let found = thread::map_vec(
        rt,
        jobs,
        &|job: PlantJob<D>| -> Result<PlantRecorded<D>, AllocError>
            requires { IsPlantReady interlock.now job }
            ensures { IfOk result (HasPlantRecorded D.reads D.drives interlock.entry.now
                (G.may_answer gate.entry.now) turns job) }
        { record_plant_by_pass(alloc, interlock, job, gate, turns) },
    )?;
    all_recorded(alloc, found)
}
