//! Prints what is found of all words of a plant together, from the start of a script: by an exploration, or in a run.
ghost use Rattle.std.specs.Prelude.{◌≡◌, ◌≢◌, ◌<◌, ◌≤◌, ◌⊎◌, codes, length};
ghost use Rattle.text_io.specs.Input.{TakesAtMost};
ghost use Rattle.plan_app.specs.Failed.{FailsOfBytes, FailsTogether, WroteDocumentFault, WroteFault};
ghost use Rattle.plan_app.specs.Failed.{WroteFromScript, WroteOfDocument, WrotePlantFrom};
ghost use Rattle.plan_app.specs.Failed.{WrotePlantRun, WroteUnread, wrote_of};
ghost use Rattle.plan_app.specs.Input.{byte_limit, max_bytes_read};
ghost use Rattle.plan_app.specs.PlantRuns.{AreStartsOf};
ghost use Rattle.plan_app.specs.PlantStarts.{HasWords};
ghost use Rattle.plan_app.specs.Served.{FromScript, OfBytes, OfDocument, WritesPlantFree};
ghost use Rattle.plan_app.specs.Served.{WritesPlantRun, WritesTogether, writes_of};

use crate::apart::Exploration;
use crate::input::{MAX_BYTES, plan_length};
use crate::plant_apart::plant_exploration_of;
use crate::plant_run::{PlantRunFault, run_plant_and_tell};
use crate::plant_start::openings_of_script;
use crate::request::Together;
use crate::run::Told;
use crate::serve::{fail_to_read, print_warning, read_input, refuse_document, refuse_start};
use plan_document::{ProgrammedPlant, plant_of};
use plan_rules::State;
use program_shell::{Exit, fail, print};
use std::alloc::{AllocError, Global};
use std::io::{Read, Write};
use std::sync::Wait;
use std::thread::Threads;
use std::time::Clock;

/// Reads a plant and a script after it, and prints what is found of all its words together, from the script's start.
pub(crate) fn together_input<T, R: Read, W: Write>(
    rt: &T,
    alloc: Global,
    task: Together,
    reader: &mut R,
    writer: &mut W,
) -> Exit
where
    T: Threads + Wait + Clock + Sync,
    ensures status { result ≢ Exit.Refused }
    ensures well { result ≡ Exit.Well → WritesTogether task (R.remaining reader.old)
        (W.contents writer.old) (W.contents writer.new) }
    ensures failed { result ≡ Exit.Failed → FailsTogether task (R.remaining reader.old)
        (W.contents writer.old) (W.contents writer.new) }
    ensures read { TakesAtMost (R.remaining reader.old) (R.remaining reader.new) max_bytes_read }
{
    match read_input(alloc, reader) {
        Ok(bytes) => together_bytes(rt, alloc, task, bytes.as_slice(), writer),
        Err(fault) => fail_to_read(writer, fault),
    }
}

fn together_bytes<T, W: Write>(
    rt: &T,
    alloc: Global,
    task: Together,
    bytes: &[u8],
    writer: &mut W,
) -> Exit
where
    T: Threads + Wait + Clock + Sync,
    ensures status { result ≢ Exit.Refused }
    ensures short { result ≡ Exit.Well → length bytes.now ≤ byte_limit }
    ensures long { byte_limit < length bytes.now →
        WroteFault (codes "long") (W.contents writer.old) (W.contents writer.new) }
    ensures well { result ≡ Exit.Well →
        OfBytes (writes_of task) bytes.now (W.contents writer.old) (W.contents writer.new) }
    ensures failed { result ≡ Exit.Failed →
        FailsOfBytes (wrote_of task) bytes.now (W.contents writer.old) (W.contents writer.new) }
{
    if bytes.len() > MAX_BYTES {
        return fail(writer, "long");
    }
    let (document, script) = bytes.split_at(plan_length(bytes));
    together_document(rt, alloc, task, document, script, writer)
}

/// The same of the plant in a document.
fn together_document<T, W: Write>(
    rt: &T,
    alloc: Global,
    task: Together,
    document: &[u8],
    script: &[u8],
    writer: &mut W,
) -> Exit
where
    T: Threads + Wait + Clock + Sync,
    ensures status { result ≢ Exit.Refused }
    ensures well { result ≡ Exit.Well → OfDocument (writes_of task) document.now script.now
        (W.contents writer.old) (W.contents writer.new) }
    ensures failed { result ≡ Exit.Failed →
        WroteUnread (W.contents writer.old) (W.contents writer.new)
        ⊎ (WroteDocumentFault (W.contents writer.old) (W.contents writer.new)
        ⊎ WroteOfDocument (wrote_of task) document.now script.now
        (W.contents writer.old) (W.contents writer.new)) }
{
    match plant_of(alloc, document) {
        Ok(plant) => together_script(rt, alloc, task, &plant, script, writer),
        Err(fault) => refuse_document(alloc, writer, fault),
    }
}

/// The same of a plant, from the start of a script.
fn together_script<T, W: Write>(
    rt: &T,
    alloc: Global,
    task: Together,
    plant: &ProgrammedPlant,
    script: &[u8],
    writer: &mut W,
) -> Exit
where
    T: Threads + Wait + Clock + Sync,
    requires words { HasWords plant.now }
    ensures status { result ≢ Exit.Refused }
    ensures well { result ≡ Exit.Well → FromScript (writes_of task) plant.now script.now
        (W.contents writer.old) (W.contents writer.new) }
    ensures failed { result ≡ Exit.Failed →
        WroteUnread (W.contents writer.old) (W.contents writer.new)
        ⊎ WroteFromScript (wrote_of task) plant.now script.now
        (W.contents writer.old) (W.contents writer.new) }
{
    match openings_of_script(alloc, plant, script) {
        Ok(Ok(openings)) => together_from(rt, alloc, task, plant, openings.as_slice(), writer),
        Ok(Err(fault)) => refuse_start(alloc, writer, fault),
        Err(fault) => fail_to_read(writer, fault),
    }
}

/// The same from openings.
fn together_from<T, W: Write>(
    rt: &T,
    alloc: Global,
    task: Together,
    plant: &ProgrammedPlant,
    openings: &[State],
    writer: &mut W,
) -> Exit
where
    T: Threads + Wait + Clock + Sync,
    requires words { HasWords plant.now }
    requires openings { AreStartsOf plant.now.plans.items openings.now }
    ensures status { result ≢ Exit.Refused }
    ensures well { result ≡ Exit.Well → writes_of task plant.now openings.now
        (W.contents writer.old) (W.contents writer.new) }
    ensures failed { result ≡ Exit.Failed →
        WroteUnread (W.contents writer.old) (W.contents writer.new)
        ⊎ wrote_of task plant.now openings.now
        (W.contents writer.old) (W.contents writer.new) }
{
    match task {
        Together::Explore(most) => explore_plant_from(alloc, plant, most, openings, writer),
        Together::Run(turns) => run_plant_from(rt, alloc, plant, turns, openings, writer),
    }
}

fn explore_plant_from<W: Write>(
    alloc: Global,
    plant: &ProgrammedPlant,
    most: usize,
    openings: &[State],
    writer: &mut W,
) -> Exit
    requires words { HasWords plant.now }
    requires openings { length openings.now ≡ length plant.now.plans.items }
    ensures status { result ≢ Exit.Refused }
    ensures free { result ≡ Exit.Well → WritesPlantFree plant.now openings.now
        (W.contents writer.old) (W.contents writer.new) }
    ensures failed { result ≡ Exit.Failed →
        WroteUnread (W.contents writer.old) (W.contents writer.new)
        ⊎ WrotePlantFrom most plant.now openings.now
        (W.contents writer.old) (W.contents writer.new) }
{
    match plant_exploration_of(alloc, plant, openings, most) {
        Ok(Exploration::Well(text)) => print(writer, text.as_bytes()),
        Ok(Exploration::Unwell(text)) => print_warning(writer, text.as_str()),
        Ok(Exploration::Large(words)) => fail(writer, words.as_str()),
        Err(AllocError) => fail(writer, "memory"),
    }
}

fn run_plant_from<T, W: Write>(
    rt: &T,
    alloc: Global,
    plant: &ProgrammedPlant,
    turns: u32,
    openings: &[State],
    writer: &mut W,
) -> Exit
where
    T: Threads + Wait + Clock + Sync,
    requires words { HasWords plant.now }
    requires openings { AreStartsOf plant.now.plans.items openings.now }
    ensures status { result ≢ Exit.Refused }
    ensures ran { result ≡ Exit.Well → WritesPlantRun turns plant.now openings.now
        (W.contents writer.old) (W.contents writer.new) }
    ensures failed { result ≡ Exit.Failed →
        WroteUnread (W.contents writer.old) (W.contents writer.new)
        ⊎ WrotePlantRun turns plant.now openings.now
        (W.contents writer.old) (W.contents writer.new) }
{
    match run_plant_and_tell(rt, alloc, plant, openings, turns) {
        Ok(Told::Fine(text)) => print(writer, text.as_bytes()),
        Ok(Told::Stopped(text)) => print_warning(writer, text.as_str()),
        Err(PlantRunFault::Memory) => fail(writer, "memory"),
        Err(PlantRunFault::Audit) => fail(writer, "audit"),
        Err(PlantRunFault::Long) => fail(writer, "long"),
        Err(PlantRunFault::Words) => fail(writer, "words"),
    }
}
