//! The programs of a plant: what each machine asks on which word, line by line.
ghost use Rattle.std.specs.Prelude.{◌≡◌, ◌<◌, length, map, string_bytes, IfOk};
ghost use Rattle.std.specs.List.{AllZip, filter_map, list_any};
ghost use Rattle.std.specs.Str.{bytes_eq};
ghost use Rattle.plan_document.specs.Names.{numbered};
ghost use Rattle.plan_document.specs.PlantPrograms.{ArePlantPrograms, Asks, AsksOnWord, IsRouted};
ghost use Rattle.plan_document.specs.PlantPrograms.{IsRoutedProgram, lines_of};
ghost use Rattle.plan_document.specs.Plants.{AreMadeFor};
ghost use Rattle.plan_document.specs.Texts.{document_texts};

use crate::document::{Document, MachineRow};
use crate::fault::{DocumentFault, Key, Location, RowOf, Wrong};
use crate::lines::step_in;
use crate::plants::WordPlans;
use crate::programs::{call_of_step, calls_fault};
use crate::resolving::ProgrammedPlan;
use crate::tables::number_of;
use plan_explorer::{PlantProgramFault, PlantPrograms, RoutedCall};
use plan_text::Names;
use plan_types::Call;
use plan_words::Words;
use std::alloc::{AllocError, Global};

/// A plant's document, and what each of its words says.
#[derive(Clone, Copy)]
pub struct PlantLines<'a> {
    /// The document.
    pub document: &'a Document,
    /// The words.
    pub words: &'a Words,
    /// Their documents and plans.
    pub made: &'a WordPlans,
}

impl PlantLines<'_> {
    /// The programs of the machines, by the plans of the words, or the first fault: of a program that asks more than
    /// 255 calls.
    pub fn programs(&self, alloc: Global) -> Result<PlantPrograms, DocumentFault>
        requires { AreMadeFor self.now }
        ensures { IfOk result (ArePlantPrograms self.now.document.now self.now.words.now
            self.now.made.now.plans.items) }
    {
        let lists = self.lists(alloc)?;
        match PlantPrograms::new(alloc, lists, self.made.plans.len()) {
            Ok(programs) => Ok(programs),
            Err(fault) => Err(fault_of(fault)),
        }
    }

    /// What each machine asks on which word.
    fn lists(&self, alloc: Global) -> Result<Vec<Vec<RoutedCall>>, DocumentFault>
        requires { AreMadeFor self.now }
        ensures { IfOk result (λ lists. AllZip (IsRoutedProgram self.now.document.now
            self.now.words.now self.now.made.now.plans.items)
            (numbered self.now.document.now.machines.items)
            (map (λ list. list.items) lists.items)) }
    {
        let mut lists = Vec::new(alloc);
        for i in 0..self.document.machines.len() {
            let list = self.program(alloc, i, &self.document.machines[i])?;
            lists.push(list)?;
        }
        Ok(lists)
    }

    /// What a machine asks on which word.
    fn program(
        &self,
        alloc: Global,
        machine: usize,
        row: &MachineRow,
    ) -> Result<Vec<RoutedCall>, DocumentFault>
        requires { AreMadeFor self.now }
        ensures { IfOk result (λ calls. IsRoutedProgram self.now.document.now self.now.words.now
            self.now.made.now.plans.items (machine, row.now) calls.items) }
    {
        let answers = self.answers(alloc, machine, &row.program)?;
        let calls = calls_in(alloc, &answers)?;
        Ok(calls)
    }

    /// What each of these lines asks on which word.
    fn answers(
        &self,
        alloc: Global,
        machine: usize,
        lines: &[String],
    ) -> Result<Vec<Option<RoutedCall>>, DocumentFault>
        requires { AreMadeFor self.now }
        ensures { IfOk result (λ answers. AllZip (IsRouted self.now.document.now
            self.now.words.now self.now.made.now.plans.items machine)
            (map string_bytes lines.now) answers.items) }
    {
        let mut answers = Vec::new(alloc);
        for item in 0..lines.len() {
            let at = RowOf::Machine(machine).item(Key::Program, item);
            let answer = self.route(alloc, machine, lines[item].as_str(), at)?;
            answers.push(answer)?;
        }
        Ok(answers)
    }

    /// What a line asks on the first word on which it asks anything.
    fn route(
        &self,
        alloc: Global,
        machine: usize,
        line: &str,
        at: Location,
    ) -> Result<Option<RoutedCall>, DocumentFault>
        requires { AreMadeFor self.now }
        ensures { IfOk result (IsRouted self.now.document.now self.now.words.now
            self.now.made.now.plans.items machine line.now) }
    {
        'words: for word in 0..self.made.plans.len() {
            if let Some(call) = self.call(alloc, word, machine, line, at)? {
                return Ok(Some(RoutedCall { word, call }));
            }
        }
        Ok(None)
    }

    /// What a line asks on a word; nothing if it doesn't stand there.
    fn call(
        &self,
        alloc: Global,
        word: usize,
        machine: usize,
        line: &str,
        at: Location,
    ) -> Result<Option<Call>, DocumentFault>
        requires made { AreMadeFor self.now }
        requires word { word < length self.now.made.now.plans.items }
        ensures { IfOk result (λ call. AsksOnWord self.now.document.now self.now.words.now
            self.now.made.now.plans.items word machine line.now call) }
    {
        if has_line(&self.made.documents[word], machine, line) {
            asked_in(alloc, &self.made.plans[word], machine, line, at)
        } else {
            Ok(None)
        }
    }
}

/// Whether a machine's program in a document has a line.
fn has_line(document: &Document, machine: usize, line: &str) -> bool
    ensures { result ≡ list_any (λ other. bytes_eq other line.now)
        (lines_of (document_texts document.now) machine) }
{
    match document.machines.get(machine) {
        Some(row) => is_one_of(&row.program, line),
        None => false,
    }
}

/// Whether a line is one of these.
fn is_one_of(lines: &[String], line: &str) -> bool
    ensures { result ≡ list_any (λ other. bytes_eq (string_bytes other) line.now) lines.now }
{
    lines.iter().any(|other| other.as_str() == line)
}

/// What a line asks by a plan.
fn asked_in(
    alloc: Global,
    plan: &ProgrammedPlan,
    machine: usize,
    line: &str,
    at: Location,
) -> Result<Option<Call>, DocumentFault>
    ensures { IfOk result (Asks plan.now machine line.now) }
{
    let number = number_of(machine, at)?;
    let motors = Some(&plan.motors);
    let step = match plan.sensors.get(machine) {
        Some(sensors) => step_in(alloc, line, number, &plan.named, sensors, motors, at)?,
        None => step_in(
            alloc,
            line,
            number,
            &plan.named,
            &Names::new(alloc),
            motors,
            at,
        )?,
    };
    Ok(call_of_step(step))
}

/// The calls among answers.
fn calls_in(alloc: Global, answers: &[Option<RoutedCall>]) -> Result<Vec<RoutedCall>, AllocError>
    ensures { IfOk result (λ calls. calls.items ≡ filter_map (λ answer. answer) answers.now) }
{
    answers.iter().filter_map(|answer| *answer).collect(alloc)
}

/// The fault of a plant's programs in words of the document.
fn fault_of(fault: PlantProgramFault) -> DocumentFault {
    match fault {
        PlantProgramFault::OutOfMemory => RowOf::Document.whole().fault(Wrong::Memory),
        PlantProgramFault::OfCalls(fault) => calls_fault(fault),
        PlantProgramFault::NoSuchWord { machine, step } => RowOf::Machine(machine)
            .item(Key::Program, step)
            .fault(Wrong::NoLines),
    }
}
