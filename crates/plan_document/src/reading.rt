//! Reads a plan's document.
ghost use Rattle.std.specs.Prelude.{◌≡◌, ◌≤◌, length, IfOk, IfSome, IsOk, IsTrue, OnOk, Some};
ghost use Rattle.toml.specs.Parse.{parse_document};
ghost use Rattle.toml.specs.View.{table_view};
ghost use Rattle.text_io.specs.Input.{TakesAtMost};
ghost use Rattle.plan_document.specs.Keys.{has_only, top_keys};
ghost use Rattle.plan_document.specs.Limits.{byte_limit, max_bytes_read};
ghost use Rattle.plan_document.specs.Plants.{IsPlantIn, IsPlantOfTable};
ghost use Rattle.plan_document.specs.Reading.{IsDocumentIn, IsPlanIn, IsPlanOfTable};

use crate::document::Document;
use crate::fault::{DocumentFault, Key, PlanTextFault, RowNames, RowOf, Wrong};
use crate::first::first_of;
use crate::locating::{line_at, line_of};
use crate::plants::{ProgrammedPlant, programmed_plant_of};
use crate::resolving::{ProgrammedPlan, programmed_plan_of};
use crate::row_kinds::{Hazards, Machines, Motors, rows_at};
use crate::row_names::names_of;
use crate::values::{check_keys, value_at};
use crate::zones::zones_at;
use std::alloc::{AllocError, Global};
use std::io::Read;
use text_io::{InputFault, read_up_to};
use toml::Table;
use toml_places::line_number;

/// The most bytes of a document.
pub const MAX_BYTES: usize = 65_536;

/// Reads a plan from the bytes that the reader has left. At most 65,537 bytes are taken from it.
///
/// The error is the first fault. Faults come in this order: too many bytes, no TOML, keys and values of rows, names,
/// tables, sensors and lines of programs, whole programs, motors and hazards, and last the motors that lines run. The
/// error is `Read` if the reader fails. `Memory` may come from any allocation.
pub fn read_plan<R: Read>(alloc: Global, reader: &mut R) -> Result<ProgrammedPlan, PlanTextFault>
    ensures plan { IfSome (R.remaining reader.old) (λ bytes. IfOk result (IsPlanIn bytes)) }
    ensures taken { TakesAtMost (R.remaining reader.old) (R.remaining reader.new) max_bytes_read }
{
    match read_up_to(alloc, reader, MAX_BYTES + 1) {
        Ok(bytes) => plan_of(alloc, bytes.as_slice()),
        Err(InputFault::Read) => Err(PlanTextFault::Read),
        Err(InputFault::Memory) => Err(PlanTextFault::Memory),
    }
}

/// The plan in a document's bytes, or the first fault.
pub fn plan_of(alloc: Global, bytes: &[u8]) -> Result<ProgrammedPlan, PlanTextFault>
    ensures plan { IfOk result (IsPlanIn bytes.now) }
    ensures short { IsOk result → length bytes.now ≤ byte_limit }
{
    let table = toml_in(alloc, bytes)?;
    match plan_in(alloc, &table) {
        Ok(plan) => Ok(plan),
        Err(fault) => Err(place_fault(alloc, bytes, &table, fault)),
    }
}

/// The plant in a document's bytes, on as many words as its groups of zones need, or the first fault. A plan that fits
/// one word is a plant on one.
pub fn plant_of(alloc: Global, bytes: &[u8]) -> Result<ProgrammedPlant, PlanTextFault>
    ensures plant { IfOk result (IsPlantIn bytes.now) }
    ensures short { IsOk result → length bytes.now ≤ byte_limit }
{
    let table = toml_in(alloc, bytes)?;
    match plant_in(alloc, &table) {
        Ok(plant) => Ok(plant),
        Err(fault) => Err(place_fault(alloc, bytes, &table, fault)),
    }
}

/// The table in a document's bytes.
fn toml_in(alloc: Global, bytes: &[u8]) -> Result<Table, PlanTextFault>
    ensures table { IfOk result (λ table. parse_document bytes.now ≡ Some (table_view table)) }
    ensures short { IsOk result → length bytes.now ≤ byte_limit }
{
    if bytes.len() > MAX_BYTES {
        return Err(PlanTextFault::Long);
    }
    match toml::table_from_slice(alloc, bytes) {
        Ok(table) => Ok(table),
        Err(error) => Err(no_toml(alloc, bytes, &error)),
    }
}

/// The fault of bytes that can't be read as TOML.
fn no_toml(alloc: Global, bytes: &[u8], error: &toml::de::Error) -> PlanTextFault {
    if error.is_memory() {
        return PlanTextFault::Memory;
    }
    let before = error.span().map_or(0, |span| span.start);
    match String::from_str(alloc, error.message()) {
        Ok(message) => PlanTextFault::NoToml {
            line: line_number(bytes, before),
            message,
        },
        Err(AllocError) => PlanTextFault::Memory,
    }
}

fn plant_in(alloc: Global, table: &Table) -> Result<ProgrammedPlant, PlanTextFault>
    ensures { IfOk result (IsPlantOfTable (table_view table.now)) }
{
    let document = document_in(alloc, table)?;
    programmed_plant_of(alloc, &document)
}

fn plan_in(alloc: Global, table: &Table) -> Result<ProgrammedPlan, PlanTextFault>
    ensures { IfOk result (IsPlanOfTable (table_view table.now)) }
{
    let document = document_in(alloc, table)?;
    programmed_plan_of(alloc, &document)
}

/// A fault with its line and the names of its rows, if it is one of a row.
fn place_fault(alloc: Global, bytes: &[u8], table: &Table, fault: PlanTextFault) -> PlanTextFault {
    match fault {
        PlanTextFault::Row { fault, .. } => match places_of(alloc, bytes, table, &fault) {
            Ok((line, first, names)) => PlanTextFault::Row {
                line,
                first,
                names,
                fault,
            },
            Err(AllocError) => PlanTextFault::Memory,
        },
        other => other,
    }
}

/// The line of a fault, if it has one, that of the first of two names, and the names of its rows.
fn places_of(
    alloc: Global,
    bytes: &[u8],
    table: &Table,
    fault: &DocumentFault,
) -> Result<(Option<usize>, Option<usize>, RowNames), AllocError> {
    let line = line_of(alloc, bytes, fault)?;
    let first = line_of_first(alloc, bytes, table, fault)?;
    let names = names_of(alloc, table, fault.location)?;
    Ok((line, first, names))
}

/// The line of the first of two names that are the same, if a fault says that they are.
fn line_of_first(
    alloc: Global,
    bytes: &[u8],
    table: &Table,
    fault: &DocumentFault,
) -> Result<Option<usize>, AllocError> {
    match first_of(table, fault) {
        Some(location) => line_at(alloc, bytes, location),
        None => Ok(None),
    }
}

/// The rows in a table.
fn document_in(alloc: Global, table: &Table) -> Result<Document, DocumentFault>
    ensures { IfOk result (IsDocumentIn (table_view table.now)) }
{
    check_top(alloc, table)?;
    let top = RowOf::Document;
    let machines = rows_at(alloc, table, top, Key::Machine, Machines)?;
    let zones = zones_at(alloc, table)?;
    let motors = rows_at(alloc, table, top, Key::Motor, Motors)?;
    let hazards = rows_at(alloc, table, top, Key::Hazard, Hazards)?;
    Ok(Document {
        machines,
        zones,
        motors,
        hazards,
    })
}

/// Refuses a document with an unknown key at the top, or without machines.
fn check_top(alloc: Global, table: &Table) -> Result<(), DocumentFault>
    ensures { OnOk result (IsTrue (has_only top_keys (table_view table.now))) }
{
    check_keys(alloc, table, RowOf::Document)?;
    match value_at(table, Key::Machine) {
        Some(_) => Ok(()),
        None => Err(RowOf::Document.whole().fault(Wrong::NoMachines)),
    }
}
