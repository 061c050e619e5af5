//! Reads the rows of a document, each by its kind.
ghost use Rattle.std.specs.Prelude.{map, IfOk};
ghost use Rattle.std.specs.List.{AllZip};
ghost use Rattle.toml.specs.View.{table_view, view};
ghost use Rattle.plan_document.specs.Keys.{key_word};
ghost use Rattle.plan_document.specs.Reading.{HasRows, IsHazardIn, IsMachineIn, IsMotorIn, IsPoseIn};

use crate::document::{HazardRow, MachineRow, MotorRow, PoseRow};
use crate::fault::{DocumentFault, Key, RowOf};
use crate::values::{
    check_keys, gives_at, motors_at, postures_at, table_in, tables_at, text_at, texts_at, truth_at,
};
use std::alloc::Global;
use toml::{Table, Value};

/// A kind of rows.
pub trait RowKind: Copy {
    ghost use Rattle.std.specs.Prelude.{IfOk};
    ghost use Rattle.toml.specs.Data.{Data};
    ghost use Rattle.toml.specs.View.{view};

    /// A row of this kind.
    type Row: Drop;

    // What it means that a value is such a row.
    ghost is_in: { Data → Self.Row → Type 0 };

    /// Reads the row with a number, from 0, among those of its list.
    fn read(self, alloc: Global, value: &Value, number: usize) -> Result<Self::Row, DocumentFault>
        ensures { IfOk result (is_in (view value.now)) };
}

/// The rows in the list of a key: none if the key is absent.
pub fn rows_at<K: RowKind>(
    alloc: Global,
    table: &Table,
    at: RowOf,
    key: Key,
    kind: K,
) -> Result<Vec<K::Row>, DocumentFault>
    ensures { IfOk result (λ rows.
        HasRows K.is_in (key_word key) (table_view table.now) rows.items) }
{
    let values = tables_at(table, at, key)?;
    rows_in(alloc, values, kind)
}

fn rows_in<K: RowKind>(
    alloc: Global,
    values: &[Value],
    kind: K,
) -> Result<Vec<K::Row>, DocumentFault>
    ensures { IfOk result (λ rows. AllZip K.is_in (map view values.now) rows.items) }
{
    let mut rows = Vec::new(alloc);
    'rows: for i in 0..values.len() {
        let row = kind.read(alloc, &values[i], i)?;
        rows.push(row)?;
    }
    Ok(rows)
}

/// The machines of a document.
#[derive(Clone, Copy)]
pub struct Machines;

impl RowKind for Machines {
    type Row = MachineRow;

    ghost is_in = { IsMachineIn };

    fn read(
        self,
        alloc: Global,
        value: &Value,
        number: usize,
    ) -> Result<MachineRow, DocumentFault> {
        let at = RowOf::Machine(number);
        let table = table_in(value, RowOf::Document, Key::Machine)?;
        check_keys(alloc, table, at)?;
        let name = text_at(alloc, table, at, Key::Name)?;
        let places = texts_at(alloc, table, at, Key::Places)?;
        let sources = texts_at(alloc, table, at, Key::Sources)?;
        let sinks = texts_at(alloc, table, at, Key::Sinks)?;
        let poses = rows_at(alloc, table, at, Key::Poses, PosesOf { machine: number })?;
        let sensors = texts_at(alloc, table, at, Key::Sensors)?;
        let program = texts_at(alloc, table, at, Key::Program)?;
        Ok(MachineRow {
            name,
            places,
            sources,
            sinks,
            poses,
            sensors,
            program,
        })
    }
}

/// The poses of a machine.
#[derive(Clone, Copy)]
pub struct PosesOf {
    machine: usize,
}

impl RowKind for PosesOf {
    type Row = PoseRow;

    ghost is_in = { IsPoseIn };

    fn read(self, alloc: Global, value: &Value, number: usize) -> Result<PoseRow, DocumentFault> {
        let machine = self.machine;
        let at = RowOf::Pose {
            machine,
            pose: number,
        };
        let table = table_in(value, RowOf::Machine(machine), Key::Poses)?;
        check_keys(alloc, table, at)?;
        let name = text_at(alloc, table, at, Key::Name)?;
        let gives = gives_at(alloc, table, at)?;
        let after_moving = truth_at(table, at, Key::AfterMoving)?;
        Ok(PoseRow {
            name,
            gives,
            after_moving,
        })
    }
}

/// The motors of a document.
#[derive(Clone, Copy)]
pub struct Motors;

impl RowKind for Motors {
    type Row = MotorRow;

    ghost is_in = { IsMotorIn };

    fn read(self, alloc: Global, value: &Value, number: usize) -> Result<MotorRow, DocumentFault> {
        let at = RowOf::Motor(number);
        let table = table_in(value, RowOf::Document, Key::Motor)?;
        check_keys(alloc, table, at)?;
        let name = text_at(alloc, table, at, Key::Name)?;
        let machine = text_at(alloc, table, at, Key::Machine)?;
        let holds = postures_at(alloc, table, at, Key::Holds)?;
        let stands = postures_at(alloc, table, at, Key::Stands)?;
        let full = texts_at(alloc, table, at, Key::Full)?;
        let empty = texts_at(alloc, table, at, Key::Empty)?;
        Ok(MotorRow {
            name,
            machine,
            holds,
            stands,
            full,
            empty,
        })
    }
}

/// The hazards of a document.
#[derive(Clone, Copy)]
pub struct Hazards;

impl RowKind for Hazards {
    type Row = HazardRow;

    ghost is_in = { IsHazardIn };

    fn read(self, alloc: Global, value: &Value, number: usize) -> Result<HazardRow, DocumentFault> {
        let at = RowOf::Hazard(number);
        let table = table_in(value, RowOf::Document, Key::Hazard)?;
        check_keys(alloc, table, at)?;
        let name = text_at(alloc, table, at, Key::Name)?;
        let (first, second) = motors_at(alloc, table, at)?;
        Ok(HazardRow {
            name,
            first,
            second,
        })
    }
}
