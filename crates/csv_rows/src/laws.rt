//! Laws of numbers, of records and of a script's end, each the contract of a function that does nothing.

ghost use Rattle.std.specs.Prelude.{◌≡◌};
ghost use Rattle.csv_rows.specs.NumberExamples.{NumbersAreMet};
ghost use Rattle.csv_rows.specs.RowExamples.{RowsAreMet};
ghost use Rattle.csv_rows.specs.ScriptEnd.{max_records};
ghost use Rattle.csv_rows.specs.ScriptEndExamples.{ScriptEndsAreMet};

use crate::script_end::MAX_RECORDS;

/// Example fields with the numbers in them.
pub fn numbers_are_met()
    ensures { NumbersAreMet }
{}

/// The records of literal texts, and what a read of a record must be.
#[tactic(auto, using(crate::proofs::RowRows::rows_are_met))]
pub fn rows_are_met()
    ensures { RowsAreMet }
{}

/// The last line of a script, by how it ends; and the most records that are answered.
#[tactic(auto, using(crate::proofs::ScriptEndRows::script_ends_are_met))]
pub fn script_ends_are_met()
    ensures most { MAX_RECORDS ≡ max_records }
    ensures met { ScriptEndsAreMet }
{}
