//! Laws of the programs, row by row. Each is the contract of a function with an empty body.
ghost use Rattle.cell_table_press.specs.KeepExamples.{KeepsAreMet};
ghost use Rattle.cell_table_press.specs.PressExamples.{PressRowsAreMet};
ghost use Rattle.cell_table_press.specs.TableExamples.{TableRowsAreMet};

/// The rows of the press's program, by examples: its start, by the places that are full; for each
/// step and each state of its notes, what it asks, exactly the refusals on which it stays, and the
/// next step; its motor, by each switch; and which switches can't be used.
pub fn press_rows_are_met()
    ensures { PressRowsAreMet }
{}

/// The rows of the table's program, likewise, with its two motors at the last reading that is far
/// enough and at the first that isn't.
pub fn table_rows_are_met()
    ensures { TableRowsAreMet }
{}

/// What press and table keep at each step, which a checkpoint is tested by: of each zone whether it is
/// theirs, whether a plate is on its way there, and its posture; and their plates.
pub fn keeps_are_met()
    ensures { KeepsAreMet }
{}
