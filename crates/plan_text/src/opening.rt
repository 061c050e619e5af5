//! The start of a script alone.
ghost use Rattle.std.specs.Prelude.{◌≡◌, List, IfOk};
ghost use Rattle.csv_rows.specs.Rows.{HasRows, IsPlain, Row};
ghost use Rattle.plan_text.specs.Script as spec;

use crate::NamedPlan;
use crate::start::read_start;
use csv::{ByteRecord, Reader, ReaderBuilder};
use csv_rows::{ScriptFault, read_row};
use plan_rules::State;
use std::alloc::Global;
use std::io::Read;
use text_io::InputFault;

/// The start in record 0 of a script, or why there is none. `Read` or `Memory`: it wasn't read.
pub fn start_of_script(
    alloc: Global,
    named: &NamedPlan,
    script: &[u8],
) -> Result<Result<State, ScriptFault>, InputFault>
    ensures { IfOk result (λ start. start ≡ spec.script_start named.now script.now) }
{
    let mut reader = ReaderBuilder::new()
        .has_headers(false)
        .flexible(true)
        .from_reader(alloc, script);
    start_of_rows(alloc, named, &mut reader)
}

/// The start in the first record that a reader has left.
fn start_of_rows<R: Read>(
    alloc: Global,
    named: &NamedPlan,
    reader: &mut Reader<R>,
) -> Result<Result<State, ScriptFault>, InputFault>
    requires { IsPlain reader.old }
    ensures { IfOk result (λ start. (rows : List Row) → HasRows R.remaining reader.old rows →
        start ≡ spec.rows_start named.now rows) }
{
    let mut row = ByteRecord::new(alloc);
    if !read_row(reader, &mut row)? {
        return Ok(Err(ScriptFault::NoStart));
    }
    Ok(read_start(named, &row))
}
