//! Whether each call that is done has its row, where a plan is compiled into rows of masks.
ghost use Rattle.std.specs.Prelude.{◌≡◌, ◌++◌, IfOk, IsTrue, OnOk, string_bytes};
ghost use Rattle.plan_app.specs.Rows as spec;

use plan_compiled::Compiled;
use plan_types::Plan;
use std::alloc::AllocError;

/// What is said if each call has its row.
const EVERY_ROW: &str = "rows: each call that is done has its row\n";

/// What is said if that isn't known.
const NOT_EVERY_ROW: &str =
    "rows: some calls that are done may have none, and are answered more slowly\n";

/// Whether each call that is done has its row. It may say no of a plan that has all its rows. An error says that memory
/// ran out.
pub(crate) fn has_every_row(plan: &Plan) -> Result<bool, AllocError>
    ensures { IfOk result (λ every. IsTrue every → spec.HasEveryRow plan.now) }
{
    let compiled = Compiled::new(plan.clone()?);
    Ok(is_complete(&compiled))
}

/// Whether a compiled plan is complete. Its rows are right.
fn is_complete(compiled: &Compiled) -> bool
    ensures { IsTrue result → spec.HasEveryRow compiled.now.table }
{
    let _ = compiled.rows();
    compiled.is_complete()
}

/// Adds whether each call that is done has its row.
pub(crate) fn push_rows(text: &mut String, every: bool) -> Result<(), AllocError>
    ensures { OnOk result (string_bytes text.new ≡ string_bytes text.old ++ spec.rows_line every) }
{
    text.push_str(if every { EVERY_ROW } else { NOT_EVERY_ROW })
}
