//! Words that several texts have.
ghost use Rattle.std.specs.Prelude.{◌≡◌, ◌++◌, OnOk, string_bytes};
ghost use Rattle.plan_app.specs.Words as spec;

use std::alloc::AllocError;

/// How the word for a number of things ends: `s`, but for one thing.
pub(crate) fn ending(count: usize) -> &'static str
    ensures { result.now ≡ spec.ending count }
{
    if count == 1 { "" } else { "s" }
}

/// Adds a number of things of a kind.
pub(crate) fn push_counted(text: &mut String, count: usize, kind: &str) -> Result<(), AllocError>
    ensures { OnOk result (string_bytes text.new
        ≡ string_bytes text.old ++ spec.counted count kind.now) }
{
    let ending = ending(count);
    write!(text, "{count} {kind}{ending}")
}
