//! Whether an order of turns is printed in which a machine starves, or in which no plate moves.
ghost use Rattle.std.specs.Prelude.{◌≡◌};
ghost use Rattle.std.specs.List.{list_any};
ghost use Rattle.plan_app.specs.Starving as spec;

use plan_liveness::{Liveness, Progress};
use plan_text::NamedPlan;

/// Whether some machine may starve, or plates may rest, by these answers.
pub fn any_starves(named: &NamedPlan, answers: &[Liveness], plates: &Progress) -> bool
    ensures { result ≡ spec.any_starves named.now answers.now plates.now }
{
    any_machine_starves(answers) || plates_may_rest(named, plates)
}

/// Whether some machine may starve.
pub(crate) fn any_machine_starves(answers: &[Liveness]) -> bool
    ensures { result ≡ list_any spec.may_starve answers.now }
{
    answers.iter().any(|found| may_starve(found))
}

/// Whether a machine starves in some fair order, which is printed.
pub(crate) fn may_starve(found: &Liveness) -> bool
    ensures { result ≡ spec.may_starve found.now }
{
    match found {
        Liveness::IfOne { .. } | Liveness::IfAll { .. } | Liveness::IfTwo { .. } => true,
        Liveness::Starves(_) => true,
        Liveness::Silent | Liveness::Always(_) | Liveness::Unknown(_) => false,
    }
}

/// Whether no plate moves in some fair order, which is printed. Of a plan without places nothing is.
pub(crate) fn plates_may_rest(named: &NamedPlan, found: &Progress) -> bool
    ensures { result ≡ spec.plates_may_rest named.now found.now }
{
    if named.places().len() == 0 {
        return false;
    }
    may_rest(found)
}

/// Whether no plate moves in some fair order, which is printed.
pub(crate) fn may_rest(found: &Progress) -> bool
    ensures { result ≡ spec.may_rest found.now }
{
    match found {
        Progress::Starves(_) => true,
        Progress::Within(_) | Progress::Unknown(_) => false,
    }
}
