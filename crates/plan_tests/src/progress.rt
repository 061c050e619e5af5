//! Whether machines at a press go on for ever, by how fair an order is. What `explore` asks is printed.

use super::answered_examples::STANDS;
use super::explorations::{opening_with, plan_in};
use plan_document::ProgrammedPlan;
use plan_liveness::{Progress, explore_progress};
use plan_rules::State;
use std::alloc::{AllocError, Global};

/// The loader, 0, and the press, 1, take the interior and let it go.
const SHARING: &str = "\
[[machine]]
name = \"loader\"
places = [\"hand\"]
program = [\"claim interior\", \"release interior\"]

[[machine]]
name = \"press\"
places = [\"die\"]
poses = [
  { name = \"load\", gives = { interior = \"openin\" }, after_moving = true },
  { name = \"unload\", gives = { interior = \"openout\" }, after_moving = true },
  { name = \"closed\", gives = { interior = \"closed\" }, after_moving = true },
  { name = \"travelling\", gives = { interior = \"moving\" } },
]
program = [\"claim interior\", \"pose travelling\", \"pose load\", \"release interior\"]

[[zone]]
name = \"interior\"
host = \"press\"
guest = \"loader\"
inward = [\"hand\", \"die\"]
outward = [\"die\", \"hand\"]
";

/// What an exploration answers of a machine, or of all, if some are never passed over for ever. It has no clauses, so
/// that who asks it carries none.
fn progress_of(
    alloc: Global,
    plan: &ProgrammedPlan,
    opening: &State,
    who: Option<u8>,
    strong: &[u8],
) -> Result<Progress, AllocError> {
    explore_progress(
        alloc,
        plan.named.plan(),
        opening,
        &plan.programs,
        who,
        strong,
    )
}

/// How many turns come again and again in an order in which that machine starves, or all do; and how soon it goes on if
/// it doesn't: how often `k` turns can pass, and how often `k * k`. `None` if that isn't known.
fn figures_of(progress: &Progress) -> Option<(usize, usize, usize)> {
    match progress {
        Progress::Starves(order) => Some((order.cycle.len(), 0, 0)),
        Progress::Within(bound) => Some((0, bound.plain, bound.helped)),
        _ => None,
    }
}

/// The same of a plan, with plates in these places. `None` also if memory runs out.
fn figures_by(
    alloc: Global,
    plan: &ProgrammedPlan,
    places: [bool; 2],
    who: Option<u8>,
    strong: &[u8],
) -> Option<(usize, usize, usize)> {
    let opening = opening_with(places);
    let progress = progress_of(alloc, plan, &opening, who, strong).ok()?;
    figures_of(&progress)
}

/// The same of a document.
fn figures(
    alloc: Global,
    document: &str,
    places: [bool; 2],
    who: Option<u8>,
    strong: &[u8],
) -> Option<(usize, usize, usize)> {
    let plan = plan_in(alloc, document)?;
    figures_by(alloc, &plan, places, who, strong)
}

// The press alone takes its four turns, unless the loader is never passed over for ever: then it goes on as soon as the
// cart at a dock does (`going.rt`), where the programs are the same. Some machine goes on anyway, within `k` turns, but
// at a standstill.
#[test]
fn strong_fairness_helps(rt: HostRuntime) {
    let (none, one) = ([false, false], [true, false]);
    assert!(rt; figures(rt.alloc(), SHARING, none, Some(0), &[]) == Some((4, 0, 0)));
    assert!(rt; figures(rt.alloc(), SHARING, none, Some(0), &[0]) == Some((0, 3, 3)));
    assert!(rt; figures(rt.alloc(), SHARING, none, None, &[]) == Some((0, 1, 0)));
    assert!(rt; figures(rt.alloc(), STANDS, one, None, &[0, 1]) == Some((1, 0, 0)));
}
