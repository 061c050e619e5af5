//! Whether plates go on for ever, and the lines that say it.

ghost use Rattle.std.specs.Prelude.{◌≡◌, ◌++◌, OnOk, string_bytes};
ghost use Rattle.explore_app.specs.Liveness as spec;

use crate::bound::{Bound, push_text};
use cell_liveness::{Plates, Progress};
use std::alloc::AllocError;

/// Whether plates move for ever in fair schedules, or a machine moves them.
#[derive(Clone, Copy, PartialEq, Eq, Debug)]
pub enum Liveness {
    /// They do, within this bound.
    Within(Bound),
    /// In some fair schedule they don't.
    Starves,
    /// That isn't known.
    Unknown,
}

impl Liveness {
    /// What an answer says about it.
    pub fn of(answer: &Progress) -> Liveness
        ensures { result ≡ spec.liveness_of answer.now }
    {
        match answer {
            Progress::Within { plain, helped } => Liveness::Within(Bound {
                plain: *plain,
                helped: *helped,
            }),
            Progress::Starves { .. } => Liveness::Starves,
            Progress::Unknown(_) => Liveness::Unknown,
        }
    }

    /// Whether each of the six machines moves plates for ever.
    pub fn of_each(plates: &Plates) -> Liveness
        ensures { result ≡ spec.liveness_of_each plates.now }
    {
        let belts = Liveness::of(&plates.feed).and(Liveness::of(&plates.deposit));
        let middle = Liveness::of(&plates.table).and(Liveness::of(&plates.robot));
        let others = Liveness::of(&plates.press).and(Liveness::of(&plates.crane));
        belts.and(middle).and(others)
    }

    /// Whether both go on: one starves if it is known of either, and a bound is known if it is of each.
    pub fn and(self, other: Liveness) -> Liveness
        ensures { result ≡ spec.both self other }
    {
        match (self, other) {
            (Liveness::Starves, _) | (_, Liveness::Starves) => Liveness::Starves,
            (Liveness::Within(one), Liveness::Within(another)) => Liveness::Within(one.or(another)),
            _ => Liveness::Unknown,
        }
    }

    /// Whether a fair schedule is known in which plates stand, or a machine moves none.
    pub fn may_starve(self) -> bool
        ensures { result ≡ spec.may_starve self }
    {
        matches!(self, Liveness::Starves)
    }
}

/// Whether plates or one of the six machines may starve, by these answers.
pub fn any_starves(plates: &Plates) -> bool
    ensures { result ≡ spec.any_starves plates.now }
{
    Liveness::of(&plates.any).may_starve() || Liveness::of_each(plates).may_starve()
}

/// Adds what fair schedules do from a start: within how many steps a plate moves, and each machine
/// moves one; or that one may move none, or that this isn't known.
#[tactic(auto, unfolding(crate::specs::Liveness::going_lines))]
pub fn push_plates(text: &mut String, plates: &Plates) -> Result<(), AllocError>
    ensures { OnOk result
        (string_bytes text.new ≡ string_bytes text.old ++ spec.going_lines plates.now) }
{
    push_going(text, Liveness::of(&plates.any))?;
    push_machines(text, Liveness::of_each(plates))
}

// Adds the line of whether plates go on.
#[tactic(auto, unfolding(crate::specs::Liveness::going_line))]
fn push_going(text: &mut String, found: Liveness) -> Result<(), AllocError>
    ensures { OnOk result
        (string_bytes text.new ≡ string_bytes text.old ++ spec.going_line found) }
{
    match found {
        Liveness::Within(bound) => bound.push_within(
            text,
            "# plates go on: a plate moves within ",
            " of a fair schedule\n",
        ),
        Liveness::Starves => push_text(text, "# in some fair schedule plates may stand for ever\n"),
        Liveness::Unknown => push_text(text, "# it isn't known whether plates move for ever\n"),
    }
}

// Adds the line of whether each machine goes on.
#[tactic(auto, unfolding(crate::specs::Liveness::machines_line))]
fn push_machines(text: &mut String, found: Liveness) -> Result<(), AllocError>
    ensures { OnOk result
        (string_bytes text.new ≡ string_bytes text.old ++ spec.machines_line found) }
{
    match found {
        Liveness::Within(bound) => {
            bound.push_within(text, "# each machine moves a plate within ", "\n")
        }
        Liveness::Starves => push_text(
            text,
            "# in some fair schedule a machine may move no plate for ever\n",
        ),
        Liveness::Unknown => push_text(
            text,
            "# it isn't known whether each machine moves plates for ever\n",
        ),
    }
}
