//! Within how many steps plates move, and the words for it.

ghost use Rattle.std.specs.Prelude.{◌≡◌, ◌++◌, OnOk, string_bytes};
ghost use Rattle.explore_app.specs.Bounds as bounds;

use std::alloc::AllocError;

/// A bound on how many steps pass until a plate moves: `k * plain + k * k * helped`, in a schedule
/// that is fair with bound `k`. A step is a turn that changes the situation.
#[derive(Clone, Copy, PartialEq, Eq, Debug)]
pub struct Bound {
    /// How often `k` steps can pass.
    pub plain: usize,
    /// How often `k * k` steps can pass.
    pub helped: usize,
}

impl Bound {
    /// The bound of no schedule.
    pub const NONE: Bound = Bound {
        plain: 0,
        helped: 0,
    };

    /// A bound that holds where one of the two does.
    pub fn or(self, other: Bound) -> Bound
        ensures { result ≡ bounds.either_bound self other }
    {
        Bound {
            plain: self.plain.max(other.plain),
            helped: self.helped.max(other.helped),
        }
    }

    /// Adds its words, such as `k * 26 + k * k * 2 steps`.
    #[tactic(auto, unfolding(crate::specs::Bounds::bound_words))]
    pub fn push_words(self, text: &mut String) -> Result<(), AllocError>
        ensures { OnOk result
            (string_bytes text.new ≡ string_bytes text.old ++ bounds.bound_words self) }
    {
        let Bound { plain, helped } = self;
        write!(text, "k * {plain} + k * k * {helped} steps")
    }

    // Adds its words between two texts.
    pub(crate) fn push_within(
        self,
        text: &mut String,
        before: &str,
        after: &str,
    ) -> Result<(), AllocError>
        ensures { OnOk result (string_bytes text.new ≡ string_bytes text.old
            ++ (before.now ++ bounds.bound_words self ++ after.now)) }
    {
        text.push_str(before)?;
        self.push_words(text)?;
        text.push_str(after)
    }
}

// Adds a text.
pub(crate) fn push_text(text: &mut String, more: &str) -> Result<(), AllocError>
    ensures { OnOk result (string_bytes text.new ≡ string_bytes text.old ++ more.now) }
{
    text.push_str(more)
}
