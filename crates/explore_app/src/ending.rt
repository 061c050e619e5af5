//! How the turns end that an exploration has found.

ghost use Rattle.std.specs.Prelude.{◌≡◌};
ghost use Rattle.explore_app.specs.Rings as rings;

use cell_explorer::Prospect;

/// How the turns end that an exploration has found.
#[derive(Clone, Copy)]
pub enum Ending {
    /// All six machines wait.
    Standstill,
    /// A machine is refused what its step doesn't wait for. No turns of the six programs that run
    /// end so.
    Refusal,
}

impl Ending {
    /// Its words on a screen.
    #[tactic(auto, unfolding(crate::specs::Rings::ending_words))]
    pub fn words(self) -> &'static str
        ensures { result.now ≡ rings.ending_words self }
    {
        match self {
            Ending::Standstill => "a standstill",
            Ending::Refusal => "a refusal that stops a machine",
        }
    }

    /// Whether it is about a machine whose next turn would do this.
    pub fn is_about(self, prospect: Prospect) -> bool
        ensures { result ≡ rings.is_about self prospect }
    {
        match self {
            Ending::Standstill => matches!(prospect, Prospect::Waits),
            Ending::Refusal => matches!(prospect, Prospect::Stops),
        }
    }
}
