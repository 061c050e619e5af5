//! The text that answers a script.
ghost use Rattle.std.specs.Prelude.{◌≡◌};

use csv_rows::Outcome;
use std::marker::Model;

/// The text that answers a script, and how the script ended.
#[derive(Debug, Drop)]
pub struct ScriptAnswers {
    pub(crate) text: String,
    pub(crate) outcome: Outcome,
}

impl Model for ScriptAnswers {
    ghost use Rattle.std.specs.Prelude.{string_bytes};
    ghost use Rattle.plan_text.specs.Script.{Answers};

    ghost Value = { Answers };

    ghost view = { λ a. record { text = string_bytes a.text; outcome = a.outcome } };
}

impl ScriptAnswers {
    /// The text: a line for each record, and the line of a fault if the script is refused.
    pub fn text(&self) -> &str
        ensures { result.now ≡ self.now.text }
    {
        self.text.as_str()
    }

    /// How the script ended.
    pub fn outcome(&self) -> Outcome
        ensures { result ≡ self.now.outcome }
    {
        self.outcome
    }
}
