//! Whether `cell` refuses an input.

ghost use Rattle.std.specs.Prelude.{◌≡◌};
ghost use Rattle.explain_app.specs.Served.{verdict_status};

/// Whether `cell` refuses an input.
#[derive(Clone, Copy, PartialEq, Eq, Debug)]
pub enum Verdict {
    /// It doesn't: nothing was written.
    Taken,
    /// It does: the explanation was written.
    Refused,
}

impl Verdict {
    /// The exit status of `explain`.
    pub fn status(self) -> u8
        ensures { result ≡ verdict_status self }
    {
        match self {
            Verdict::Taken => 0,
            Verdict::Refused => 1,
        }
    }
}
