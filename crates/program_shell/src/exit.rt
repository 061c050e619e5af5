//! How a program ends.

ghost use Rattle.std.specs.Prelude.{◌≡◌};
ghost use Rattle.program_shell.specs.Exits.{exit_status};

/// How a program ends.
#[derive(Clone, Copy, PartialEq, Eq, Debug)]
pub enum Exit {
    /// All went well, or the words asked for help.
    Well,
    /// An input was refused, a machine stopped, an audit rejected, a read or a write failed, a
    /// worker couldn't be started, or memory ran out.
    Failed,
    /// The words were refused, or one of them wasn't text.
    Refused,
}

impl Exit {
    /// The exit status.
    pub fn status(self) -> u8
        ensures { result ≡ exit_status self }
    {
        match self {
            Exit::Well => 0,
            Exit::Failed => 1,
            Exit::Refused => 2,
        }
    }
}
