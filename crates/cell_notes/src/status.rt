//! What has stopped a machine, for records and reports.
ghost use Rattle.std.specs.Prelude.{◌≡◌};
ghost use Rattle.cell_notes.specs.Statuses.{status_word};

use std::fmt;

/// A machine's status: what has stopped it, if anything has.
#[derive(Clone, Copy, Debug, PartialEq, Eq)]
pub enum Status {
    /// Nothing has stopped it.
    Fine,
    /// The interlock's stamp has reached its last value.
    Worn,
    /// Its sensors couldn't be used.
    Sensor,
    /// A call was refused, and its step doesn't wait for that refusal to pass.
    Refused,
    /// Its line was out of memory for a call.
    Memory,
    /// Its gate wasn't opened.
    GateLimit,
}

impl Status {
    /// The status's word in reports.
    pub fn word(self) -> &'static str
        ensures { result.now ≡ status_word self }
    {
        match self {
            Status::Fine => "ok",
            Status::Worn => "worn",
            Status::Sensor => "sensor",
            Status::Refused => "refused",
            Status::Memory => "memory",
            Status::GateLimit => "gatelimit",
        }
    }
}

impl fmt::Display for Status {
    ghost use Rattle.std.specs.Prelude.{Some};

    ghost output = { λ status. Some (status_word status) };

    fn fmt<W: fmt::Write>(&self, f: &mut fmt::Formatter<W>) -> fmt::Result {
        f.write_str(self.word())
    }
}
