//! How a script ends whose records are answered one by one.

ghost use Rattle.std.specs.Prelude.{◌≡◌, ◌++◌, Some, OnOk, string_bytes};
ghost use Rattle.csv_rows.specs.ScriptEnd.{end_text, fault_text};

use std::alloc::AllocError;
use std::fmt;

/// The most records after record 0 that are answered.
pub const MAX_RECORDS: u32 = 65_536;

/// Why a script was refused.
#[derive(Clone, Copy, PartialEq, Eq, Debug)]
pub enum ScriptFault {
    /// There is no record 0, or its first field isn't a word that starts a script.
    NoStart,
    /// Record 0 begins with a word that starts a script, but the rest of it is no valid start.
    BadStart,
    /// The record with this number is no request. Record 0 is the start, so 1 is the least number.
    BadRow(u32),
    /// There are more records or more bytes than are used.
    Long,
}

impl fmt::Display for ScriptFault {
    ghost output = { λ fault. Some (fault_text fault) };

    fn fmt<W: fmt::Write>(&self, f: &mut fmt::Formatter<W>) -> fmt::Result {
        match self {
            ScriptFault::NoStart => f.write_str("nostart"),
            ScriptFault::BadStart => f.write_str("badstart"),
            ScriptFault::BadRow(number) => write!(f, "badrow {number}"),
            ScriptFault::Long => f.write_str("long"),
        }
    }
}

/// How a script ended.
#[derive(Clone, Copy, PartialEq, Eq, Debug)]
pub enum Outcome {
    /// Each record was answered.
    Clean,
    /// The records before the fault were answered.
    Refused(ScriptFault),
}

/// Adds the last line of a script that is refused.
pub fn push_end(text: &mut String, outcome: Outcome) -> Result<(), AllocError>
    ensures { OnOk result (string_bytes text.new ≡ string_bytes text.old ++ end_text outcome) }
{
    match outcome {
        Outcome::Clean => Ok(()),
        Outcome::Refused(fault) => writeln!(text, "fault {fault}"),
    }
}
