//! What ends the program early: a bad start, no interlock, or a line that fails.

use cell_interlock::MakeFault;
use cell_rules::StartFault;
use std::io;

/// Why the press can't be driven.
#[derive(Debug, Drop)]
pub enum PressFault {
    /// Its start isn't one.
    Start(StartFault),
    /// There is no interlock.
    Interlock(MakeFault),
    /// A line can't be read or written.
    Line(io::Error),
}

impl From<StartFault> for PressFault {
    fn from(fault: StartFault) -> PressFault {
        PressFault::Start(fault)
    }
}

impl From<MakeFault> for PressFault {
    fn from(fault: MakeFault) -> PressFault {
        PressFault::Interlock(fault)
    }
}

impl From<io::Error> for PressFault {
    fn from(fault: io::Error) -> PressFault {
        PressFault::Line(fault)
    }
}
