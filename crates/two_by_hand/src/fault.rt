//! Why the program ends.

use cell_interlock::MakeFault;
use cell_rules::StartFault;
use std::io;

/// Why the two can't be answered.
#[derive(Debug, Drop)]
pub enum TwoFault {
    /// Their start isn't one.
    Start(StartFault),
    /// There is no interlock.
    Interlock(MakeFault),
    /// A line can't be read or written.
    Line(io::Error),
}

impl From<StartFault> for TwoFault {
    fn from(fault: StartFault) -> TwoFault {
        TwoFault::Start(fault)
    }
}

impl From<MakeFault> for TwoFault {
    fn from(fault: MakeFault) -> TwoFault {
        TwoFault::Interlock(fault)
    }
}

impl From<io::Error> for TwoFault {
    fn from(fault: io::Error) -> TwoFault {
        TwoFault::Line(fault)
    }
}
