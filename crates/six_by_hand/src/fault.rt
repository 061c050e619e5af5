//! Why the run by six workers ends.

use cell_renewal::RenewalFault;
use cell_report::AuditFault;
use cell_rules::StartFault;
use cell_sensors::PointsFault;
use cell_threads::RunFault;
use std::io;

/// Why the six machines can't be driven, or their run not told.
#[derive(Debug, Drop)]
pub enum SixFault {
    /// Their start isn't one.
    Start(StartFault),
    /// A potentiometer's points aren't some.
    Points(PointsFault),
    /// There is no record of a run.
    Run(RunFault),
    /// No history gives the journals, or memory ran out.
    Audit(AuditFault),
    /// A line can't be written.
    Line(io::Error),
}

impl From<StartFault> for SixFault {
    fn from(fault: StartFault) -> SixFault {
        SixFault::Start(fault)
    }
}

impl From<PointsFault> for SixFault {
    fn from(fault: PointsFault) -> SixFault {
        SixFault::Points(fault)
    }
}

impl From<RenewalFault<AuditFault>> for SixFault {
    fn from(fault: RenewalFault<AuditFault>) -> SixFault {
        match fault {
            RenewalFault::Run(fault) => SixFault::Run(fault),
            RenewalFault::Sink(fault) => SixFault::Audit(fault),
        }
    }
}

impl From<io::Error> for SixFault {
    fn from(fault: io::Error) -> SixFault {
        SixFault::Line(fault)
    }
}
