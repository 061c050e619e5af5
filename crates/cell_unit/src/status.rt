//! A machine's status.
ghost use Rattle.std.specs.Prelude.{◌≡◌};
ghost use Rattle.cell_unit.specs.Statuses.{status_of as status_by};

use cell_control::CtlFault;
use cell_notes::Status;

/// The status of a machine, by what has stopped its controller.
pub fn status_of(stopped: Option<CtlFault>) -> Status
    ensures { result ≡ status_by stopped }
{
    match stopped {
        None => Status::Fine,
        Some(CtlFault::Sensor(_)) => Status::Sensor,
        Some(CtlFault::Refused(_)) | Some(CtlFault::Stopped) => Status::Refused,
        Some(CtlFault::Worn) => Status::Worn,
        Some(CtlFault::Memory) => Status::Memory,
    }
}
